//! Groups of running operations (Cassandra's `OpOrder`), as counts without threads.
#![tactic(auto)]

mod chain;
mod count;
mod orders;

pub use chain::is_passed;
pub use count::{GroupFault, Order, Tally};
pub use orders::Orders;
