//! An owner and readers over an order of groups: the owner publishes a value in each round, and the
//! readers read beside it, each in a thread of its own where one can be started.
#![tactic(auto)]

mod owner;
mod products;
mod readers;
mod run;

pub use owner::publish_all;
pub use products::{Products, product};
pub use readers::read_all;
pub use run::{PLACES, Totals, run_orders};
