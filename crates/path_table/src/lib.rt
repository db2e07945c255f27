//! The write path over a table of words and boxes that threads share, by the rule of `path_rule`:
//! each atomic step of a seat on one word is one step of the machine without threads (`path_core`).
//!
//! `PathTable` has a method for each kind of step, and `Member` is the seat that makes them.
#![tactic(auto)]

mod accepting;
mod append_barrier;
mod appending;
mod applying;
mod bounds;
mod claiming;
mod closing;
mod desk;
mod filing;
mod flush_reading;
mod gathering;
mod lending;
mod looking;
mod opening;
mod publishing;
mod read_bounds;
mod seeking;
mod switching;
mod syncing;
mod table;
mod table_turn;
mod trying;
mod turn;
mod unused;
mod words;
mod write_barrier;
mod writing;

pub use bounds::TableBounds;
pub use opening::open;
pub use table::{Member, Opener, PathTable};
pub use trying::{Begun, PathSeat, Seen};
pub use words::{EXPIRED, ONE_GROUP};
