//! A list of versions that only grows. Publishing takes turns under a lock; readers take no lock.
//!
//! What was published is taken into two copies of a value (`left_right`): readers look at the one
//! while the writer changes the other. Beside it stands a history (`logbook`), of which each seat
//! has seen a beginning. A seat never goes back, and may learn from any other.
#![tactic(auto)]

mod history;
mod list;
mod record;
mod rule;
mod seat;
mod side;
mod turn;
mod write_seat;

pub use history::{Front, Naming, NewHistory};
pub use list::VersionList;
pub use record::Record;
pub use seat::{NoWriter, ReadSeat};
pub use side::{Gathers, Side};
pub use turn::{Show, Sides};
pub use write_seat::WriteSeat;
