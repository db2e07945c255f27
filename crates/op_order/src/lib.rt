//! Cassandra's `OpOrder` by itself: readers look at a published place, one owner publishes new
//! places, and places are freed behind barriers.
//!
//! A reader starts an operation in the current group, looks at the root, reads the value there, and
//! ends. The owner writes a value into a free place, makes that the root, and issues a barrier for
//! the place before: it makes the next group the current one, and expires the group before. Once
//! that group and all earlier ones have no operation left the place can be freed (`reclaim`). So no
//! place is written while an operation that looked at it runs.
#![tactic(auto)]

mod fact;
mod laws;
mod opening;
mod owner;
mod owning;
mod plays;
mod reader;
mod reading;
mod rule;
mod seats;
mod spots;
mod table;
mod view;
mod word;

pub use fact::Fact;
pub use laws::each_moment_is_lawful;
pub use owner::{Publish, Reclaim};
pub use seats::{Owner, Reader, Running, Seen};
pub use spots::Spots;
pub use table::OpOrder;
pub use view::{OwnerPart, ReaderPart, Stage, View, WordStep};
