//! What a folder restores to, and how much was read of it (Cassandra's `CommitLogReplayer`). An
//! update is left out where a table file of its table stands for its position.
//!
//! Table files are read first, by the caller. Then it reads the segments in pieces, and puts the
//! entries of each piece, as a batch, into a bounded queue; workers take them from there, decode
//! and merge them, each into cells of its own, and what each has is merged into one. So no segment
//! is held whole, and which worker takes an entry makes no difference. `read_log` reads the
//! segments in the same way, and merges their entries by itself.
#![tactic(auto)]

mod alone;
mod batching;
mod merged;
mod piped;
mod piping;
mod places;
mod reading;
mod replaying;
mod restoring;
mod settling;
mod skipping;
mod source;
mod streaming;
mod taking;

pub use merged::Merged;
pub use reading::{Logged, read_log};
pub use replaying::replay;
pub use restoring::{Counts, Restored};
