//! What a memtable holds when it is flushed: the newest cells of its table among the entries of the
//! log that end within its interval (Cassandra's `Memtable`, as `Flush` writes it out).
#![tactic(auto)]

mod filling;
mod flushing;
mod gathering;
mod memtable;
mod memtables;

pub use flushing::Memtable;
pub use gathering::gather;
pub use memtable::{Interval, cells_within};
pub use memtables::memtables_of;
