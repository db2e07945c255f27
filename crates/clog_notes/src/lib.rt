//! Notes of entries: what a mutation deposits in the log, wherever its entry is claimed (what
//! Cassandra's `CommitLog.add` makes of a mutation).
#![tactic(auto)]

mod entry;

pub use entry::{LargeEntry, entry_size, note_of};
