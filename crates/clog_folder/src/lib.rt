//! What a folder holds, in the order in which it is read: its table files, and then its segments,
//! up to the first that is refused (Cassandra's `CommitLogReplayer`, in front of its merge).
//! Opening a log and replaying it both begin so.
//!
//! Table files are read here, whole, and segments above, in pieces; how a segment may end, and what
//! a folder may be refused for, is said here. Nothing on the disk changes.
#![tactic(auto)]

mod entries;
mod fault;
mod listing;
mod segment;
mod tables;
mod whole;

pub use entries::judge_end;
pub use fault::{OpenFault, fault_of};
pub use listing::{
    SegmentNames, TableNames, count_segments, count_tables, greatest_id, segment_names, table_names,
};
pub use segment::segment_bytes;
pub use tables::{TableHeld, read_tables};
pub use whole::read_whole;
