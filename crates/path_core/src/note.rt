//! What a writer deposits: an entry of the log, and where it was claimed.
use clog_base::{Bytes, Key, Writer};

/// An entry of the log (Cassandra's `CommitLogSegment.Allocation`, once it is written).
#[derive(Drop)]
pub struct EntryNote {
    /// Where its range in the log begins.
    pub start: Key,
    /// The end of its range, exclusive: its position.
    pub end: Key,
    /// The tables that the mutation updates, bit `t` for table `t`.
    pub tables: u16,
    /// The line of the mutation file that it comes from.
    pub line: u32,
    /// The writer that deposited it.
    pub writer: Writer,
    /// The entry as it stands in the log.
    pub bytes: Bytes,
}
