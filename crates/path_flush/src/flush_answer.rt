//! What a flush of a table's memtable answers (`ColumnFamilyStore.Flush`).
use clog_base::Key;

/// What a flush of a table's memtable answers. Keys are those of the log.
#[derive(Clone, Copy, Debug, PartialEq, Eq, Drop)]
pub enum Flush {
    /// The memtable is retired, with a table file of what was written to it.
    Flushed {
        /// The key above which the file's interval begins: where the table's last file ended.
        lower: Key,
        /// The memtable's final bound, up to which the interval goes.
        upper: Key,
    },
    /// Nothing was written to the memtable, which is retired, up to this key, its final bound.
    Empty(Key),
    /// Another seat has the table's turn: its word was found with this in it. The seat only looked.
    Busy(u64),
    /// The keeper has stopped: its count of faults at its opening, and the one with which the log
    /// is stopped. A memtable that was switched is left for the next flush, or its table file was
    /// put just before.
    Stopped {
        /// The count at its opening.
        at_open: u64,
        /// The count that the log tells.
        now: u64,
    },
    /// Memory was refused, to the call or to the keeper. A memtable that was switched is left for
    /// the next flush.
    OutOfMemory,
}
