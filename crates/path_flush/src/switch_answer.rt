//! What a switch of a table's memtable answers (`ColumnFamilyStore.Flush`, before it writes).
use clog_base::Key;

/// What a switch of a table's memtable answers. Keys are those of the log.
#[derive(Clone, Copy, Debug, PartialEq, Eq, Drop)]
pub enum Switch {
    /// Nothing was written to the memtable, which is retired, up to this key, its final bound.
    Empty(Key),
    /// The memtable is left behind its barrier, with this key as its final bound, and waits for the
    /// flush that is to put its table file.
    Left(Key),
    /// An earlier switch left this memtable, which waits still. Nothing was switched.
    Waits(u64),
    /// Another seat has the table's turn: its word was found with this in it. The seat only looked.
    Busy(u64),
}
