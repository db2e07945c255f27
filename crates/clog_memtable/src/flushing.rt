//! A memtable that is to be flushed (Cassandra's `ColumnFamilyStore.Flush`): a keeper is to put its
//! table file.
use crate::memtable::Interval;
use clog_cells::CellMap;

/// A memtable that is to be flushed: its interval, and the cells of its table within.
#[derive(Drop)]
pub struct Memtable {
    /// Its part of the log.
    pub interval: Interval,
    /// What its table file is to hold.
    pub cells: CellMap,
}
