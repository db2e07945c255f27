//! What a table file says.
use clog_base::{Position, Table};
use clog_cells::CellMap;

/// Cells of one table: the newest of those that its log holds above `lower` and at or below `upper`
/// (Cassandra's `SSTable` with its commit log intervals).
#[derive(Drop)]
pub struct TableFile {
    /// The table that all its cells are of, below 16.
    pub table: Table,
    /// The end of the interval that is not in it.
    pub lower: Position,
    /// The end of the interval that is in it; not below `lower`.
    pub upper: Position,
    /// The newest cell of each key.
    pub cells: CellMap,
}
