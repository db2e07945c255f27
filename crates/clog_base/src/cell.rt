//! Cells and where they stand.
ghost use Rattle.std.specs.Prelude.{◌≡◌};
ghost use Rattle.clog_base.specs.CellKeys.{key_cmp};

use crate::text::Text;
use std::cmp::Ordering;

/// The number of a table, below 16.
#[derive(Clone, Copy, Debug, PartialEq, Eq, PartialOrd, Ord)]
pub struct Table(pub u8);

/// The number of a writer, below 64.
#[derive(Clone, Copy, Debug, PartialEq, Eq, PartialOrd, Ord)]
pub struct Writer(pub u8);

/// Whether a cell is deleted or lives.
#[derive(Clone, Copy, Debug, PartialEq, Eq)]
pub enum Kind {
    /// Deleted (Cassandra's tombstone).
    Deletion,
    /// With a value.
    Live,
}

/// What stands at a key: a timestamp, and a live value or a deletion, whose value is empty.
#[derive(Drop)]
pub struct Cell {
    /// The timestamp that its writer gave it. The greater is newer, whatever its unit.
    pub ts: i64,
    /// Whether it is deleted or lives.
    pub kind: Kind,
    /// The value of a live cell; no bytes at a deletion.
    pub value: Text,
}

/// Where a cell stands. Ordered by table, then by the bytes of the key, then of the column.
#[derive(PartialEq, Eq, PartialOrd, Ord, Drop)]
pub struct CellKey {
    /// The table.
    pub table: Table,
    /// The partition's key: 1 to 255 bytes.
    pub key: Text,
    /// The column's name: 1 to 255 bytes.
    pub column: Text,
}

impl CellKey {
    /// How it stands to another in the order of cells.
    pub fn compare(&self, other: &CellKey) -> Ordering
        ensures { result ≡ key_cmp self.now other.now }
    {
        self.cmp(other)
    }
}
