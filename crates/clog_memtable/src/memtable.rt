//! The cells of a table within an interval of the log. Each entry that touches the table and ends
//! within the interval is read once; the others are passed over.
ghost use Rattle.std.specs.Prelude.{◌≡◌, ◌<◌, IfOk, OnOk};
ghost use Rattle.clog_cells.specs.Batches.{Adds};
ghost use Rattle.clog_cells.specs.Merge.{IsMergeOf};
ghost use Rattle.clog_memtable.specs.Filling.{
  AreWhole,
  IsFileWithin,
  cells_in,
  is_within,
};
ghost use Rattle.clog_spec.specs.Sizes.{most_tables};
ghost use Rattle.path_core.specs.Keeper.{Holding, IsLoggedCell, PutFile};
ghost use Rattle.path_core.specs.Whole.{IsWhole};

use crate::filling::put_note;
use clog_base::{Key, OutOfMemory, Table};
use clog_cells::{CellBatches, CellMap};
use path_core::EntryNote;
use std::alloc::Global;

/// The part of the log that a memtable has: the entries of its table that end above the one key and
/// not above the other.
#[derive(Clone, Copy, Debug, PartialEq, Eq)]
pub struct Interval {
    /// The table.
    pub table: Table,
    /// The key above which its entries end.
    pub lower: Key,
    /// The last key at which one may end.
    pub upper: Key,
}

// Whether an entry is the memtable's.
fn is_within(note: &EntryNote, interval: Interval) -> bool
    requires { interval.table.0 < most_tables }
    ensures { result ≡ is_within interval note.now }
{
    note.tables >> interval.table.0 & 1 == 1
        && interval.lower.0 < note.end.0
        && note.end.0 <= interval.upper.0
}

// Puts the cells of an entry, if it is the memtable's.
fn put_within(
    alloc: Global,
    cells: &mut CellBatches,
    interval: Interval,
    note: &EntryNote,
) -> Result<(), OutOfMemory>
    requires table { interval.table.0 < most_tables }
    requires whole { IsWhole note.now }
    ensures { (whole : IsWhole note.now) → OnOk result
        (Adds (cells_in interval note.now whole.mutation) cells.old cells.new) }
{
    if is_within(note, interval) {
        return put_note(alloc, cells, interval.table, note);
    }
    Ok(())
}

/// The cells of a memtable, from the log's entries that are lasting: what a table file of its
/// interval has to hold. Entries of other tables are not read.
pub fn cells_within(
    alloc: Global,
    logged: &[EntryNote],
    interval: Interval,
) -> Result<CellMap, OutOfMemory>
    requires table { interval.table.0 < most_tables }
    requires whole { AreWhole logged.now }
    ensures { (h : Holding) (f : PutFile) → h.logged ≡ logged.now → IsFileWithin interval f
        → IfOk result (IsMergeOf (IsLoggedCell h f)) }
{
    let mut cells = CellBatches::new(alloc);
    for note in logged {
        put_within(alloc, &mut cells, interval, note)?;
    }
    cells.into_map()
}
