//! The memtables of notes: for each table that one of them touches above the table's lower key, the
//! newest cells that they have of it, from there up to one key for all (Cassandra's `Memtable`). A
//! table's lower key is where its last table file ends, so that each entry lies in one file.
ghost use Rattle.std.specs.Prelude.{◌≡◌, ◌<◌, ◌↔◌, IfOk, IsTrue, length};
ghost use Rattle.clog_spec.specs.Sizes.{most_tables};
ghost use Rattle.clog_memtable.specs.Filling.{AreWhole};
ghost use Rattle.clog_memtable.specs.Touched.{
  AreMemtablesOf,
  IsMemtableOf,
  IsTouchedAbove,
  key_for,
};

use crate::flushing::Memtable;
use crate::memtable::{Interval, cells_within};
use clog_base::{Key, MOST_TABLES, OutOfMemory, Table};
use path_core::EntryNote;
use std::alloc::Global;

// Whether one of the notes touches a table, and ends above a key.
fn is_touched(notes: &[EntryNote], table: u8, lower: Key) -> bool
    requires { table < most_tables }
    ensures { IsTrue result ↔ IsTouchedAbove notes.now table lower.0 }
{
    for note in notes {
        if note.tables >> table & 1 == 1 && lower.0 < note.end.0 {
            return true;
        }
    }
    false
}

// The memtable of a table that one of the notes touches above a key.
fn memtable_of(
    alloc: Global,
    notes: &[EntryNote],
    table: u8,
    lower: Key,
    upper: Key,
) -> Result<Memtable, OutOfMemory>
    requires table { table < most_tables }
    requires whole { AreWhole notes.now }
    requires touched { IsTouchedAbove notes.now table lower.0 }
    ensures memtable { IfOk result (IsMemtableOf notes.now lower.0 upper.0) }
    ensures table { IfOk result (λ m. m.interval.table.0 ≡ table) }
{
    let interval = Interval {
        table: Table(table),
        lower,
        upper,
    };
    let cells = cells_within(alloc, notes, interval)?;
    Ok(Memtable { interval, cells })
}

/// The memtables of whole notes up to a key, in the order of their tables. `lowers` has the key
/// above which each table's entries end, by the table's number; an entry at or below it is left
/// out.
pub fn memtables_of(
    alloc: Global,
    notes: &[EntryNote],
    lowers: &[Key],
    upper: Key,
) -> Result<Vec<Memtable>, OutOfMemory>
    requires whole { AreWhole notes.now }
    requires lowers { length lowers.now ≡ most_tables }
    ensures { IfOk result (λ ms. AreMemtablesOf notes.now (key_for lowers.now) upper.0 most_tables
        ms.items) }
{
    let mut memtables = Vec::new(alloc);
    for table in 0..MOST_TABLES {
        let lower = lowers[usize::from(table)];
        if is_touched(notes, table, lower) {
            memtables.push(memtable_of(alloc, notes, table, lower, upper)?)?;
        }
    }
    Ok(memtables)
}
