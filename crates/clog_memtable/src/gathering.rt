//! The cells of a table are gathered from lists of entries, one after another: what the boxes of a
//! memtable hold of it.
ghost use Rattle.std.specs.Prelude.{◌++◌, List, OnOk};
ghost use Rattle.clog_memtable.specs.Filling.{AreWhole};
ghost use Rattle.clog_memtable.specs.Gathering.{IsGathered};
ghost use Rattle.path_core.specs.declared.note.EntryNote.{EntryNote};

use crate::filling::put_note;
use clog_base::{OutOfMemory, Table};
use clog_cells::CellBatches;
use path_core::EntryNote;
use std::alloc::Global;
use std::collections::LinkedList;

/// Puts the cells that these entries have of a table, behind what other entries had put there.
/// Where memory is refused a part may be put, and the entries stay as they are.
pub fn gather(
    alloc: Global,
    cells: &mut CellBatches,
    table: Table,
    notes: &LinkedList<EntryNote>,
) -> Result<(), OutOfMemory>
    requires { AreWhole notes.now }
    ensures { (before : List EntryNote) → IsGathered table before cells.old
        → OnOk result (IsGathered table (before ++ notes.now) cells.new) }
{
    for note in notes {
        put_note(alloc, cells, table, note)?;
    }
    Ok(())
}
