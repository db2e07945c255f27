//! What a folder restores to, and its counts.
ghost use Rattle.std.specs.Prelude.{◌++◌, IfOk, List, OnOk, map};
ghost use Rattle.clog_cells.specs.Merge.{AreInOrder, IsMerge};
ghost use Rattle.clog_crash.specs.Folder.{cells_of_tables};
ghost use Rattle.clog_folder.specs.Tables.{read_of};
ghost use Rattle.replay_merge.specs.Entries.{Entry as log_entry};
ghost use Rattle.replay_merge.specs.Piped.{IsDone};
ghost use Rattle.replay_merge.specs.Restoring.{IsRestoredOf};

use crate::piped::Piped;
use clog_base::OutOfMemory;
use clog_cells::CellMap;
use clog_folder::TableHeld;

/// How much was read of a folder.
#[derive(Clone, Copy, Debug, PartialEq, Eq)]
pub struct Counts {
    /// Names of segments, of all versions, torn ones among them.
    pub segments: u32,
    /// Names of table files.
    pub tables: u32,
    /// Entries of the log whose payloads are mutations'.
    pub entries: u64,
    /// Their updates that were merged.
    pub updates: u64,
    /// Their updates that were not, since table files stand for them.
    pub skipped: u64,
}

/// What a folder restores to.
#[derive(Drop)]
pub struct Restored {
    /// The newest cell of each key.
    pub cells: CellMap,
    /// How much was read.
    pub counts: Counts,
}

/// Merges the cells of table files in.
fn add_tables(cells: &mut CellMap, tables: Vec<TableHeld>) -> Result<(), OutOfMemory>
    requires { AreInOrder cells.old }
    ensures { OnOk result (IsMerge (cells.old ++ cells_of_tables (map read_of tables.items))
        cells.new) }
{
    for held in tables {
        cells.merge(held.file.cells)?;
    }
    Ok(())
}

/// What a folder restores to that has these table files and so many names of segments and of table
/// files, of whose entries this is known.
pub(crate) fn restored_of(
    tables: Vec<TableHeld>,
    segment_names: usize,
    table_names: usize,
    piped: Piped,
) -> Result<Restored, OutOfMemory>
    requires { (items : List log_entry) × IsDone tables.items items piped }
    ensures { (items : List log_entry) → IsDone tables.items items piped
        → IfOk result (IsRestoredOf tables.items items segment_names table_names) }
{
    let (Ok(segments), Ok(names)) = (u32::try_from(segment_names), u32::try_from(table_names))
    else {
        return Err(OutOfMemory);
    };
    let Piped {
        merged,
        entries,
        ..
    } = piped;
    let counts = Counts {
        segments,
        tables: names,
        entries,
        updates: merged.updates,
        skipped: merged.skipped,
    };
    let mut cells = merged.cells;
    add_tables(&mut cells, tables)?;
    Ok(Restored { cells, counts })
}
