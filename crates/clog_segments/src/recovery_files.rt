//! The first half of a recovery: for each table that has cells which the log restores, one file is
//! put, whose interval holds the whole log.
ghost use Rattle.std.specs.Prelude.{◌≡◌, ◌<◌, ◌≤◌, ◌+◌, List, OnOk, Contains};
ghost use Rattle.std.specs.List.{AllByRecursion, Any};
ghost use Rattle.clog_spec.specs.Sizes.{most_tables};
ghost use Rattle.clog_base.specs.declared.cell.Cell.{Cell};
ghost use Rattle.clog_base.specs.declared.cell.CellKey.{CellKey};
ghost use Rattle.clog_cells.specs.Merge.{part_on};
ghost use Rattle.clog_disk.specs.Files.{Files, SameTold};
ghost use Rattle.clog_disk.specs.Images.{IsLater, LeavesOnly};
ghost use Rattle.clog_table.specs.Limits.{IsSized, IsWithinLimits};
ghost use Rattle.clog_crash.specs.Flush.{IsSameFolder};
ghost use Rattle.clog_segments.specs.Filing.{
  FiledBy,
  FiledNow,
  IsReady,
  LeavesFrom,
  PutsTable,
  PutsTables,
  SettledTo,
  StaysFrom,
  StepCause,
};
ghost use Rattle.clog_segments.specs.Named.{IsLateTable};

use crate::naming::next_sequence;
use crate::recovering::put_recovered;
use clog_base::{MOST_TABLES, Name, Position, Table};
use clog_cells::CellMap;
use clog_disk::Disk;
use clog_folder::{OpenFault, fault_of};
use clog_table::encode_parts;
use std::alloc::Global;

/// Puts the file of a table that has these cells, if there are any.
fn put_table_of<D: Disk>(
    alloc: Global,
    disk: &mut D,
    table: Table,
    names: &[Name],
    part: &CellMap,
    top: Position,
) -> Result<(), OpenFault>
    requires table { table.0 < most_tables }
    requires few { ¬ Any IsLateTable names.now }
    requires cells { AllByRecursion (IsWithinLimits table) part.now }
    ensures told { SameTold (D.files disk.old) (D.files disk.new) }
    ensures later { IsLater D.moment D.read_at D.lasted_at disk.old disk.new }
    ensures no_fewer { D.faults disk.old ≤ D.faults disk.new }
    ensures cause { StepCause (D.faults disk.old) (D.faults disk.new) result }
    ensures puts { (first : Files) (cells : List (CellKey × Cell)) → part.now ≡ part_on table cells
        → IsReady first names.now cells top → FiledNow first cells table.0 (D.files disk.old)
        → PutsTable first cells table.0 (D.changes disk.old) (D.changes disk.new) result }
    ensures files { (first : Files) (cells : List (CellKey × Cell)) → part.now ≡ part_on table cells
        → IsReady first names.now cells top → FiledNow first cells table.0 (D.files disk.old)
        → FiledBy first cells (table.0 + 1) (D.files disk.new) result }
    ensures settles { (first : Files) (cells : List (CellKey × Cell))
        → part.now ≡ part_on table cells → IsReady first names.now cells top
        → SettledTo first cells table.0 (D.files disk.old) (D.leaves disk.old)
        → OnOk result
        (SettledTo first cells (table.0 + 1) (D.files disk.new) (D.leaves disk.new)) }
    ensures any_moment { (first : Files) (cells : List (CellKey × Cell))
        → part.now ≡ part_on table cells → IsReady first names.now cells top
        → SettledTo first cells table.0 (D.files disk.old) (D.leaves disk.old)
        → LeavesOnly D.moment D.since disk.old disk.new (IsSameFolder first) }
    ensures from { (first : Files) (cells : List (CellKey × Cell)) → part.now ≡ part_on table cells
        → IsReady first names.now cells top → FiledNow first cells table.0 (D.files disk.old)
        → LeavesFrom first (D.leaves disk.old)
        → StaysFrom D.moment D.since D.leaves first disk.old disk.new }
{
    if part.len() == 0 {
        return Ok(());
    }
    let start = Position { id: 0, offset: 0 };
    let bytes = encode_parts(alloc, table, start, top, part)?;
    // A match in place of `?`, since the exit speaks of the table.
    match put_recovered(disk, table, next_sequence(names, table), &bytes) {
        Ok(()) => Ok(()),
        Err(fault) => Err(fault_of(fault)),
    }
}

/// Puts a file for each table that has cells which the log restores, in the order of tables. The
/// cells of a table are let go once its file is put.
pub(crate) fn put_tables<D: Disk>(
    alloc: Global,
    disk: &mut D,
    names: &[Name],
    cells: CellMap,
    top: Position,
) -> Result<(), OpenFault>
    requires few { ¬ Any IsLateTable names.now }
    requires sized { (pair : CellKey × Cell) → Contains cells pair → IsSized pair }
    ensures told { SameTold (D.files disk.old) (D.files disk.new) }
    ensures later { IsLater D.moment D.read_at D.lasted_at disk.old disk.new }
    ensures no_fewer { D.faults disk.old ≤ D.faults disk.new }
    ensures cause { StepCause (D.faults disk.old) (D.faults disk.new) result }
    ensures puts { (first : Files) → IsReady first names.now cells top
        → FiledNow first cells 0 (D.files disk.old)
        → PutsTables first cells most_tables (D.changes disk.old) (D.changes disk.new) result }
    ensures files { (first : Files) → IsReady first names.now cells top
        → FiledNow first cells 0 (D.files disk.old)
        → FiledBy first cells most_tables (D.files disk.new) result }
    ensures settles { (first : Files) → IsReady first names.now cells top
        → SettledTo first cells 0 (D.files disk.old) (D.leaves disk.old)
        → OnOk result
        (SettledTo first cells most_tables (D.files disk.new) (D.leaves disk.new)) }
    ensures any_moment { (first : Files) → IsReady first names.now cells top
        → SettledTo first cells 0 (D.files disk.old) (D.leaves disk.old)
        → LeavesOnly D.moment D.since disk.old disk.new (IsSameFolder first) }
    ensures from { (first : Files) → IsReady first names.now cells top
        → FiledNow first cells 0 (D.files disk.old) → LeavesFrom first (D.leaves disk.old)
        → StaysFrom D.moment D.since D.leaves first disk.old disk.new }
{
    let mut rest = cells;
    for number in 0..MOST_TABLES {
        // Matches in place of `?`, since the exits speak of the table.
        let part = match rest.take_below(Table(number + 1)) {
            Ok(part) => part,
            Err(_) => return Err(OpenFault::OutOfMemory),
        };
        match put_table_of(alloc, disk, Table(number), names, &part, top) {
            Ok(()) => {}
            Err(fault) => return Err(fault),
        }
    }
    Ok(())
}
