//! Writing a table file. What is written is the one spelling of a file that can be read back.
ghost use Rattle.std.specs.Prelude.{◌≡◌, ◌++◌, OnOk, IfOk};
ghost use Rattle.std.specs.List.{AllByRecursion};
ghost use Rattle.clog_base.specs.declared.cell.Table.{Table as Table_of};
ghost use Rattle.clog_table.specs.Limits.{
  IsSized,
  IsWithinLimits,
  IsWritable,
  IsStoredCell,
  IsStoredPosition,
};
ghost use Rattle.clog_table.specs.Heads.{IsStoredHead};
ghost use Rattle.clog_table.specs.Refusals.{IsFileOf};
ghost use Rattle.clog_table.specs.Format.{
  cell_bytes,
  cells_bytes,
  position_bytes,
  head_front,
  file_of,
};

use crate::check::put_check;
use crate::head::{HEAD_SIZE, Head};
use crate::table_file::TableFile;
use clog_base::{Cell, CellKey, OutOfMemory, Position, Table};
use clog_cells::CellMap;
use clog_fields::{put_name, put_timestamp, put_value};
use std::alloc::Global;
use std::collections::BTreeMap;

fn put_cell(out: &mut Vec<u8>, key: &CellKey, cell: &Cell) -> Result<(), OutOfMemory>
    requires { IsSized (key.now, cell.now) }
    ensures bytes { OnOk result (out.new.items ≡ out.old.items ++ cell_bytes (key.now, cell.now)) }
    // It can be read back from a file of any table that it is of.
    ensures stored { (table : Table_of) → IsWithinLimits table (key.now, cell.now)
        → OnOk result (IsStoredCell table (key.now, cell.now)) }
{
    put_name(out, &key.key)?;
    put_name(out, &key.column)?;
    put_timestamp(out, cell.ts)?;
    put_value(out, cell.kind, &cell.value)
}

fn put_cells(
    out: &mut Vec<u8>,
    table: Table,
    cells: &BTreeMap<CellKey, Cell>,
) -> Result<(), OutOfMemory>
    requires { AllByRecursion (IsWithinLimits table) cells.now.entries }
    ensures bytes { OnOk result (out.new.items ≡ out.old.items ++ cells_bytes cells.now.entries) }
    ensures stored { OnOk result (AllByRecursion (IsStoredCell table) cells.now.entries) }
{
    for (key, cell) in cells {
        put_cell(out, key, cell)?;
    }
    Ok(())
}

fn put_position(out: &mut Vec<u8>, at: Position) -> Result<(), OutOfMemory>
    ensures bytes { OnOk result (out.new.items ≡ out.old.items ++ position_bytes at) }
    ensures stored { IsStoredPosition at }
{
    out.extend_from_slice(&at.id.to_be_bytes())?;
    Ok(out.extend_from_slice(&at.offset.to_be_bytes())?)
}

fn put_front(out: &mut Vec<u8>, head: Head) -> Result<(), OutOfMemory>
    ensures bytes { OnOk result (out.new.items ≡ out.old.items ++ head_front head) }
    ensures stored { OnOk result (IsStoredHead head) }
{
    out.extend_from_slice(&1u32.to_be_bytes())?;
    out.push(head.table.0)?;
    put_position(out, head.lower)?;
    put_position(out, head.upper)?;
    out.extend_from_slice(&head.count.to_be_bytes())?;
    Ok(())
}

/// The table file of an interval and cells that stay where they are.
pub fn encode_parts(
    alloc: Global,
    table: Table,
    lower: Position,
    upper: Position,
    cells: &CellMap,
) -> Result<Vec<u8>, OutOfMemory>
    requires { IsWritable (file_of table lower upper cells.now) }
    ensures { IfOk result (λ bytes.
        IsFileOf table bytes.items (file_of table lower upper cells.now)) }
{
    let head = Head {
        table,
        lower,
        upper,
        count: cells.len() as u32,
    };
    let mut out = Vec::new(alloc);
    put_front(&mut out, head)?;
    put_check(&mut out, 0)?;
    put_cells(&mut out, table, cells.entries())?;
    put_check(&mut out, HEAD_SIZE)?;
    Ok(out)
}

/// The one spelling of a table file. It is what `decode` reads back.
pub fn encode(alloc: Global, file: &TableFile) -> Result<Vec<u8>, OutOfMemory>
    requires { IsWritable file.now }
    ensures { IfOk result (λ bytes. IsFileOf file.now.table bytes.items file.now) }
{
    encode_parts(alloc, file.table, file.lower, file.upper, &file.cells)
}
