//! Reading a table file: its head, then cell by cell, then the check. The cells read so far, in a
//! map, are the front of the file's cells, in order; the rest of the bytes stands behind them.
ghost use Rattle.std.specs.Prelude.{◌≡◌, ◌≢◌, ◌≤◌, ◌↔◌, ◌+◌, length, [], ◌∷◌, ◌++◌};
ghost use Rattle.std.specs.Prelude.{IsTrue, IfOk, OnOk};
ghost use Rattle.std.specs.Ordering.{is_lt};
ghost use Rattle.clog_cells.specs.Merge.{AreInOrder, key_cmp};
ghost use Rattle.clog_table.specs.RawFields.{fields_of, key_of, cell_of};
ghost use Rattle.clog_table.specs.Format.{head_size, behind_head};
ghost use Rattle.clog_table.specs.Cells.{IsAbove};
ghost use Rattle.clog_table.specs.declared.table_file.TableFile.{TableFile as File};
ghost use Rattle.clog_table.specs.declared.fault.TableFault.{TableFault as Fault};
ghost use Rattle.clog_table.specs.declared.fault.TableFault.TheVariants.{OutOfMemory as no_memory};
ghost use Rattle.clog_table.specs.Limits.{IsWritable};
ghost use Rattle.clog_fields.specs.Refusals.{place};
ghost use Rattle.clog_table.specs.Refusals.{
  Decodes,
  IsFileOf,
  IsUnlessMemory,
  IsFaultUnlessMemory,
  Refuses,
  CellsGive,
  TakesCell,
  EndGives,
  cells_text,
};

use crate::check::is_check_of;
use crate::fault::TableFault;
use crate::head::{HEAD_SIZE, Head, head_of};
use crate::raw_cell::{self, RawCell};
use crate::table_file::TableFile;
use clog_base::{Cell, CellKey, OutOfMemory, Table, Text};
use clog_cells::CellMap;
use std::alloc::Global;
use std::cmp::Ordering;
use std::collections::BTreeMap;

/// The table file whose one spelling these bytes are, or the first rule of the format that they
/// break, in the order of the format.
pub fn decode(alloc: Global, bytes: &[u8], table: Table) -> Result<TableFile, TableFault>
    ensures exact { Decodes table bytes.now result }
    // The spelling of a file decodes to that file and to no other.
    ensures again { (file : File) → IsFileOf table bytes.now file → IsUnlessMemory file result }
    // What breaks a rule first is refused for it, unless memory runs out before.
    ensures refuses { (fault : Fault) → Refuses table bytes.now fault → fault ≢ no_memory
        → IsFaultUnlessMemory fault result }
    ensures writable { IfOk result IsWritable }
{
    decoded(alloc, bytes, table)
}

fn decoded(alloc: Global, bytes: &[u8], table: Table) -> Result<TableFile, TableFault>
    ensures { Decodes table bytes.now result }
{
    let head = head_of(bytes, table)?;
    // A match in place of `?`, since the exit speaks of what was read.
    match cells_of(alloc, bytes, head) {
        Ok((cells, rest)) => match judge_end(bytes, rest) {
            Ok(()) => Ok(TableFile {
                table,
                lower: head.lower,
                upper: head.upper,
                cells,
            }),
            Err(fault) => Err(fault),
        },
        Err(fault) => Err(fault),
    }
}

fn cells_of(alloc: Global, bytes: &[u8], head: Head) -> Result<(CellMap, &[u8]), TableFault>
    requires { head_size ≤ length bytes.now }
    ensures { CellsGive bytes.now head.table head.count (behind_head bytes.now) result }
{
    let mut cells = CellMap::new(alloc);
    let mut rest = bytes.split_at(HEAD_SIZE).1;
    for _ in 0..head.count {
        let at = (bytes.len() - rest.len()) as u64;
        // A match in place of `?`, since the exit speaks of what was read.
        match take_cell(alloc, &mut cells, head.table, rest, at) {
            Ok(behind) => rest = behind,
            Err(fault) => return Err(fault),
        }
    }
    Ok((cells, rest))
}

fn is_before(a: &CellKey, b: &CellKey) -> bool
    ensures { result ≡ is_lt (key_cmp a.now b.now) }
{
    a.cmp(b) == Ordering::Less
}

/// Whether a key is above all of a map.
fn is_above(cells: &BTreeMap<CellKey, Cell>, key: &CellKey) -> bool
    ensures { IsTrue result ↔ IsAbove cells.now.entries key.now }
{
    match cells.last_key_value() {
        Some((last, _)) => is_before(last, key),
        None => true,
    }
}

fn key_of(alloc: Global, table: Table, raw: RawCell<'_>) -> Result<CellKey, OutOfMemory>
    ensures { IfOk result (λ key. key ≡ key_of table (fields_of raw.entry)) }
{
    Ok(CellKey {
        table,
        key: Text::copy_of(alloc, raw.key)?,
        column: Text::copy_of(alloc, raw.column)?,
    })
}

fn value_of(alloc: Global, raw: RawCell<'_>) -> Result<Cell, OutOfMemory>
    ensures { IfOk result (λ cell. cell ≡ cell_of (fields_of raw.entry)) }
{
    Ok(Cell {
        ts: raw.ts,
        kind: raw.kind,
        value: Text::copy_of(alloc, raw.value)?,
    })
}

/// Adds a cell whose key is above all others.
fn push(cells: &mut CellMap, key: CellKey, cell: Cell) -> Result<(), OutOfMemory>
    requires { AreInOrder (cells.old ++ (key, cell) ∷ []) }
    ensures { OnOk result (cells.new ≡ cells.old ++ (key, cell) ∷ []) }
{
    let Ok(()) = cells.put(key, cell) else {
        return Err(OutOfMemory);
    };
    Ok(())
}

/// Moves the cell at the front, which stands at an offset of the file, into the map.
fn take_cell<'a>(
    alloc: Global,
    cells: &mut CellMap,
    table: Table,
    bytes: &'a [u8],
    at: u64,
) -> Result<&'a [u8], TableFault>
    ensures { TakesCell table at cells.old cells.new bytes.now result }
{
    let Ok((raw, rest)) = raw_cell::cell(bytes) else {
        return Err(TableFault::Cell(at));
    };
    let key = key_of(alloc, table, raw)?;
    if !is_above(cells.entries(), &key) {
        return Err(TableFault::Order(at));
    }
    let cell = value_of(alloc, raw)?;
    push(cells, key, cell)?;
    Ok(rest)
}

/// Whether the check of the cells stands behind them, and nothing else. The rest is what stands
/// behind the cells.
pub(crate) fn judge_end(bytes: &[u8], rest: &[u8]) -> Result<(), TableFault>
    requires { head_size + length rest.now ≤ length bytes.now }
    ensures { EndGives (cells_text bytes.now rest.now) rest.now
        (place (length bytes.now) rest.now) result }
{
    if rest.len() < 4 {
        return Err(TableFault::Short);
    }
    let (front, _) = bytes.split_at(bytes.len() - rest.len());
    if !is_check_of(rest, front.split_at(HEAD_SIZE).1) {
        return Err(TableFault::CellsCheck);
    }
    if rest.len() > 4 {
        return Err(TableFault::Trailing(front.len() as u64 + 4));
    }
    Ok(())
}
