//! A map is parted at a table: its cells stand table by table, so the lower tables come first.
ghost use Rattle.std.specs.Prelude.{◌≡◌, [], IfOk, OnOk, OnErr};
ghost use Rattle.clog_cells.specs.Merge.{IsCellMap};
ghost use Rattle.clog_cells.specs.Parted.{part_below, part_from};

use clog_base::{Cell, CellKey, OutOfMemory, Table, Text};
use std::alloc::Global;
use std::collections::BTreeMap;
use std::mem;

/// A key that stands in front of all cells of a table, and behind those of lower ones.
fn front_of(alloc: Global, table: Table) -> CellKey
    ensures table { result.table ≡ table }
    ensures key { result.key ≡ [] }
    ensures column { result.column ≡ [] }
{
    CellKey {
        table,
        key: Text::new(String::new(alloc)),
        column: Text::new(String::new(alloc)),
    }
}

/// Moves the cells of the tables below a number off, into a map of their own. For want of memory
/// the map is as it was.
pub(crate) fn take_below(
    alloc: Global,
    cells: &mut BTreeMap<CellKey, Cell>,
    table: Table,
) -> Result<BTreeMap<CellKey, Cell>, OutOfMemory>
    requires { IsCellMap cells.old.entries }
    ensures taken { IfOk result (λ below. below.entries ≡ part_below table.0 cells.old.entries) }
    ensures rest { OnOk result (cells.new.entries ≡ part_from table.0 cells.old.entries) }
    ensures unchanged { OnErr result (cells.new.entries ≡ cells.old.entries) }
    ensures map { IsCellMap cells.new.entries }
    ensures taken_map { IfOk result (λ below. IsCellMap below.entries) }
{
    let front = front_of(alloc, table);
    match cells.split_off(&front) {
        Ok(rest) => Ok(mem::replace(cells, rest)),
        Err(_) => Err(OutOfMemory),
    }
}
