//! A cell that is lent is merged: it is copied only where it is newer than its key's, or the first
//! of its key.
ghost use Rattle.std.specs.Prelude.{◌≡◌, [], ◌∷◌, ◌++◌, IfOk, None, OnErr, OnOk, if◌then◌else◌};
ghost use Rattle.clog_cells.specs.Lent.{cell_lent};
ghost use Rattle.clog_cells.specs.Merge.{IsCellMap, IsMerge, found_at, is_newer};

use super::{CellMap, MAX_CELLS, insert};
use crate::newest::kind_rank;
use clog_base::{Cell, CellKey, Kind, OutOfMemory, Text};
use std::alloc::Global;
use std::cmp::Ordering;
use std::collections::BTreeMap;

/// A cell whose value is borrowed.
#[derive(Clone, Copy)]
pub struct LentCell<'a> {
    /// The timestamp that its writer gave it.
    pub ts: i64,
    /// Whether it is deleted or lives.
    pub kind: Kind,
    /// The value of a live cell; no bytes at a deletion.
    pub value: &'a str,
}

// As `newer`, of a cell that is lent.
fn lent_newer(lent: LentCell<'_>, found: &Cell) -> bool
    ensures { result ≡ is_newer (cell_lent lent.entry) found.now }
{
    let order = lent
        .ts
        .cmp(&found.ts)
        .then(kind_rank(lent.kind).cmp(&kind_rank(found.kind)))
        .then(lent.value.cmp(found.value.as_str()));
    order == Ordering::Greater
}

// A cell of its own.
pub(super) fn copy_of_cell(alloc: Global, cell: LentCell<'_>) -> Result<Cell, OutOfMemory>
    ensures { IfOk result (λ copy. copy ≡ cell_lent cell.entry) }
{
    Ok(Cell {
        ts: cell.ts,
        kind: cell.kind,
        value: Text::copy_of(alloc, cell.value)?,
    })
}

// A key of its own.
pub(super) fn copy_of_key(alloc: Global, key: &CellKey) -> Result<CellKey, OutOfMemory>
    ensures { IfOk result (λ copy. copy ≡ key.now) }
{
    Ok(CellKey {
        table: key.table,
        key: Text::copy_of(alloc, key.key.as_str())?,
        column: Text::copy_of(alloc, key.column.as_str())?,
    })
}

// Puts a copy in the place of a cell that is not newer.
fn renew(alloc: Global, found: &mut Cell, cell: LentCell<'_>) -> Result<(), OutOfMemory>
    ensures renewed { OnOk result
        (found.new ≡ (if is_newer (cell_lent cell.entry) found.old then cell_lent cell.entry
        else found.old)) }
    ensures unchanged { OnErr result (found.new ≡ found.old) }
{
    if !lent_newer(cell, found) {
        return Ok(());
    }
    *found = copy_of_cell(alloc, cell)?;
    Ok(())
}

fn put_first(
    alloc: Global,
    cells: &mut BTreeMap<CellKey, Cell>,
    key: &CellKey,
    cell: LentCell<'_>,
) -> Result<(), OutOfMemory>
    requires map { IsCellMap cells.old.entries }
    requires none { found_at cells.old.entries key.now ≡ None }
    ensures merged { OnOk result
        (IsMerge (cells.old.entries ++ (key.now, cell_lent cell.entry) ∷ []) cells.new.entries) }
    ensures unchanged { OnErr result (cells.new.entries ≡ cells.old.entries) }
    ensures map { IsCellMap cells.new.entries }
{
    if cells.len() >= MAX_CELLS {
        return Err(OutOfMemory);
    }
    let (key, cell) = (copy_of_key(alloc, key)?, copy_of_cell(alloc, cell)?);
    match insert(cells, key, cell) {
        Ok(()) => Ok(()),
        Err(_) => Err(OutOfMemory),
    }
}

fn put_lent(
    alloc: Global,
    cells: &mut BTreeMap<CellKey, Cell>,
    key: &CellKey,
    cell: LentCell<'_>,
) -> Result<(), OutOfMemory>
    requires { IsCellMap cells.old.entries }
    ensures merged { OnOk result
        (IsMerge (cells.old.entries ++ (key.now, cell_lent cell.entry) ∷ []) cells.new.entries) }
    ensures unchanged { OnErr result (cells.new.entries ≡ cells.old.entries) }
    ensures map { IsCellMap cells.new.entries }
{
    match cells.get_mut(key) {
        Some(found) => renew(alloc, found, cell),
        None => put_first(alloc, cells, key, cell),
    }
}

impl CellMap {
    /// Merges one cell as `put` does, and copies it, and its key, only where it is kept. After a
    /// refusal the map is as it was.
    pub fn put_lent(&mut self, key: &CellKey, cell: LentCell<'_>) -> Result<(), OutOfMemory>
        ensures merged { OnOk result
            (IsMerge (self.old ++ (key.now, cell_lent cell.entry) ∷ []) self.new) }
        ensures unchanged { OnErr result (self.new ≡ self.old) }
    {
        put_lent(self.alloc, &mut self.cells, key, cell)
    }
}
