//! Cells by their keys, the newest of each. A map holds each key once, in ascending order of table,
//! key bytes and column bytes, and at most 4294967295 cells; contracts see it as its list of pairs.
ghost use Rattle.std.specs.Prelude.{
  ◌≡◌,
  ◌<◌,
  ◌^◌,
  [],
  ◌∷◌,
  ◌++◌,
  ◌+◌,
  ◌⊎◌,
  length,
  IsSome,
  IfSome,
  true,
  OnOk,
  OnErr,
  IfOk,
  IfErr,
};
ghost use Rattle.clog_cells.specs.Merge.{
  is_newer,
  found_at,
  IsMerge,
  MergesPart,
  IsCellMap,
};
ghost use Rattle.clog_cells.specs.Parted.{part_below, part_from};

mod lending;

use crate::bulk::map_of;
use crate::newest::newer;
use crate::parting::take_below;
use clog_base::{Cell, CellKey, OutOfMemory, Table, Text};
pub use lending::LentCell;
use lending::{copy_of_cell, copy_of_key};
use std::alloc::{AllocFailed, Global};
use std::collections::BTreeMap;
use std::marker::Model;
use std::mem;

/// The greatest number of cells of a map.
pub(crate) const MAX_CELLS: usize = 4_294_967_295;

/// The newest cell of each key.
#[derive(Drop)]
pub struct CellMap {
    alloc: Global,
    cells: BTreeMap<CellKey, Cell>,
}

impl Model for CellMap {
    ghost use Rattle.std.specs.Prelude.{List};
    ghost use Rattle.clog_base.specs.declared.cell.Cell.{Cell};
    ghost use Rattle.clog_base.specs.declared.cell.CellKey.{CellKey};
    ghost use Rattle.clog_cells.specs.Merge.{IsCellMap};

    ghost Value = { List (CellKey × Cell) };

    ghost view = { λ m. m.cells.entries };

    ghost invariant = { λ m. IsCellMap m.cells.entries };
}

impl CellMap {
    /// A map with no cells.
    pub fn new(alloc: Global) -> CellMap
        ensures { result ≡ [] }
    {
        CellMap {
            alloc,
            cells: BTreeMap::new(alloc),
        }
    }

    /// The newest cell of each key among these pairs, in whatever order they come. Want of memory
    /// is answered also where there would be more than 4294967295 cells; a refusal leaves no pair.
    pub fn of_pairs(alloc: Global, pairs: Vec<(CellKey, Cell)>) -> Result<CellMap, OutOfMemory>
        ensures { IfOk result (IsMerge pairs.items) }
    {
        let cells = map_of(alloc, pairs)?;
        Ok(CellMap { alloc, cells })
    }

    /// The number of cells.
    pub fn len(&self) -> usize
        ensures len { result ≡ length self.now }
        ensures map { IsCellMap self.now }
    {
        self.cells.len()
    }

    /// Merges one cell: it is kept where it is newer than its key's, or the first of its key. The
    /// pair comes back for want of memory, also where it would be one cell more than 4294967295;
    /// the map is then as it was.
    pub fn put(&mut self, key: CellKey, cell: Cell) -> Result<(), (CellKey, Cell)>
        ensures merged { OnOk result (IsMerge (self.old ++ (key, cell) ∷ []) self.new) }
        ensures returned { IfErr result (λ pair. pair ≡ (key, cell)) }
        ensures unchanged { OnErr result (self.new ≡ self.old) }
    {
        put(&mut self.cells, key, cell)
    }

    /// Moves the cells of another map in. After a refusal the map is its old content merged with a
    /// first part of the other, and what is left of the other is dropped: who has to hand all back
    /// puts pair by pair, since `put` gives its pair back.
    pub fn merge(&mut self, other: CellMap) -> Result<(), OutOfMemory>
        ensures merged { OnOk result (IsMerge (self.old ++ other) self.new) }
        ensures part { OnErr result (MergesPart self.old other self.new) }
    {
        merge(&mut self.cells, other.cells)
    }

    /// Merges with another map, by moving the cells of the one that has fewer. After a refusal the
    /// map has the cells of the other one, and a part of those that were to be moved; the rest is
    /// gone.
    pub fn join(&mut self, other: CellMap) -> Result<(), OutOfMemory>
        ensures { OnOk result (IsMerge (self.old ++ other) self.new) }
    {
        if self.len() < other.len() {
            let fewer = mem::replace(self, other);
            return self.merge(fewer);
        }
        self.merge(other)
    }

    /// Moves the cells of all tables below a number off, into a map of their own. After a refusal
    /// the map is as it was.
    pub fn take_below(&mut self, table: Table) -> Result<CellMap, OutOfMemory>
        ensures taken { IfOk result (λ below. below ≡ part_below table.0 self.old) }
        ensures rest { OnOk result (self.new ≡ part_from table.0 self.old) }
        ensures unchanged { OnErr result (self.new ≡ self.old) }
    {
        let cells = take_below(self.alloc, &mut self.cells, table)?;
        Ok(CellMap {
            alloc: self.alloc,
            cells,
        })
    }

    /// A map with copies of the same cells.
    pub fn copy(&self) -> Result<CellMap, OutOfMemory>
        ensures { IfOk result (λ copy. copy ≡ self.now) }
    {
        let cells = copy_of_all(self.alloc, &self.cells)?;
        Ok(CellMap {
            alloc: self.alloc,
            cells,
        })
    }

    /// A copy of the pairs, ascending.
    pub fn rows(&self) -> Result<Vec<(CellKey, Cell)>, OutOfMemory>
        ensures rows { IfOk result (λ rows. rows.items ≡ self.now) }
        ensures map { IsCellMap self.now }
    {
        rows_of(self.alloc, &self.cells)
    }

    /// The cells by their keys, ascending; nothing is copied.
    pub fn entries(&self) -> &BTreeMap<CellKey, Cell>
        ensures entries { result.now.entries ≡ self.now }
        ensures map { IsCellMap self.now }
    {
        &self.cells
    }
}

/// Puts a cell that is newer than its key's, or the first of its key.
fn insert(
    cells: &mut BTreeMap<CellKey, Cell>,
    key: CellKey,
    cell: Cell,
) -> Result<(), (CellKey, Cell)>
    requires map { IsCellMap cells.old.entries }
    requires newer { IfSome (found_at cells.old.entries key) (λ found. is_newer cell found ≡ true) }
    requires room { IsSome (found_at cells.old.entries key)
        ⊎ (length cells.old.entries + 1 < 2 ^ 32) }
    ensures merged { OnOk result
        (IsMerge (cells.old.entries ++ (key, cell) ∷ []) cells.new.entries) }
    ensures returned { IfErr result (λ pair. pair ≡ (key, cell)) }
    ensures unchanged { OnErr result (cells.new.entries ≡ cells.old.entries) }
    ensures map { IsCellMap cells.new.entries }
{
    match cells.insert(key, cell) {
        Ok(_) => Ok(()),
        Err(AllocFailed { value }) => Err(value),
    }
}

// Merges one cell, as `CellMap::put`.
fn put(cells: &mut BTreeMap<CellKey, Cell>, key: CellKey, cell: Cell) -> Result<(), (CellKey, Cell)>
    requires { IsCellMap cells.old.entries }
    ensures merged { OnOk result
        (IsMerge (cells.old.entries ++ (key, cell) ∷ []) cells.new.entries) }
    ensures returned { IfErr result (λ pair. pair ≡ (key, cell)) }
    ensures unchanged { OnErr result (cells.new.entries ≡ cells.old.entries) }
    ensures map { IsCellMap cells.new.entries }
{
    match cells.get(&key) {
        Some(found) => {
            if newer(&cell, found) {
                insert(cells, key, cell)
            } else {
                Ok(())
            }
        }
        None => {
            if cells.len() < MAX_CELLS {
                insert(cells, key, cell)
            } else {
                Err((key, cell))
            }
        }
    }
}

fn merge(
    cells: &mut BTreeMap<CellKey, Cell>,
    others: BTreeMap<CellKey, Cell>,
) -> Result<(), OutOfMemory>
    requires { IsCellMap cells.old.entries }
    ensures merged { OnOk result (IsMerge (cells.old.entries ++ others.entries) cells.new.entries) }
    ensures part { OnErr result (MergesPart cells.old.entries others.entries cells.new.entries) }
    ensures map { IsCellMap cells.new.entries }
{
    for (key, cell) in others {
        let Ok(()) = put(cells, key, cell) else {
            return Err(OutOfMemory);
        };
    }
    Ok(())
}

fn copy_of(alloc: Global, key: &CellKey, cell: &Cell) -> Result<(CellKey, Cell), OutOfMemory>
    ensures { IfOk result (λ pair. pair ≡ (key.now, cell.now)) }
{
    let lent = LentCell {
        ts: cell.ts,
        kind: cell.kind,
        value: cell.value.as_str(),
    };
    Ok((copy_of_key(alloc, key)?, copy_of_cell(alloc, lent)?))
}

fn copy_of_all(
    alloc: Global,
    cells: &BTreeMap<CellKey, Cell>,
) -> Result<BTreeMap<CellKey, Cell>, OutOfMemory>
    requires { IsCellMap cells.now.entries }
    ensures { IfOk result (λ copy. copy.entries ≡ cells.now.entries) }
{
    let mut copies = BTreeMap::new(alloc);
    for (key, cell) in cells {
        let (key, cell) = copy_of(alloc, key, cell)?;
        let Ok(()) = put(&mut copies, key, cell) else {
            return Err(OutOfMemory);
        };
    }
    Ok(copies)
}

fn rows_of(
    alloc: Global,
    cells: &BTreeMap<CellKey, Cell>,
) -> Result<Vec<(CellKey, Cell)>, OutOfMemory>
    ensures { IfOk result (λ rows. rows.items ≡ cells.now.entries) }
{
    let mut rows = Vec::with_capacity(alloc, cells.len())?;
    for (key, cell) in cells {
        rows.push(copy_of(alloc, key, cell)?)?;
    }
    Ok(rows)
}
