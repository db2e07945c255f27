//! Cells that come one by one: the first ones wait in a list, and a full list is made a map at once
//! (`CellMap::of_pairs`), which compares fewer keys. What comes behind a full list is put into the
//! map, so the memory of many cells of few keys is that of one list.
ghost use Rattle.std.specs.Prelude.{[], ◌∷◌, OnOk, IfOk, List};
ghost use Rattle.clog_base.specs.declared.cell.Cell.{Cell};
ghost use Rattle.clog_base.specs.declared.cell.CellKey.{CellKey};
ghost use Rattle.clog_cells.specs.Batches.{Adds, WerePut};
ghost use Rattle.clog_cells.specs.Merge.{IsMerge};

use crate::cell_map::CellMap;
use clog_base::{Cell, CellKey, OutOfMemory};
use std::alloc::Global;
use std::mem;

// The greatest number of cells that wait.
const MOST_WAITING: usize = 65_536;

/// Cells that are merged, the first of them all at once. After a refusal some of them are gone.
#[derive(Drop)]
pub struct CellBatches {
    alloc: Global,
    merged: CellMap,
    waiting: Vec<(CellKey, Cell)>,
}

impl CellBatches {
    /// No cells yet.
    pub fn new(alloc: Global) -> CellBatches
        ensures { WerePut [] result }
    {
        CellBatches {
            alloc,
            merged: CellMap::new(alloc),
            waiting: Vec::new(alloc),
        }
    }

    // Merges the cells that wait.
    fn merge_waiting(&mut self) -> Result<(), OutOfMemory>
        ensures { OnOk result (Adds [] self.old self.new) }
    {
        let first = mem::replace(&mut self.waiting, Vec::new(self.alloc));
        let batch = CellMap::of_pairs(self.alloc, first)?;
        self.merged.join(batch)
    }

    // The same, if they are as many as may wait.
    fn merge_if_full(&mut self) -> Result<(), OutOfMemory>
        ensures { OnOk result (Adds [] self.old self.new) }
    {
        if self.waiting.len() < MOST_WAITING {
            return Ok(());
        }
        self.merge_waiting()
    }

    // A cell waits.
    fn keep_waiting(&mut self, key: CellKey, cell: Cell) -> Result<(), OutOfMemory>
        ensures { OnOk result (Adds ((key, cell) ∷ []) self.old self.new) }
    {
        self.merge_if_full()?;
        self.waiting.push((key, cell))?;
        Ok(())
    }

    /// Puts a cell.
    pub fn put(&mut self, key: CellKey, cell: Cell) -> Result<(), OutOfMemory>
        ensures { OnOk result (Adds ((key, cell) ∷ []) self.old self.new) }
    {
        if self.merged.len() == 0 {
            return self.keep_waiting(key, cell);
        }
        let Ok(()) = self.merged.put(key, cell) else {
            return Err(OutOfMemory);
        };
        Ok(())
    }

    /// The newest cell of each key of those that were put.
    pub fn into_map(self) -> Result<CellMap, OutOfMemory>
        ensures { (cells : List (CellKey × Cell)) → WerePut cells self
            → IfOk result (IsMerge cells) }
    {
        let CellBatches {
            alloc,
            merged,
            waiting,
        } = self;
        let mut merged = merged;
        let batch = CellMap::of_pairs(alloc, waiting)?;
        merged.join(batch)?;
        Ok(merged)
    }
}
