//! The cells that lent mutations merge to: copies of theirs, since the mutations go on to their
//! writers.
ghost use Rattle.std.specs.Prelude.{◌≡◌, [], ◌∷◌, map, OnOk, IfOk};
ghost use Rattle.std.specs.List.{flat_map};
ghost use Rattle.clog_cells.specs.Batches.{Adds};
ghost use Rattle.clog_cells.specs.Merge.{IsMerge};
ghost use Rattle.clog_mutation.specs.Payload.{pair_of, cells_of};

use clog_base::{Cell, CellKey, OutOfMemory, Text};
use clog_cells::{CellBatches, CellMap};
use clog_mutation::{Mutation, Update};
use std::alloc::Global;

// A copy of an update's cell, under its key.
fn copy_of(alloc: Global, key: &Text, update: &Update) -> Result<(CellKey, Cell), OutOfMemory>
    ensures { IfOk result (λ pair. pair ≡ pair_of key.now update.now) }
{
    let key = CellKey {
        table: update.table,
        key: Text::copy_of(alloc, key.as_str())?,
        column: Text::copy_of(alloc, update.column.as_str())?,
    };
    let cell = Cell {
        ts: update.cell.ts,
        kind: update.cell.kind,
        value: Text::copy_of(alloc, update.cell.value.as_str())?,
    };
    Ok((key, cell))
}

// Puts a copy of what one update says behind other cells.
fn put_copy(
    alloc: Global,
    cells: &mut CellBatches,
    key: &Text,
    update: &Update,
) -> Result<(), OutOfMemory>
    ensures { OnOk result (Adds (pair_of key.now update.now ∷ []) cells.old cells.new) }
{
    let (key, cell) = copy_of(alloc, key, update)?;
    cells.put(key, cell)
}

// Puts copies of what updates say.
fn put_copies(
    alloc: Global,
    cells: &mut CellBatches,
    key: &Text,
    updates: &[Update],
) -> Result<(), OutOfMemory>
    ensures { OnOk result (Adds (map (pair_of key.now) updates.now) cells.old cells.new) }
{
    for update in updates {
        put_copy(alloc, cells, key, update)?;
    }
    Ok(())
}

/// The cells of lent mutations, merged.
pub(crate) fn copies_of(alloc: Global, mutations: &[Mutation]) -> Result<CellMap, OutOfMemory>
    ensures { IfOk result (λ rows. IsMerge (flat_map cells_of mutations.now) rows) }
{
    let mut cells = CellBatches::new(alloc);
    for mutation in mutations {
        put_copies(
            alloc,
            &mut cells,
            &mutation.key,
            mutation.updates.as_slice(),
        )?;
    }
    cells.into_map()
}
