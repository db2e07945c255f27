//! The cells that an entry has of one table are put behind those of others, to be merged with them.
ghost use Rattle.std.specs.Prelude.{◌∷◌, [], OnOk, map};
ghost use Rattle.clog_cells.specs.Batches.{Adds};
ghost use Rattle.clog_cells.specs.Merge.{part_on};
ghost use Rattle.clog_mutation.specs.Payload.{cells_of, pair_of};
ghost use Rattle.path_core.specs.Whole.{IsWhole};

use clog_base::{CellKey, OutOfMemory, Table, Text};
use clog_cells::CellBatches;
use clog_entry::ENTRY_FRONT_SIZE;
use clog_mutation::{Mutation, Update, decode};
use path_core::EntryNote;
use std::alloc::Global;

// Puts what an update says under a key behind other cells.
fn put_under(cells: &mut CellBatches, key: Text, update: Update) -> Result<(), OutOfMemory>
    ensures { OnOk result (Adds (pair_of key update ∷ []) cells.old cells.new) }
{
    let Update {
        table,
        column,
        cell,
    } = update;
    cells.put(CellKey { table, key, column }, cell)
}

// Puts what an update says under a copy of a key, if it is of the table.
fn put_copied(
    alloc: Global,
    cells: &mut CellBatches,
    table: Table,
    key: &Text,
    update: Update,
) -> Result<(), OutOfMemory>
    ensures { OnOk result
        (Adds (part_on table (pair_of key.now update ∷ [])) cells.old cells.new) }
{
    if update.table.0 != table.0 {
        return Ok(());
    }
    put_under(cells, Text::copy_of(alloc, key.as_str())?, update)
}

// Puts what the last update says under the key itself, if it is of the table.
fn put_last(
    cells: &mut CellBatches,
    table: Table,
    key: Text,
    update: Update,
) -> Result<(), OutOfMemory>
    ensures { OnOk result (Adds (part_on table (pair_of key update ∷ [])) cells.old cells.new) }
{
    if update.table.0 != table.0 {
        return Ok(());
    }
    put_under(cells, key, update)
}

// Puts those of the updates under a key that are of the table.
fn put_updates(
    alloc: Global,
    cells: &mut CellBatches,
    table: Table,
    key: &Text,
    updates: Vec<Update>,
) -> Result<(), OutOfMemory>
    ensures { OnOk result
        (Adds (part_on table (map (pair_of key.now) updates.items)) cells.old cells.new) }
{
    for update in updates {
        put_copied(alloc, cells, table, key, update)?;
    }
    Ok(())
}

// Puts the cells of a mutation that are of the table. The last one takes the key itself, so that
// nothing is copied of a mutation of one update.
fn put_mutation(
    alloc: Global,
    cells: &mut CellBatches,
    table: Table,
    mutation: Mutation,
) -> Result<(), OutOfMemory>
    ensures { OnOk result (Adds (part_on table (cells_of mutation)) cells.old cells.new) }
{
    let Mutation { key, updates } = mutation;
    let mut updates = updates.into_vec();
    let Some(last) = updates.pop() else {
        return Ok(());
    };
    put_updates(alloc, cells, table, &key, updates)?;
    put_last(cells, table, key, last)
}

/// Puts the cells of an entry that are of the table behind others.
pub(crate) fn put_note(
    alloc: Global,
    cells: &mut CellBatches,
    table: Table,
    note: &EntryNote,
) -> Result<(), OutOfMemory>
    requires { IsWhole note.now }
    ensures { (whole : IsWhole note.now) → OnOk result
        (Adds (part_on table (cells_of whole.mutation)) cells.old cells.new) }
{
    let bytes = note.bytes.as_slice();
    let payload = &bytes[ENTRY_FRONT_SIZE..bytes.len() - 4];
    // A whole entry has a mutation, so only memory can be wanting.
    let Ok(mutation) = decode(alloc, payload) else {
        return Err(OutOfMemory);
    };
    put_mutation(alloc, cells, table, mutation)
}
