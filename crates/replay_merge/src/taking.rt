//! The updates of a mutation are merged at its position.
ghost use Rattle.std.specs.Prelude.{OnOk, map};
ghost use Rattle.clog_mutation.specs.Lent.{mutation_lent, update_lent};
ghost use Rattle.replay_merge.specs.Merged.{Takes, keyed};

use crate::merged::{Merged, take_update};
use clog_base::{OutOfMemory, Position};
use clog_folder::TableHeld;
use clog_mutation::{LentMutation, LentUpdate};
use std::alloc::Global;

/// Takes in updates of a key at a position.
fn take_updates(
    alloc: Global,
    tables: &[TableHeld],
    merged: &mut Merged,
    at: Position,
    key: &str,
    updates: &[LentUpdate<'_>],
) -> Result<(), OutOfMemory>
    ensures { OnOk result (Takes tables.now (map (keyed at key.now) (map update_lent updates.now))
        merged.old merged.new) }
{
    for update in updates {
        take_update(alloc, tables, merged, at, key, update)?;
    }
    Ok(())
}

/// Takes in the updates of a mutation at its position.
pub(crate) fn take_mutation(
    alloc: Global,
    tables: &[TableHeld],
    merged: &mut Merged,
    at: Position,
    mutation: &LentMutation<'_>,
) -> Result<(), OutOfMemory>
    ensures { OnOk result (Takes tables.now (map (keyed at (mutation_lent mutation.now).key)
        (mutation_lent mutation.now).updates) merged.old merged.new) }
{
    let key = mutation.key;
    take_update(alloc, tables, merged, at, key, &mutation.first)?;
    take_updates(alloc, tables, merged, at, key, mutation.more.as_slice())?;
    Ok(())
}
