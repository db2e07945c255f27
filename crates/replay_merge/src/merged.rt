//! Updates are merged one by one, or counted where a table file stands for them.
ghost use Rattle.std.specs.Prelude.{◌≡◌, [], OnOk};
ghost use Rattle.clog_mutation.specs.Lent.{update_lent};
ghost use Rattle.clog_mutation.specs.Payload.{pair_of};
ghost use Rattle.replay_merge.specs.Merged.{IsJoin, IsKept, IsSkip, TakesOne, keyed};

use crate::skipping::is_filed;
use clog_base::{CellKey, OutOfMemory, Position, Table, Text};
use clog_cells::{CellMap, LentCell};
use clog_folder::TableHeld;
use clog_mutation::LentUpdate;
use std::alloc::Global;
use std::mem;

/// What updates merge to, and how many they were.
#[derive(Drop)]
pub struct Merged {
    /// The newest cell of each key.
    pub cells: CellMap,
    /// How many updates were merged.
    pub updates: u64,
    /// How many were not, since table files stand for them.
    pub skipped: u64,
    /// The key that was looked up last, whose memory is used again.
    pub(crate) sought: CellKey,
}

/// Fills a text anew, in the memory that it has.
fn fill(alloc: Global, text: &mut Text, with: &str) -> Result<(), OutOfMemory>
    ensures { OnOk result (text.new ≡ with.now) }
{
    let mut string = mem::replace(text, Text::new(String::new(alloc))).into_string();
    string.clear();
    string.push_str(with)?;
    *text = Text::new(string);
    Ok(())
}

/// Makes a key that of an update.
fn seek(
    alloc: Global,
    sought: &mut CellKey,
    key: &str,
    update: &LentUpdate<'_>,
) -> Result<(), OutOfMemory>
    ensures { OnOk result (sought.new ≡ (pair_of key.now (update_lent update.now)).0) }
{
    sought.table = update.table;
    fill(alloc, &mut sought.key, key)?;
    fill(alloc, &mut sought.column, update.column)
}

/// Counts an update as skipped.
fn skip(merged: &mut Merged) -> Result<(), OutOfMemory>
    ensures { OnOk result (IsSkip merged.old merged.new) }
{
    let Some(skipped) = merged.skipped.checked_add(1) else {
        return Err(OutOfMemory);
    };
    merged.skipped = skipped;
    Ok(())
}

/// Merges an update, and counts it.
fn keep(
    alloc: Global,
    merged: &mut Merged,
    key: &str,
    update: &LentUpdate<'_>,
) -> Result<(), OutOfMemory>
    ensures { OnOk result
        (IsKept (pair_of key.now (update_lent update.now)) merged.old merged.new) }
{
    let Some(updates) = merged.updates.checked_add(1) else {
        return Err(OutOfMemory);
    };
    seek(alloc, &mut merged.sought, key, update)?;
    let cell = LentCell {
        ts: update.ts,
        kind: update.kind,
        value: update.value,
    };
    merged.cells.put_lent(&merged.sought, cell)?;
    merged.updates = updates;
    Ok(())
}

/// Takes in an update at its position.
pub(crate) fn take_update(
    alloc: Global,
    tables: &[TableHeld],
    merged: &mut Merged,
    at: Position,
    key: &str,
    update: &LentUpdate<'_>,
) -> Result<(), OutOfMemory>
    ensures { OnOk result
        (TakesOne tables.now (keyed at key.now (update_lent update.now)) merged.old merged.new) }
{
    if is_filed(tables, update.table, at) {
        return skip(merged);
    }
    keep(alloc, merged, key, update)
}

impl Merged {
    /// Nothing yet.
    pub(crate) fn new(alloc: Global) -> Merged
        ensures cells { result.cells ≡ [] }
        ensures updates { result.updates ≡ 0 }
        ensures skipped { result.skipped ≡ 0 }
    {
        Merged {
            cells: CellMap::new(alloc),
            updates: 0,
            skipped: 0,
            sought: CellKey {
                table: Table(0),
                key: Text::new(String::new(alloc)),
                column: Text::new(String::new(alloc)),
            },
        }
    }

    /// Takes in what another worker has.
    pub(crate) fn join(&mut self, other: Merged) -> Result<(), OutOfMemory>
        ensures { OnOk result (IsJoin self.old other self.new) }
    {
        let (Some(updates), Some(skipped)) = (
            self.updates.checked_add(other.updates),
            self.skipped.checked_add(other.skipped),
        ) else {
            return Err(OutOfMemory);
        };
        self.cells.join(other.cells)?;
        self.updates = updates;
        self.skipped = skipped;
        Ok(())
    }
}
