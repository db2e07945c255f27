//! What decides which segments may go, counted once: of a store's entries and table files each
//! table's part of the log, and of its segments those that have an entry and were not dropped.
//! Kept (`IsCounted`): how many of each were counted, so that a further count begins behind them.
//! So each discard looks at what is new and at the segments that are there, and at no other.
ghost use Rattle.std.specs.Prelude.{◌≡◌, ◌↔◌, ◌⊎◌, [], ℕ, Contains, IfOk, IsTrue, OnOk};
ghost use Rattle.path_core.specs.Keeper.{Holding};
ghost use Rattle.clog_due.specs.Counting.{IsAllCounted, IsCounted};
ghost use Rattle.clog_due.specs.Dropping.{AreDue, ArePlaced, HasEntry, PicksIf};

use crate::droppable::{all_due, has, ordinal, set_of};
use crate::stored_file::StoredFile;
use crate::table_log::{TableLog, grown_tables, no_tables};
use clog_base::OutOfMemory;
use path_core::EntryNote;
use std::alloc::Global;
use std::collections::BTreeSet;

/// What was counted of a store's first entries, table files and dropped segments. It holds no map,
/// so that a store may cross threads.
#[derive(Drop)]
pub struct Counted {
    tables: Vec<TableLog>,
    /// The ordinals of the segments that have an entry and were not dropped, in no order.
    held: Vec<u64>,
    entries: usize,
    files: usize,
    dropped: usize,
}

// ---- which segments have an entry

fn is_last(ordinals: &[u64], ordinal: u64) -> bool
    ensures { IsTrue result → Contains ordinals.now ordinal }
{
    if ordinals.is_empty() {
        return false;
    }
    ordinals[ordinals.len() - 1] == ordinal
}

// Lists a segment, unless it is the last one: entries of one segment follow one another.
fn hold(held: &mut Vec<u64>, ordinal: u64) -> Result<(), OutOfMemory>
    ensures { OnOk result ((o : ℕ) → Contains held.new.items o
        ↔ (Contains held.old.items o ⊎ (ordinal ≡ o))) }
{
    if is_last(held, ordinal) {
        return Ok(());
    }
    held.push(ordinal)?;
    Ok(())
}

/// Lists the ordinals of the segments of the entries behind those listed. Where memory is refused
/// some may be listed.
pub fn hold_all(held: &mut Vec<u64>, notes: &[EntryNote]) -> Result<(), OutOfMemory>
    ensures { OnOk result ((o : ℕ) → Contains held.new.items o
        ↔ (Contains held.old.items o ⊎ HasEntry notes.now o)) }
{
    for note in notes {
        hold(held, ordinal(note.start))?;
    }
    Ok(())
}

// Lists a segment that has not gone.
fn list_left(left: &mut Vec<u64>, gone: &BTreeSet<u64>, ordinal: u64) -> Result<(), OutOfMemory>
    ensures { OnOk result (PicksIf (Contains gone.now.keys ordinal → ⊥) ordinal left.old.items
        left.new.items) }
{
    if has(gone, ordinal) {
        return Ok(());
    }
    left.push(ordinal)?;
    Ok(())
}

// The segments that have not gone.
fn all_left(alloc: Global, held: &[u64], gone: &BTreeSet<u64>) -> Result<Vec<u64>, OutOfMemory>
    ensures { IfOk result (λ left. (o : ℕ) → Contains left.items o
        ↔ (Contains held.now o × (Contains gone.now.keys o → ⊥))) }
{
    let mut left = Vec::new(alloc);
    for ordinal in held {
        list_left(&mut left, gone, *ordinal)?;
    }
    Ok(left)
}

// ---- what is counted

impl Counted {
    /// Nothing is counted yet.
    pub fn nothing(alloc: Global) -> Result<Counted, OutOfMemory>
        ensures { IfOk result (IsAllCounted [] [] []) }
    {
        Ok(Counted {
            entries: 0,
            files: 0,
            dropped: 0,
            held: Vec::new(alloc),
            tables: no_tables(alloc)?,
        })
    }

    /// With all that is new counted too. Where memory is refused, what was counted is let go.
    pub fn count(
        self,
        alloc: Global,
        notes: &[EntryNote],
        files: &[StoredFile],
        dropped: &[u64],
    ) -> Result<Counted, OutOfMemory>
        requires placed { ArePlaced notes.now }
        requires counted { IsCounted notes.now files.now dropped.now self }
        ensures { IfOk result (IsAllCounted notes.now files.now dropped.now) }
    {
        let tables = grown_tables(alloc, self.tables, notes, self.entries, files, self.files)?;
        let mut held = self.held;
        hold_all(&mut held, &notes[self.entries..])?;
        let gone = set_of(alloc, &dropped[self.dropped..])?;
        Ok(Counted {
            entries: notes.len(),
            files: files.len(),
            dropped: dropped.len(),
            held: all_left(alloc, &held, &gone)?,
            tables,
        })
    }

    /// The ordinals below `closed` of the segments that may be dropped and were not, ascending,
    /// where a refused sync has kept entries of these segments. `closed` is to be at most the
    /// ordinal of the synced key, or one more than the last of the log once all of it is lasting.
    pub fn due(&self, alloc: Global, kept: &[u64], closed: u32) -> Result<Vec<u64>, OutOfMemory>
        ensures { (h : Holding) → ArePlaced h.logged
            → IsAllCounted h.logged h.files h.dropped self.now
            → ((o : ℕ) → Contains kept.now o ↔ HasEntry h.kept o)
            → IfOk result (λ due. AreDue h closed due.items) }
    {
        let held = set_of(alloc, &self.held)?;
        let kept = set_of(alloc, kept)?;
        all_due(alloc, &held, &self.tables, &kept, closed)
    }
}
