//! Which segments may be dropped: those whose entries that are lasting lie in table files, each
//! table's from the first to the last and what is between, and of which nothing is kept by a sync
//! that was refused.
ghost use Rattle.std.specs.Prelude.{◌≡◌, ◌↔◌, ◌+◌, ℕ, Contains, IsTrue, IfOk, OnOk};
ghost use Rattle.clog_base.specs.Positions.{ordinal_of};
ghost use Rattle.clog_crash.specs.Changes.{AreCovered};
ghost use Rattle.clog_crash.specs.Readings.{Reading};
ghost use Rattle.path_core.specs.Keeper.{Holding, IsDue};
ghost use Rattle.clog_due.specs.Dropping.{ArePicked, IsClosedAndGoes, LetsGo, PicksIf};
ghost use Rattle.clog_segments.specs.OnDisk.{IsOnDisk};

use crate::table_log::{TableLog, are_filed};
use clog_base::{Key, OutOfMemory};
use std::alloc::Global;
use std::collections::BTreeSet;

pub(crate) fn ordinal(key: Key) -> u64
    ensures { result ≡ ordinal_of key.0 }
{
    key.0 >> 31
}

// ---- ordinals

pub(crate) fn set_of(alloc: Global, numbers: &[u64]) -> Result<BTreeSet<u64>, OutOfMemory>
    ensures { IfOk result (λ set. (o : ℕ) → Contains set.keys o ↔ Contains numbers.now o) }
{
    let mut set = BTreeSet::new(alloc);
    for number in numbers {
        set.insert(*number)?;
    }
    Ok(set)
}

pub(crate) fn has(set: &BTreeSet<u64>, number: u64) -> bool
    ensures { IsTrue result ↔ Contains set.now.keys number }
{
    set.contains(&number)
}

// ---- which may go

// Whether a segment that has an entry and was not dropped may go.
fn lets_go(tables: &[TableLog], kept: &BTreeSet<u64>, ordinal: u64) -> bool
    ensures { IsTrue result ↔ LetsGo tables.now kept.now.keys ordinal }
{
    if has(kept, ordinal) {
        return false;
    }
    are_filed(tables, ordinal)
}

// Lists a segment if it is closed and may go.
fn list_due(
    due: &mut Vec<u64>,
    tables: &[TableLog],
    kept: &BTreeSet<u64>,
    closed: u32,
    ordinal: u64,
) -> Result<(), OutOfMemory>
    ensures { OnOk result (PicksIf (IsClosedAndGoes tables.now kept.now.keys closed ordinal) ordinal
        due.old.items due.new.items) }
{
    if ordinal < u64::from(closed) && lets_go(tables, kept, ordinal) {
        due.push(ordinal)?;
        return Ok(());
    }
    Ok(())
}

/// Of the segments that have an entry and were not dropped those that are closed and may go, in
/// their order.
pub(crate) fn all_due(
    alloc: Global,
    held: &BTreeSet<u64>,
    tables: &[TableLog],
    kept: &BTreeSet<u64>,
    closed: u32,
) -> Result<Vec<u64>, OutOfMemory>
    ensures { IfOk result (λ due. ArePicked (IsClosedAndGoes tables.now kept.now.keys closed)
        held.now.keys due.items) }
{
    let mut due = Vec::new(alloc);
    for ordinal in held {
        list_due(&mut due, tables, kept, closed, *ordinal)?;
    }
    Ok(due)
}

/// Each cell of a segment that is to be dropped lies in a table file, where the folder holds what
/// the keeper has in mind: so the folder restores the same without it.
pub fn due_segments_are_covered()
    ensures { (h : Holding) (r : Reading) (closed o : ℕ) → IsOnDisk h r → IsDue h closed o
        → AreCovered r (h.base + o) }
{}
