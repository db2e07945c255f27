//! Entries that come in any order are decoded and merged; of those that are refused the first is
//! kept.
ghost use Rattle.std.specs.Prelude.{◌↔◌, ◌≤◌, IfSome, IsTrue, List, OnOk};
ghost use Rattle.clog_mutation.specs.Lent.{mutation_lent};
ghost use Rattle.replay_merge.specs.declared.piped.Batch.{Batch as read_batch};
ghost use Rattle.replay_merge.specs.Entries.{all_items, item_of};
ghost use Rattle.replay_merge.specs.Piped.{IsDone, IsFirstOf, IsFirstOfBoth, IsRefusal, IsUpTo};
ghost use Rattle.replay_merge.specs.Piped.{JoinsPiped, TakesGood, TakesPiped};

use crate::batching::take_batch;
use crate::piped::{Batch, Piped, Refused};
use crate::taking::take_mutation;
use clog_base::{OutOfMemory, PayloadFault, Position, Writer};
use clog_folder::TableHeld;
use clog_io::{Gate, Point};
use clog_mutation::{LentMutation, check, lend};
use clog_scan::Whole;
use replay_queue::{Queue, Source, Work, run};
use std::alloc::{AllocError, Global};
use std::marker::Sync;
use std::sync::Wait;
use std::thread::Threads;

/// What a worker needs.
#[derive(Drop)]
pub(crate) struct Piping<'a, G> {
    pub(crate) alloc: Global,
    /// The table files, for whose intervals updates are left out.
    pub(crate) tables: &'a [TableHeld],
    /// Who is told where the workers are.
    pub(crate) gate: &'a G,
}

/// Whether the one refusal stands in front of the other, or is it.
fn is_up_to(one: Refused, other: Refused) -> bool
    ensures { IsTrue result ↔ IsUpTo one.id one.start other.id other.start }
{
    one.id < other.id || (one.id == other.id && one.start <= other.start)
}

/// The first of two refusals.
fn first_of(old: Option<Refused>, refused: Refused) -> Option<Refused>
    ensures { IsFirstOf old refused result }
{
    let Some(before) = old else {
        return Some(refused);
    };
    if is_up_to(before, refused) {
        return Some(before);
    }
    Some(refused)
}

/// Merges a good entry's mutation.
fn take_good(
    alloc: Global,
    tables: &[TableHeld],
    state: &mut Piped,
    id: u64,
    whole: &Whole,
    mutation: &LentMutation<'_>,
) -> Result<(), OutOfMemory>
    ensures { OnOk result (TakesGood tables.now (item_of id whole.now) (mutation_lent mutation.now) state.old
        state.new) }
{
    let Some(entries) = state.entries.checked_add(1) else {
        return Err(OutOfMemory);
    };
    let at = Position {
        id,
        offset: whole.end,
    };
    take_mutation(alloc, tables, &mut state.merged, at, mutation)?;
    state.entries = entries;
    Ok(())
}

/// The first refusal of two threads.
fn first_of_both(old: Option<Refused>, other: Option<Refused>) -> Option<Refused>
    ensures { IsFirstOfBoth old other result }
{
    match other {
        Some(refused) => first_of(old, refused),
        None => old,
    }
}

/// Joins what two threads have.
fn join_piped(tables: &[TableHeld], state: &mut Piped, other: Piped) -> Result<(), OutOfMemory>
    ensures { OnOk result (JoinsPiped state.old other state.new) }
{
    let Piped {
        merged,
        entries,
        refused,
    } = other;
    let Some(all) = state.entries.checked_add(entries) else {
        return Err(OutOfMemory);
    };
    state.merged.join(merged)?;
    state.entries = all;
    state.refused = first_of_both(state.refused, refused);
    Ok(())
}

/// Why bytes are no payload; None where they are one.
fn refusal(bytes: &[u8]) -> Option<PayloadFault>
    ensures { IsRefusal bytes.now result }
{
    match check(bytes) {
        Ok(()) => None,
        Err(fault) => Some(fault),
    }
}

/// Takes an entry in, and tells whether it was merged: one whose payload is no mutation's is not.
pub(crate) fn take_piped(
    alloc: Global,
    tables: &[TableHeld],
    state: &mut Piped,
    id: u64,
    whole: &Whole,
) -> Result<bool, OutOfMemory>
    ensures { OnOk result (TakesPiped tables.now (item_of id whole.now) state.old state.new) }
{
    let Ok(mutation) = lend(alloc, whole.payload.as_slice()) else {
        let Some(fault) = refusal(whole.payload.as_slice()) else {
            return Err(OutOfMemory);
        };
        let refused = Refused {
            id,
            start: whole.start,
            fault,
        };
        state.refused = first_of(state.refused, refused);
        return Ok(false);
    };
    take_good(alloc, tables, state, id, whole, &mutation)?;
    Ok(true)
}

impl<'a, G: Gate> Work<Batch, Piped> for Piping<'a, G> {
    ghost use Rattle.replay_merge.specs.Entries.{all_items};
    ghost use Rattle.replay_merge.specs.Piped.{IsDone};

    ghost done = { λ w s batches. IsDone w.tables.now (all_items batches) s };

    fn begin(&self) -> Piped {
        Piped::new(self.alloc)
    }

    fn take(&self, state: &mut Piped, worker: Option<u8>, item: Batch) -> Result<(), AllocError> {
        match take_batch(self, state, worker, &item) {
            Ok(()) => Ok(()),
            Err(OutOfMemory) => Err(AllocError),
        }
    }

    fn join(&self, state: &mut Piped, other: Piped) -> Result<(), AllocError> {
        match join_piped(self.tables, state, other) {
            Ok(()) => Ok(()),
            Err(OutOfMemory) => Err(AllocError),
        }
    }

    fn started(&self, worker: u8) {
        self.gate.reached(Writer(worker), Point::Started);
    }

    fn returned(&self, worker: u8) {
        self.gate.reached(Writer(worker), Point::Returned);
    }
}

/// Decodes and merges all entries of a source, by so many workers and by the caller, who takes them
/// where the queue is full. None where memory was refused to a thread.
pub(crate) fn pipe<R: Threads + Wait + Sync, O, G: Gate + Sync, F: Source<Batch, O> + Drop>(
    rt: &R,
    alloc: Global,
    queue: Queue<Batch>,
    tables: &[TableHeld],
    source: F,
    workers: u8,
    gate: &G,
) -> (O, Option<Piped>)
    requires workers { workers ≤ 64 }
    requires source { F.can_give source }
    ensures { (batches : List read_batch) × F.gives source result.0 batches
        × IfSome result.1 (IsDone tables.now (all_items batches)) }
{
    let piping = Piping {
        alloc,
        tables,
        gate,
    };
    run(rt, queue, &piping, source, workers)
}
