//! The entries of a batch are taken in. Their keys often ascend, and then leave each node of a map
//! half empty; so a batch is gone through three times, and what stands between fills the nodes.
ghost use Rattle.std.specs.Prelude.{◌≤◌, OnOk};
ghost use Rattle.replay_merge.specs.Entries.{item_of, items_of, thirds};
ghost use Rattle.replay_merge.specs.Piped.{TakesItems, TakesPiped};

use crate::piped::{Batch, Piped};
use crate::piping::{Piping, take_piped};
use clog_base::{OutOfMemory, Writer};
use clog_io::{Gate, Point};
use clog_scan::Whole;

/// Takes an entry in. Where a worker has merged it, the gate is told; of what the thread that reads
/// has taken nothing is told.
fn take_one<G: Gate>(
    piping: &Piping<'_, G>,
    state: &mut Piped,
    worker: Option<u8>,
    id: u64,
    whole: &Whole,
) -> Result<(), OutOfMemory>
    ensures { OnOk result (TakesPiped piping.now.tables.now (item_of id whole.now) state.old
        state.new) }
{
    let merged = take_piped(piping.alloc, piping.tables, state, id, whole)?;
    if let (true, Some(worker)) = (merged, worker) {
        piping.gate.reached(Writer(worker), Point::Deposited);
    }
    Ok(())
}

/// Takes in every third entry, from the place `first` on.
fn take_thirds<G: Gate>(
    piping: &Piping<'_, G>,
    state: &mut Piped,
    worker: Option<u8>,
    batch: &Batch,
    first: usize,
) -> Result<(), OutOfMemory>
    requires { first ≤ 2 }
    ensures { OnOk result (TakesItems piping.now.tables.now (thirds first (items_of batch.now))
        state.old state.new) }
{
    let wholes = batch.wholes.as_slice();
    let mut at = first;
    while at < wholes.len() {
        take_one(piping, state, worker, batch.id, &wholes[at])?;
        at += 3;
    }
    Ok(())
}

/// Takes in the entries of a batch.
pub(crate) fn take_batch<G: Gate>(
    piping: &Piping<'_, G>,
    state: &mut Piped,
    worker: Option<u8>,
    batch: &Batch,
) -> Result<(), OutOfMemory>
    ensures { OnOk result (TakesItems piping.now.tables.now (items_of batch.now) state.old
        state.new) }
{
    take_thirds(piping, state, worker, batch, 0)?;
    take_thirds(piping, state, worker, batch, 1)?;
    take_thirds(piping, state, worker, batch, 2)?;
    Ok(())
}
