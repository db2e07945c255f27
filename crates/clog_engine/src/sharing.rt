//! Planned lines are applied by writers of a path, 1 to 64: the folder is opened, the writers log
//! the lines, and the report tells where each stands.
//!
//! The rows of the report, and room for all of it, are there before the folder is opened; its head
//! is put into that room behind the lines, since where they stand is known then.
ghost use Rattle.std.specs.Prelude.{◌≡◌, ◌<◌, ◌≤◌, [], ℕ, List, length, Option, IfOk};
ghost use Rattle.clog_disk.specs.Files.{Files};
ghost use Rattle.clog_disk.specs.Images.{IsImage};
ghost use Rattle.clog_mutation.specs.declared.mutation.Mutation.{Mutation};
ghost use Rattle.clog_engine.specs.Logged.{AppliesLines};
ghost use Rattle.clog_engine.specs.Outside.{outside_with};
ghost use Rattle.clog_engine.specs.Planning.{ArePlanned};
ghost use Rattle.clog_engine.specs.Quiet.{IsRefusedBefore, TellsEach};
ghost use Rattle.clog_engine.specs.Refusal.{HasRoomFor, IsToldAs, IsUnspent};
ghost use Rattle.clog_engine.specs.Request.{AreSizesOf, IsDoable};

use crate::before::cells_before;
use crate::printing::Report;
use crate::refusal::folder_status;
use crate::report::{PendingReport, finished, pending};
use crate::shares::PlannedLines;
use crate::status::Status;
use clog_base::{OutOfMemory, Sizes};
use clog_disk::Disk;
use clog_io::{Clock, Gate};
use clog_store::Store;
use clog_words::ApplyOptions;
use clog_writers::{Syncing, WriteFault, write_plan};
use std::alloc::Global;
use std::sync::Wait;
use std::thread::Threads;
use write_path::Receipt;

// How a run ends whose lines were logged by their writers, or not: no log is spent by as many lines
// as a file has, and there is room for the report of as many.
fn told(
    pending: PendingReport,
    receipts: bool,
    outcome: Result<Vec<Receipt>, WriteFault>,
) -> Result<Report, Status>
    requires unspent { IsUnspent outcome }
    requires void { pending.room.items ≡ [] }
    requires room { IfOk outcome (λ told. HasRoomFor (length told.items) pending) }
    ensures { IsToldAs receipts pending outcome result }
{
    match outcome {
        Ok(told) => Ok(finished(pending, receipts, told.as_slice())),
        Err(WriteFault::Stopped { .. }) => Err(Status::DiskFault),
        Err(WriteFault::OutOfMemory) => Err(Status::OutOfMemory),
        Err(WriteFault::Spent) => unreachable!(),
    }
}

/// What a crash at a disk's moment leaves, it may leave now. The law is for contracts alone.
pub(crate) fn disks_leave_now<D: Disk>(_disk: &D)
    ensures { (d : D) (image : Files) → D.since d (D.moment d) image → IsImage (D.leaves d) image }
{}

/// Applies planned lines, however they came. The clock tells the moment of the opening, and when a
/// period has passed.
pub(crate) fn apply_shares<
    T: Threads + Wait + Sync,
    D: Disk + Send + Drop,
    C: Clock + Sync,
    G: Gate + Sync,
>(
    rt: &T,
    alloc: Global,
    options: ApplyOptions,
    sizes: Sizes,
    lines: PlannedLines<D>,
    disk: D,
    clock: &C,
    gate: &G,
) -> (D, Result<Report, Status>)
    requires doable { IsDoable options }
    requires sizes { AreSizesOf options sizes }
    requires planned { (mutations : List Mutation)
        × ArePlanned options.dump sizes options.flush_at mutations lines }
    ensures applies { (left left_now : Option (List ℕ)) (f g : ℕ) (mutations : List Mutation)
        → ArePlanned options.dump sizes options.flush_at mutations lines
        → AppliesLines options mutations
        (outside_with left left_now f g D.Disk C.Clock disk result.0 clock.now) result.1 }
    ensures later { D.moment disk ≤ D.moment result.0 }
    ensures quiet { TellsEach (D.faults disk) (D.faults result.0) result.1 }
    ensures called { IsRefusedBefore result.1 → ⊥ }
{
    disks_leave_now(&disk);
    let PlannedLines { plan, cells } = lines;
    let mut disk = disk;
    let before = match cells_before(rt, alloc, &mut disk, options.dump, gate) {
        Ok(cells) => cells,
        Err(status) => return (disk, Err(status)),
    };
    let pending = match pending(alloc, options.dump, before, cells, plan.receipts.len()) {
        Ok(pending) => pending,
        Err(OutOfMemory) => return (disk, Err(Status::OutOfMemory)),
    };
    let opened_ms = clock.now_ms();
    let store = match Store::open(alloc, disk, opened_ms, sizes, options.archive) {
        Ok(store) => store,
        Err((disk, refusal)) => return (disk, Err(folder_status(refusal))),
    };
    let syncing = Syncing {
        mode: options.sync,
        since_ms: opened_ms,
    };
    let (disk, outcome) = write_plan(
        rt,
        alloc,
        store,
        sizes,
        syncing,
        gate,
        clock,
        plan,
        options.flush_at,
        options.drain,
    );
    (disk, told(pending, options.receipts, outcome))
}
