//! A folder's segments are read and merged, and what is answered first is decided. Nothing is
//! answered before all threads have ended.
ghost use Rattle.std.specs.Prelude.{◌≤◌, ℕ, IfSome};
ghost use Rattle.clog_crash.specs.Folder.{IsHeld};
ghost use Rattle.clog_folder.specs.Listing.{AreRows, IsSegmentAt, segment_cmp};
ghost use Rattle.clog_folder.specs.Passing.{IsUntouched, TellsEach};
ghost use Rattle.replay_merge.specs.Settling.{ChecksPiped, IsFirstFault, PipesFolder, SettlesTo};

use crate::piped::{Batch, Piped};
use crate::source::pipe_places;
use clog_base::segment_name;
use clog_disk::Disk;
use clog_folder::{OpenFault, SegmentNames, TableHeld};
use clog_io::Gate;
use clog_scan::Cause;
use replay_queue::Queue;
use std::alloc::Global;
use std::marker::Sync;
use std::sync::Wait;
use std::thread::Threads;

/// A fault of the disk, or want of memory, at which reading stopped: they are answered before
/// anything else.
fn first_fault(streamed: &Result<(), OpenFault>) -> Option<OpenFault>
    ensures { IsFirstFault streamed.now result }
{
    match streamed {
        Err(OpenFault::Disk) => Some(OpenFault::Disk),
        Err(OpenFault::OutOfMemory) => Some(OpenFault::OutOfMemory),
        Err(OpenFault::Damaged(..) | OpenFault::BadTable(..) | OpenFault::Limit(..)) | Ok(()) =>
            None,
    }
}

/// What the threads have, where memory was refused to none; without `ignore` the least refused
/// payload by position is damage.
fn checked(piped: Option<Piped>, ignore: bool) -> Result<Piped, OpenFault>
    ensures { ChecksPiped ignore piped result }
{
    let Some(piped) = piped else {
        return Err(OpenFault::OutOfMemory);
    };
    if ignore {
        return Ok(piped);
    }
    let Some(refused) = piped.refused else {
        return Ok(piped);
    };
    let cause = Cause::Payload(refused.fault);
    Err(OpenFault::Damaged(segment_name(refused.id), refused.start, cause))
}

/// What is answered of segments that were read so far, and of what was taken of them. Where
/// refusals stand together, the first of these is answered: a fault of the disk; want of memory;
/// without `ignore` the least refused payload by position; the place at which reading stopped.
pub(crate) fn settle(
    streamed: Result<(), OpenFault>,
    piped: Option<Piped>,
    ignore: bool,
) -> Result<Piped, OpenFault>
    ensures settles { SettlesTo ignore streamed piped result }
    ensures quiet { (faults now : ℕ) → TellsEach faults now streamed → TellsEach faults now result }
{
    if let Some(fault) = first_fault(&streamed) {
        return Err(fault);
    }
    // Matches in place of `?`, since the exits speak of what was read.
    let piped = match checked(piped, ignore) {
        Ok(piped) => piped,
        Err(fault) => return Err(fault),
    };
    match streamed {
        Ok(()) => Ok(piped),
        Err(fault) => Err(fault),
    }
}

/// Reads the segments of these names, of which each is there, and decodes and merges their entries
/// by so many workers beside it, and by the caller where the queue is full.
/// Each entry that was put stands in front of the place at which reading stopped.
pub(crate) fn pipe_folder<R: Threads + Wait + Sync, D: Disk, G: Gate + Sync>(
    rt: &R,
    alloc: Global,
    queue: Queue<Batch>,
    tables: &[TableHeld],
    disk: &mut D,
    names: SegmentNames,
    workers: u8,
    ignore: bool,
    gate: &G,
) -> Result<Piped, OpenFault>
    requires workers { workers ≤ 64 }
    requires there { IfSome (D.files disk.old) (λ held.
        AreRows segment_cmp IsSegmentAt (IsHeld held) names.entries) }
    ensures pipes { PipesFolder ignore (D.files disk.old) (D.faults disk.old) (D.faults disk.new)
        tables.now names.entries result }
    ensures keeps { IsUntouched D.files D.changes D.leaves D.moment D.since D.read_at D.lasted_at
        D.faults disk.old disk.new }
    ensures quiet { TellsEach (D.faults disk.old) (D.faults disk.new) result }
{
    let (streamed, piped) = pipe_places(
        rt, alloc, queue, tables, disk, names, workers, ignore, gate,
    );
    settle(streamed, piped, ignore)
}
