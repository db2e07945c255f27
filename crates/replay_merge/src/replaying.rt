//! A folder is restored by several workers, which merge while it is read.
ghost use Rattle.std.specs.Prelude.{◌≤◌};
ghost use Rattle.clog_folder.specs.Passing.{IsUntouched, TellsEach};
ghost use Rattle.replay_merge.specs.Restoring.{Replays};

use crate::restoring::{Restored, restored_of};
use crate::settling::pipe_folder;
use clog_disk::Disk;
use clog_folder::{
    OpenFault, count_segments, count_tables, fault_of, read_tables, segment_names, table_names,
};
use clog_io::Gate;
use replay_queue::Queue;
use std::alloc::Global;
use std::marker::Sync;
use std::sync::Wait;
use std::thread::Threads;

/// What a folder restores to, past damage where it is to be ignored, by 1 to 64 workers: the same
/// for every number of them. It writes nothing.
///
/// The caller reads table files whole, and then segments in pieces of at most 64 KiB. The entries
/// that end in a piece are a batch, which it puts into a queue of 256 places. The workers take them
/// from there; where the queue is full, it takes a batch itself. A worker for which no thread can
/// be started is run by the caller behind the last batch. So memory is wanted for cells, table
/// files, a piece and the batches in the queue, and not for the segments.
///
/// The gate is told, of each worker as a writer of its number: `Started` before its first entry,
/// `Deposited` after each entry that it has merged, and `Returned` at its end. Of an entry that the
/// caller takes it is told nothing.
///
/// - `Disk`: only where the disk's count of faults has risen in this call.
/// - `BadTable`: exactly the first file, by table and sequence, with a table file's name that is
///   none.
/// - `Damaged`: the first damage, by id and place, and only without `ignore`.
/// - `Limit(SegmentBytes, ..)`: the first segment that is refused has more bytes than that.
/// - `OutOfMemory`: memory was refused; it may come anywhere.
pub fn replay<R: Threads + Wait + Sync, D: Disk, G: Gate + Sync>(
    rt: &R,
    alloc: Global,
    disk: &mut D,
    workers: u8,
    ignore: bool,
    gate: &G,
) -> Result<Restored, OpenFault>
    requires workers { (1 ≤ workers) × (workers ≤ 64) }
    ensures replays { Replays ignore (D.files disk.old) (D.faults disk.old) (D.faults disk.new)
        result }
    // No file, no image and no earlier moment of the disk has changed.
    ensures keeps { IsUntouched D.files D.changes D.leaves D.moment D.since D.read_at D.lasted_at
        D.faults disk.old disk.new }
    // What is answered for another reason than the disk's has counted no fault of it.
    ensures quiet { TellsEach (D.faults disk.old) (D.faults disk.new) result }
{
    // Before the disk is called, since what lends the disk cannot be refused.
    let queue = Queue::new(alloc)?;
    let names = match disk.list() {
        Ok(names) => names,
        Err(fault) => return Err(fault_of(fault)),
    };
    let tables = table_names(alloc, names.as_slice())?;
    let segments = segment_names(alloc, names.as_slice())?;
    // Matches in place of `?`, since the exits speak of what was read.
    let tables = match read_tables(alloc, disk, tables) {
        Ok(tables) => tables,
        Err(fault) => return Err(fault),
    };
    let lent = tables.as_slice();
    let piped = match pipe_folder(
        rt, alloc, queue, lent, disk, segments, workers, ignore, gate,
    ) {
        Ok(piped) => piped,
        Err(fault) => return Err(fault),
    };
    let segments = count_segments(names.as_slice());
    Ok(restored_of(tables, segments, count_tables(names.as_slice()), piped)?)
}
