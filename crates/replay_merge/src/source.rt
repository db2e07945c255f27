//! The segments of a folder, as a source of entries, which are piped to workers.
ghost use Rattle.std.specs.Prelude.{◌≡◌, ◌≤◌, IfSome, List};
ghost use Rattle.clog_crash.specs.Folder.{IsHeld};
ghost use Rattle.clog_folder.specs.Listing.{AreRows, IsSegmentAt, segment_cmp};
ghost use Rattle.clog_folder.specs.Passing.{IsUntouched, TellsEach};
ghost use Rattle.replay_merge.specs.Entries.{Entry as log_entry, all_items};
ghost use Rattle.replay_merge.specs.Piped.{IsDone};
ghost use Rattle.replay_merge.specs.Places.{GivesPlaces};

use crate::piped::{Batch, Piped};
use crate::piping::pipe;
use crate::places::stream_places;
use clog_disk::Disk;
use clog_folder::{OpenFault, SegmentNames, TableHeld};
use clog_io::Gate;
use replay_queue::{Queue, Sink, Source};
use std::alloc::Global;
use std::marker::Sync;
use std::sync::Wait;
use std::thread::Threads;

/// The segments of these names, and their disk, which is handed back: no clause tells what a thread
/// does to what it borrows.
#[derive(Drop)]
pub(crate) struct FolderSource<'a, D> {
    pub(crate) alloc: Global,
    pub(crate) disk: &'a mut D,
    /// Segments of all versions, by id.
    pub(crate) names: SegmentNames,
    /// Whether damage is passed over.
    pub(crate) ignore: bool,
}

impl<'a, D: Disk> Source<Batch, (&'a mut D, Result<(), OpenFault>)> for FolderSource<'a, D> {
    ghost can_give = { λ s. IfSome (D.files s.disk.now) (λ held.
        AreRows segment_cmp IsSegmentAt (IsHeld held) s.names.entries) };

    ghost gives = { λ s o batches. (o.0.ghost_name ≡ s.disk.ghost_name)
        × GivesPlaces s.ignore (D.files s.disk.now) (D.faults s.disk.now) (D.faults o.0.now)
        s.names.entries (all_items batches) o.1
        × IsUntouched D.files D.changes D.leaves D.moment D.since D.read_at D.lasted_at D.faults
        s.disk.now o.0.now
        × TellsEach (D.faults s.disk.now) (D.faults o.0.now) o.1 };

    fn give<P: Sink<Batch>>(self, to: &mut P) -> (&'a mut D, Result<(), OpenFault>) {
        let FolderSource {
            alloc,
            disk,
            names,
            ignore,
        } = self;
        let answer = stream_places(alloc, disk, names, ignore, to);
        (disk, answer)
    }
}

// Ties a disk that was handed back to the parameter that lent it.
fn take_back<D>(disk: &mut D)
    ensures { disk.new ≡ disk.old }
{}

/// Reads the segments of these names, of which each is there, and decodes and merges their entries
/// by so many workers beside it, and by the caller where the queue is full. Answers how far the
/// segments were read, and what the threads have, unless memory was refused to one.
pub(crate) fn pipe_places<R: Threads + Wait + Sync, D: Disk, G: Gate + Sync>(
    rt: &R,
    alloc: Global,
    queue: Queue<Batch>,
    tables: &[TableHeld],
    disk: &mut D,
    names: SegmentNames,
    workers: u8,
    ignore: bool,
    gate: &G,
) -> (Result<(), OpenFault>, Option<Piped>)
    requires workers { workers ≤ 64 }
    requires there { IfSome (D.files disk.old) (λ held.
        AreRows segment_cmp IsSegmentAt (IsHeld held) names.entries) }
    ensures pipes { (items : List log_entry)
        × GivesPlaces ignore (D.files disk.old) (D.faults disk.old) (D.faults disk.new)
        names.entries items result.0
        × IfSome result.1 (IsDone tables.now items) }
    ensures keeps { IsUntouched D.files D.changes D.leaves D.moment D.since D.read_at D.lasted_at
        D.faults disk.old disk.new }
    ensures quiet { TellsEach (D.faults disk.old) (D.faults disk.new) result.0 }
{
    let source = FolderSource {
        alloc,
        disk,
        names,
        ignore,
    };
    let ((disk, streamed), piped) = pipe(rt, alloc, queue, tables, source, workers, gate);
    take_back(disk);
    (streamed, piped)
}
