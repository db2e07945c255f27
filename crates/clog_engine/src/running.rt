//! The top call.
ghost use Rattle.std.specs.Prelude.{◌≡◌};
ghost use Rattle.clog_engine.specs.Answering.{DoesAsked};
ghost use Rattle.clog_engine.specs.Outside.{outside_of, sinks_of};
ghost use Rattle.clog_engine.specs.Run.{Runs};
ghost use Rattle.clog_engine.specs.Quiet.{IsBeforeDisk, IsRefusedBefore, TellsEach};

use crate::applying::apply;
use crate::drilling::drill;
use crate::ordering::orders;
use crate::printing::{Report, print};
use crate::replaying::replay_folder;
use crate::scanning::scan_segment;
use crate::status::Status;
use crate::words::request_of;
use clog_base::OutOfMemory;
use clog_disk::Disk;
use clog_io::{Clock, Gate, Sink, Source};
use clog_words::Built;
use std::alloc::Global;
use std::sync::Wait;
use std::thread::Threads;

// Does what the words ask for.
fn outcome_of<
    T: Threads + Wait + Sync,
    R: Source,
    D: Disk + Send + Drop,
    C: Clock + Sync,
    G: Gate + Sync,
>(
    rt: &T,
    alloc: Global,
    words: &[String],
    source: &mut R,
    disk: D,
    clock: &C,
    gate: &G,
) -> (D, Result<Report, Status>)
    ensures done { DoesAsked words.now (outside_of R.Source D.Disk C.Clock source.old source.new
        disk result.0 clock.now) result.1 }
    ensures quiet { TellsEach (D.faults disk) (D.faults result.0) result.1 }
    ensures uncalled { IsRefusedBefore result.1 → result.0 ≡ disk }
{
    let mut disk = disk;
    match request_of(alloc, words) {
        Ok(Some(Built::Apply(options))) => apply(rt, alloc, options, source, disk, clock, gate),
        Ok(Some(Built::Replay(options))) => {
            let outcome = replay_folder(rt, alloc, options, &mut disk, gate);
            (disk, outcome)
        }
        Ok(Some(Built::Scan { id })) => {
            let outcome = scan_segment(alloc, &mut disk, id);
            (disk, outcome)
        }
        Ok(Some(Built::Drill { seed, count })) => drill(rt, alloc, seed, count, disk, clock, gate),
        Ok(Some(Built::Orders { readers, rounds })) => {
            let outcome = orders(rt, alloc, readers, rounds);
            (disk, outcome)
        }
        Ok(None) => (disk, Err(Status::Usage)),
        Err(OutOfMemory) => (disk, Err(Status::OutOfMemory)),
    }
}

/// All that the program does. It takes the words after the program's name and the outside, and
/// answers how it ended; the disk comes back in each case.
///
/// Of `apply`, where the source tells its bytes and the disk its files and changes, `Ok` means that
///
/// - the source was read to its end;
/// - a folder that held segments was recovered: they are gone, table files came for them, and each
///   other file stands as it was;
/// - each line of the file was logged once in new segments, with `--writers` each writer's share of
///   the lines in order, whose ids begin at the greater of the clock's moment and one more than
///   each id that the folder named;
/// - the folder restores to what it restored to before with the lines' cells merged in, no file of
///   it damaged;
/// - the report went out whole, whose receipts are the positions of the entries, and whose dump is
///   what the folder restores to now;
/// - with `--drain` none of these segments is left: behind them came a table file of each table
///   that the lines touch, and with `--archive` each has its archive name.
///
/// Of such a source and disk, where nothing passes a check by chance, a crash at any moment leaves
/// what it might have left before the run, or what restores to what the folder did with the first
/// of the lines. They are the first in the order of the log, and of each writer the first of its
/// share. A crash after `Ok` leaves what restores to that with all of them.
///
/// With `--flush-at` each writer flushes a table once it has logged so many updates of it since its
/// last flush of it: meanwhile table files come, and segments go whose entries all lie in them,
/// with `--archive` to their archive names.
///
/// - At `Ok` each writer has fewer updates of a table above the end of the table's last file than
///   that number, and each table of which a writer's share has so many has a file; no segment of
///   the run is left whose entries table files hold.
///
/// With `--sync batch` a writer waits for the sync of each line before it logs its next one, so no
/// section of a segment holds two lines of one writer, and where a sync is refused it logs no more.
/// The first fault ends the run: each other writer stops behind its line in hand (no clause says
/// so). In periodic mode a writer has the log synced behind a line at which the clock tells that
/// the period has passed since it last had.
///
/// Of the other commands `Ok` means,
///
/// - of `replay`, that the report has the counts of the folder and what it restores to, and that
///   without `--ignore-errors` nothing of the folder is damaged;
/// - of `scan`, that the report tells what the segment's file holds;
/// - of `drill`, all that it means of `apply` without options but `--writers 4`,
///   `--segment-kib 1024` and `--flush-at 1000`, with the made lines as those of the file, and that
///   the report has their numbers, and those of what the folder then restores to; the source is not
///   read;
/// - of `orders`, that the report tells as many values published and places freed as there are
///   rounds, and as many operations of each reader; the disk is as it was.
///
/// Where the words ask for what can be done and no fault was counted, it ends with `Ok`, or for
/// want of memory. A fault of the disk is told: without `DiskFault` none was counted. What the
/// words or the mutation file refuse by themselves leaves the disk uncalled, and what the folder
/// refuses for what it holds leaves it as it was.
///
/// After `DiskFault` and `OutOfMemory`:
///
/// - The changes are the first of a recovery's, or all of these and others: appends to the run's
///   segments, with what a drain changes behind them; with a flush limit true table files and
///   removals among them.
/// - Each table file stands for an entry and comes behind the entries of its table up to its end,
///   and each removal behind files that hold its segment; where the disk tells its files, the table
///   files are there.
/// - Under the premise above the files as they read restore to what was there before with the first
///   of the lines that were logged, of each writer the first of its share. So does what a crash
///   leaves, or it is what it might have left before the run.
///
/// The gate is told how far each writer and each worker is.
pub fn run<
    T: Threads + Wait + Sync,
    R: Source,
    K: Sink,
    D: Disk + Send + Drop,
    C: Clock + Sync,
    G: Gate + Sync,
>(
    rt: &T,
    alloc: Global,
    words: &[String],
    source: &mut R,
    sink: &mut K,
    disk: D,
    clock: &C,
    gate: &G,
) -> (Status, D)
    ensures runs { Runs words.now (outside_of R.Source D.Disk C.Clock source.old source.new disk
        result.1 clock.now) (sinks_of K.Sink sink.old sink.new) result.0 }
    ensures uncalled { IsBeforeDisk result.0 → result.1 ≡ disk }
{
    let (disk, outcome) = outcome_of(rt, alloc, words, source, disk, clock, gate);
    (print(sink, outcome), disk)
}
