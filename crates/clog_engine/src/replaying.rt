//! The command `replay`: what the folder restores to, and how much was read of it (Cassandra's
//! `CommitLogReplayer`, which writes it to tables in place of printing it).
ghost use Rattle.std.specs.Prelude.{◌≡◌, ◌≤◌, ◌++◌, OnOk, IfOk};
ghost use Rattle.clog_folder.specs.Passing.{IsUntouched};
ghost use Rattle.clog_engine.specs.Quiet.{TellsEach};
ghost use Rattle.clog_engine.specs.Replaying.{ReplaysFolder, counts_lines, replay_report};
ghost use Rattle.clog_engine.specs.Report.{numbered_line};

use crate::printing::Report;
use crate::refusal::folder_status;
use crate::report::put_cells;
use crate::status::Status;
use clog_base::OutOfMemory;
use clog_disk::Disk;
use clog_io::Gate;
use clog_words::ReplayOptions;
use itoa::Buffer;
use replay_merge::{Counts, Restored, replay};
use std::alloc::{AllocError, Global};
use std::sync::Wait;
use std::thread::Threads;

/// Puts what is counted, and how many there are.
pub(crate) fn put_count(out: &mut Vec<u8>, what: &str, count: u64) -> Result<(), AllocError>
    ensures { OnOk result (out.new.items ≡ out.old.items ++ numbered_line what.now count) }
{
    let mut buffer = Buffer::new();
    out.extend_from_slice(what.as_bytes())?;
    out.push(b' ')?;
    out.extend_from_slice(buffer.format(count).as_bytes())?;
    Ok(out.push(b'\n')?)
}

fn put_counts(out: &mut Vec<u8>, counts: Counts) -> Result<(), AllocError>
    ensures { OnOk result (out.new.items ≡ out.old.items ++ counts_lines counts) }
{
    put_count(out, "segments", u64::from(counts.segments))?;
    put_count(out, "tables", u64::from(counts.tables))?;
    put_count(out, "entries", counts.entries)?;
    put_count(out, "updates", counts.updates)?;
    put_count(out, "skipped", counts.skipped)
}

// The counts, and the line of each cell.
fn report_of(alloc: Global, restored: &Restored) -> Result<Report, OutOfMemory>
    ensures { IfOk result (λ text. text ≡ replay_report restored.now) }
{
    let mut out = Vec::new(alloc);
    put_counts(&mut out, restored.counts)?;
    put_cells(alloc, &mut out, &restored.cells)?;
    Ok(Report::whole(alloc, out))
}

/// What the folder restores to and its counts, read by so many workers. Nothing on the disk
/// changes.
pub(crate) fn replay_folder<T: Threads + Wait + Sync, D: Disk, G: Gate + Sync>(
    rt: &T,
    alloc: Global,
    options: ReplayOptions,
    disk: &mut D,
    gate: &G,
) -> Result<Report, Status>
    requires { (1 ≤ options.workers) × (options.workers ≤ 64) }
    ensures replays { ReplaysFolder options.ignore_errors (D.files disk.old) (D.faults disk.old)
        (D.faults disk.new) result }
    ensures keeps { IsUntouched D.files D.changes D.leaves D.moment D.since D.read_at D.lasted_at
        D.faults disk.old disk.new }
    ensures quiet { TellsEach (D.faults disk.old) (D.faults disk.new) result }
{
    let ignore = options.ignore_errors;
    let restored = match replay(rt, alloc, disk, options.workers, ignore, gate) {
        Ok(restored) => restored,
        Err(refusal) => return Err(folder_status(refusal)),
    };
    Ok(report_of(alloc, &restored)?)
}
