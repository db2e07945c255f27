//! The command `drill`: made lines are applied by four writers, in segments of 1024 KiB, and then
//! the folder is replayed by four workers and told in numbers. The lines go the way of those of a
//! mutation file, and each writer flushes a table once it has logged 1000 updates of it since its
//! last flush; no number that is told depends on it.
ghost use Rattle.std.specs.Prelude.{◌≡◌, ◌≤◌, ℕ, List, length, Option, is_some};
ghost use Rattle.clog_spec.specs.Sizes.{most_tables};
ghost use Rattle.clog_folder.specs.Passing.{IsUntouched};
ghost use Rattle.clog_mutation.specs.declared.mutation.Mutation.{Mutation as Line};
ghost use Rattle.clog_engine.specs.Drill.{Drills, PlansMade, TellsFolder};
ghost use Rattle.clog_engine.specs.Drill.{drill_options as options_of_drill, updates_of};
ghost use Rattle.clog_engine.specs.Outside.{outside_with};
ghost use Rattle.clog_engine.specs.Quiet.{IsRefusedBefore, TellsEach};
ghost use Rattle.clog_engine.specs.Request.{IsDoable};

use crate::printing::Report;
use crate::refusal::folder_status;
use crate::shares::{PlannedLines, plan_lines};
use crate::sharing::{apply_shares, disks_leave_now};
use crate::status::Status;
use crate::summary::{count_updates, summary_of};
use crate::words::sizes_of;
use clog_base::Sizes;
use clog_disk::Disk;
use clog_io::{Clock, Gate};
use clog_text::made;
use clog_words::ApplyOptions;
use replay_merge::replay;
use std::alloc::Global;
use std::sync::Wait;
use std::thread::Threads;
use sync_core::SyncCore;

// How many workers replay the folder.
const WORKERS: u8 = 4;

// The options of `apply` by which made lines are applied.
fn drill_options() -> ApplyOptions
    ensures are { result ≡ options_of_drill }
    ensures doable { IsDoable result }
{
    ApplyOptions {
        writers: 4,
        sync: SyncCore::Periodic { period_ms: 10_000 },
        segment_kib: 1024,
        flush_at: Some(1000),
        archive: false,
        receipts: false,
        drain: false,
        dump: false,
    }
}

// Makes lines and plans them, and counts their updates. Each line fits.
fn plan_made<T: Threads + Sync, D: Disk + Drop>(
    rt: &T,
    alloc: Global,
    sizes: Sizes,
    flush_at: Option<u32>,
    seed: u32,
    count: u32,
) -> Result<(PlannedLines<D>, u64), Status>
    requires count { count ≤ 1000000 }
    requires tables { sizes.tables ≡ most_tables }
    requires capacity { sizes.capacity ≡ 1048576 }
    ensures { PlansMade sizes flush_at seed count result }
{
    let mutations = made(alloc, seed, count)?;
    let updates = count_updates(mutations.as_slice())?;
    // A match in place of `?`, since the exit speaks of the made lines.
    match plan_lines(rt, alloc, sizes, flush_at, mutations, false) {
        Ok(lines) => Ok((lines, updates)),
        Err(status) => Err(status),
    }
}

// Replays the folder, and tells it and so many lines in numbers.
fn tell_folder<T: Threads + Wait + Sync, D: Disk, G: Gate + Sync>(
    rt: &T,
    alloc: Global,
    lines: u32,
    updates: u64,
    disk: &mut D,
    gate: &G,
) -> Result<Report, Status>
    ensures tells { (mutations : List Line) → lines ≡ length mutations
        → updates ≡ updates_of mutations
        → TellsFolder mutations (D.files disk.old) (D.faults disk.old) (D.faults disk.new) result }
    ensures keeps { IsUntouched D.files D.changes D.leaves D.moment D.since D.read_at D.lasted_at
        D.faults disk.old disk.new }
    ensures quiet { TellsEach (D.faults disk.old) (D.faults disk.new) result }
{
    let restored = match replay(rt, alloc, disk, WORKERS, false, gate) {
        Ok(restored) => restored,
        Err(refusal) => return Err(folder_status(refusal)),
    };
    Ok(summary_of(alloc, lines, updates, &restored.cells)?)
}

// A disk tells its changes where it tells its files. The law is for contracts alone.
fn disks_tell_both<D: Disk>(_disk: &D)
    ensures { (d : D) → is_some (D.changes d) ≡ is_some (D.files d) }
{}

/// Applies made lines to the disk, and tells them and what the folder restores to in numbers. Where
/// the folder is not refused before, the clock is asked at its opening and behind each line.
pub(crate) fn drill<
    T: Threads + Wait + Sync,
    D: Disk + Send + Drop,
    C: Clock + Sync,
    G: Gate + Sync,
>(
    rt: &T,
    alloc: Global,
    seed: u32,
    count: u32,
    disk: D,
    clock: &C,
    gate: &G,
) -> (D, Result<Report, Status>)
    requires { count ≤ 1000000 }
    ensures drills { (left left_now : Option (List ℕ)) (f g : ℕ) → Drills seed count
        (outside_with left left_now f g D.Disk C.Clock disk result.0 clock.now) result.1 }
    ensures quiet { TellsEach (D.faults disk) (D.faults result.0) result.1 }
    ensures called { IsRefusedBefore result.1 → ⊥ }
{
    disks_leave_now(&disk);
    disks_tell_both(&disk);
    let options = drill_options();
    let sizes = sizes_of(&options);
    let (lines, updates) = match plan_made(rt, alloc, sizes, options.flush_at, seed, count) {
        Ok(made) => made,
        Err(status) => return (disk, Err(status)),
    };
    let (disk, outcome) = apply_shares(rt, alloc, options, sizes, lines, disk, clock, gate);
    match outcome {
        Ok(_applied) => {
            let mut disk = disk;
            let told = tell_folder(rt, alloc, count, updates, &mut disk, gate);
            (disk, told)
        }
        Err(status) => (disk, Err(status)),
    }
}
