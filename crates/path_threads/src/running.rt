//! One run of writers over a keeper: the path is opened, the writers prepare their writes and
//! commit them in threads, and the path is closed.
ghost use Rattle.std.specs.Prelude.{◌≡◌, ◌<◌, ◌^◌, IfOk, IsSome, OnOk};
ghost use Rattle.path_core.specs.Keeper.{IsFresh};
ghost use Rattle.path_threads.specs.Crews.{AreCrew, AreReady, IsSizedAs};
ghost use Rattle.write_path.specs.Opened.{AreNew};

use crate::answered::Answered;
use crate::crew::{commit_all, crew_of, prepare_all, seats_of};
use crate::plan::Plan;
use crate::worker::Worker;
use anyhow::{Result, bail};
use clog_base::{OutOfMemory, Sizes};
use path_core::Keeper;
use std::alloc::Global;
use std::sync::Wait;
use std::thread::Threads;
use std::time::{Clock, Instant};
use write_path::{PathSeat, Receipt, WritePath};

/// What a run of writers came to.
#[derive(Drop)]
pub struct Ran {
    /// How the commits and the syncs were answered.
    pub answered: Answered,
    /// The receipts of the commits.
    pub receipts: Vec<Receipt>,
    /// How long preparing the writes took, from the first to the end of the last, in nanoseconds.
    pub preparing: u128,
    /// How long the commits took, with the syncs among them, in nanoseconds.
    pub committing: u128,
}

// All answers together.
fn answered_by<K>(workers: &[Worker<K>]) -> Answered {
    let mut sum = Answered::new();
    for worker in workers {
        sum.add(&worker.answered);
    }
    sum
}

// All receipts together.
fn receipts_of<K>(alloc: Global, workers: &[Worker<K>]) -> Result<Vec<Receipt>, OutOfMemory> {
    let mut receipts = Vec::new(alloc);
    for worker in workers {
        receipts.extend_from_slice(worker.receipts.as_slice())?;
    }
    Ok(receipts)
}

// Whether each has a write for each of so many lines.
fn have_writes<K>(workers: &[Worker<K>], lines: u32) -> bool {
    for worker in workers {
        if worker.writes.len() != lines as usize {
            return false;
        }
    }
    true
}

/// The sizes of a path of so many writers by a plan.
pub fn sizes_of(writers: u8, plan: Plan) -> Result<Sizes>
    ensures { IfOk result (λ s. s.tables ≡ 16) }
{
    match Sizes::make(16, writers, plan.capacity, 2147483647) {
        Some(sizes) => Ok(sizes),
        None => bail!("no such sizes"),
    }
}

/// A path in a plan's mode over a keeper of this base that was just opened.
pub fn open_path<K: Keeper + Drop>(
    alloc: Global,
    keeper: K,
    base: u64,
    sizes: Sizes,
    plan: Plan,
) -> Result<WritePath<K, Global>>
    requires fresh { IsFresh base sizes (K.holds keeper) }
    requires base { base < 2 ^ 62 }
    ensures opened { IfOk result (λ p. IsSome p.opener) }
    ensures sized { IfOk result (λ p. IsSizedAs p.table.size sizes) }
{
    match WritePath::open(alloc, keeper, sizes, base, plan.mode) {
        Ok(path) => Ok(path),
        Err(_) => bail!("no memory for a path"),
    }
}

// Writers for all seats with their writes, and how long these took.
fn prepared_crew<R: Threads + Clock + Sync, K: Keeper + Send + Drop>(
    rt: &R,
    alloc: Global,
    path: &WritePath<K, Global>,
    sizes: Sizes,
    plan: Plan,
    seats: Vec<PathSeat<K>>,
) -> Result<(Vec<Worker<K>>, u128)>
    requires tables { sizes.tables ≡ 16 }
    requires seats { AreNew path.now.table.table.shared.table_id path.now.table.size
        path.now.table.size.seats seats.items }
    ensures { IfOk result (λ r. AreReady path.now.table.table.shared.table_id
        path.now.table.size sizes r.0.items) }
{
    let Ok(mut workers) = crew_of(path, alloc, seats) else {
        bail!("no memory for writers");
    };
    let begun = Instant::now(rt)?;
    prepare_all(rt, alloc, sizes, plan, workers.as_mut_slice());
    let nanos = begun.elapsed(rt)?.as_nanos();
    if !have_writes(workers.as_slice(), plan.lines) {
        bail!("no memory for the writes");
    }
    Ok((workers, nanos))
}

// The writers commit all their writes. Answers how long that took.
fn commit_timed<R: Threads + Wait + Clock + Sync, K: Keeper + Send>(
    rt: &R,
    alloc: Global,
    path: &WritePath<K, Global>,
    sizes: Sizes,
    plan: Plan,
    workers: &mut [Worker<K>],
) -> Result<u128>
    requires sized { IsSizedAs path.now.table.size sizes }
    requires ready { AreReady path.now.table.table.shared.table_id path.now.table.size sizes
        workers.old }
    ensures { OnOk result (AreCrew path.now.table.table.shared.table_id path.now.table.size
        workers.new) }
{
    let begun = Instant::now(rt)?;
    commit_all(rt, alloc, path, sizes, plan, workers);
    Ok(begun.elapsed(rt)?.as_nanos())
}

/// Writers commit by a plan over a path whose seats were not handed out, in threads, and the path
/// is closed. Gives its keeper back.
pub fn run_path<R: Threads + Wait + Clock + Sync, K: Keeper + Send + Drop>(
    rt: &R,
    alloc: Global,
    path: WritePath<K, Global>,
    sizes: Sizes,
    plan: Plan,
) -> Result<(Ran, K)>
    requires tables { sizes.tables ≡ 16 }
    requires opened { IsSome path.opener }
    requires sized { IsSizedAs path.table.size sizes }
{
    let mut path = path;
    let Ok(seats) = path.seats(alloc) else {
        bail!("no memory for seats");
    };
    let (mut workers, preparing) = prepared_crew(rt, alloc, &path, sizes, plan, seats)?;
    let committing = commit_timed(rt, alloc, &path, sizes, plan, workers.as_mut_slice())?;
    let answered = answered_by(workers.as_slice());
    let Ok(receipts) = receipts_of(alloc, workers.as_slice()) else {
        bail!("no memory for receipts");
    };
    let Ok(seats) = seats_of(&path, alloc, workers) else {
        bail!("no memory for seats");
    };
    let (keeper, _outcome) = path.close(rt, alloc, seats);
    let ran = Ran {
        answered,
        receipts,
        preparing,
        committing,
    };
    Ok((ran, keeper))
}
