//! Workers log their shares over a keeper: a path is opened, its seats are given to them, they
//! commit in threads, each seat has the log synced at the end, and the path is closed. In batch
//! mode a marker stands between each two entries of one writer that are lasting, whatever was
//! refused.
ghost use Rattle.std.specs.Prelude.{◌≡◌, ◌<◌, ◌≤◌, ◌^◌, ℕ, List, [], None, Some, IfErr, IfOk};
ghost use Rattle.std.specs.Prelude.{IsSome, is_some, vec_capacity};
ghost use Rattle.clog_spec.specs.Sizes.{most_tables};
ghost use Rattle.clog_mutation.specs.declared.mutation.Mutation.{Mutation};
ghost use Rattle.clog_shares.specs.Crews.{AreDealt, IsOpenFor};
ghost use Rattle.clog_writers.specs.Logged.{EndsShares};
ghost use Rattle.path_core.specs.Keeper.{Holding, IsFresh};
ghost use Rattle.clog_closing.specs.Gaps.{StandApart};
ghost use Rattle.sync_core.specs.declared.SyncCore.TheVariants.{Batch};
ghost use Rattle.write_path.specs.Opened.{AreNew, ShowsAsBefore, sized_for};

use clog_base::{OutOfMemory, Sizes};
use clog_io::{Clock, Gate};
use clog_shares::{Syncing, Worker, WriteFault, commit_all, end_all, seat_all};
use path_core::Keeper;
use std::alloc::Global;
use std::sync::Wait;
use std::thread::Threads;
use sync_core::SyncCore;
use write_path::{PathSeat, WritePath};

// Opens a path, for table files where its writers flush.
fn open_for<K: Keeper + Drop>(
    alloc: Global,
    keeper: K,
    sizes: Sizes,
    flush_at: Option<u32>,
    base: u64,
    mode: SyncCore,
) -> Result<WritePath<K, Global>, (K, OutOfMemory)>
    requires fresh { IsFresh base sizes (K.holds keeper) }
    requires base { base < 2 ^ 62 }
    ensures opened { IfOk result (λ p. (IsSome p.opener)
        × (p.table.size ≡ sized_for (is_some flush_at) sizes base (K.holds keeper).at_open)
        × (p.mode ≡ mode)) }
    ensures first { IfOk result (λ p. p.table.table.shared.key.first.value ≡ keeper) }
    ensures back { IfErr result (λ r. ShowsAsBefore (K.holds keeper) (K.holds r.0)) }
{
    match flush_at {
        Some(_) => WritePath::open_filing(alloc, keeper, sizes, base, mode),
        None => WritePath::open(alloc, keeper, sizes, base, mode),
    }
}

// Workers log their shares over an open path, whose seats are handed out; then it is closed.
fn run_crew<R: Threads + Wait + Sync, K: Keeper + Send + Drop, G: Gate + Sync, C: Clock + Sync>(
    rt: &R,
    alloc: Global,
    path: WritePath<K, Global>,
    sizes: Sizes,
    syncing: Syncing,
    flush_at: Option<u32>,
    gate: &G,
    clock: &C,
    workers: Vec<Worker<K>>,
    handed: Vec<PathSeat<K>>,
    room: Vec<PathSeat<K>>,
) -> (K, Option<WriteFault>)
    requires open { (base : ℕ) × IsOpenFor sizes flush_at base path.table.size }
    requires seats { AreNew path.table.table.shared.table_id path.table.size path.table.size.seats
        handed.items }
    requires made { path.opener ≡ None }
    requires mode { path.mode ≡ syncing.mode }
    requires tables { sizes.tables ≡ most_tables }
    requires dealt { (mutations : List Mutation) × AreDealt sizes flush_at mutations workers.items }
    requires some { (most : ℕ) → flush_at ≡ Some most → 1 ≤ most }
    requires room { sizes.writers ≤ vec_capacity room }
    requires void { room.items ≡ [] }
    ensures ends { (base : ℕ) (before : Holding) → IsOpenFor sizes flush_at base path.table.size
        → K.holds path.table.table.shared.key.first.value ≡ before → IsFresh base sizes before
        → EndsShares sizes flush_at base before (K.holds result.0) workers.items result.1 }
    ensures apart { path.mode ≡ Batch → StandApart sizes.capacity (K.holds result.0).logged }
{
    let mut workers = workers;
    let mut seats = room;
    seat_all(&path, sizes, workers.as_mut_slice(), handed);
    commit_all(
        rt,
        alloc,
        &path,
        sizes,
        syncing,
        flush_at,
        gate,
        clock,
        workers.as_mut_slice(),
    );
    let fault = end_all(rt, alloc, &path, workers, &mut seats);
    let (keeper, _end) = path.close(rt, alloc, seats);
    (keeper, fault)
}

/// Logs the lines that were dealt out to workers, over a keeper that was just opened. There is room
/// for a seat of each. With `flush_at` each worker flushes a table whenever it has logged so many
/// updates of it since its last flush, at least one; else the keeper does nothing beside its log,
/// whatever is refused. The gate is told how far each commit is; in periodic mode the clock is
/// asked behind each one. The first fault of a worker ends the run: each other one stops behind its
/// commit in hand.
pub fn log_shares<
    R: Threads + Wait + Sync,
    K: Keeper + Send + Drop,
    G: Gate + Sync,
    C: Clock + Sync,
>(
    rt: &R,
    alloc: Global,
    keeper: K,
    sizes: Sizes,
    syncing: Syncing,
    flush_at: Option<u32>,
    gate: &G,
    clock: &C,
    base: u64,
    workers: Vec<Worker<K>>,
    room: Vec<PathSeat<K>>,
) -> (K, Option<WriteFault>)
    requires fresh { IsFresh base sizes (K.holds keeper) }
    requires base { base < 2 ^ 62 }
    requires tables { sizes.tables ≡ most_tables }
    requires dealt { (mutations : List Mutation) × AreDealt sizes flush_at mutations workers.items }
    requires some { (most : ℕ) → flush_at ≡ Some most → 1 ≤ most }
    requires room { sizes.writers ≤ vec_capacity room }
    requires void { room.items ≡ [] }
    ensures ends { EndsShares sizes flush_at base (K.holds keeper) (K.holds result.0) workers.items
        result.1 }
    ensures apart { syncing.mode ≡ Batch → StandApart sizes.capacity (K.holds result.0).logged }
{
    let mut path = match open_for(alloc, keeper, sizes, flush_at, base, syncing.mode) {
        Ok(path) => path,
        Err((keeper, OutOfMemory)) => return (keeper, Some(WriteFault::OutOfMemory)),
    };
    match path.seats(alloc) {
        Ok(handed) => run_crew(
            rt, alloc, path, sizes, syncing, flush_at, gate, clock, workers, handed, room,
        ),
        Err(_) => {
            let (keeper, _end) = path.close(rt, alloc, room);
            (keeper, Some(WriteFault::OutOfMemory))
        }
    }
}
