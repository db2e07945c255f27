//! The seats of a path are given to workers, and all workers commit their shares in threads. The
//! first fault of a worker ends the run: the others stop behind their commits in hand.
ghost use Rattle.std.specs.Prelude.{◌≡◌, ℕ, ◌≤◌, List, Option, Some, IsSome, true};
ghost use Rattle.clog_spec.specs.Sizes.{most_tables};
ghost use Rattle.clog_mutation.specs.declared.mutation.Mutation.{Mutation};
ghost use Rattle.clog_applied.specs.History.{Line};
ghost use Rattle.clog_shares.specs.Crews.{AreDealt, AreReady, HasLogged, HaveLogged, IsReady};
ghost use Rattle.clog_shares.specs.Crews.{IsSizedAs};
ghost use Rattle.clog_shares.specs.Sealing.{WaitShares, WaitsShare};
ghost use Rattle.clog_shares.specs.Timed.{TimeShares, TimesShare};
ghost use Rattle.sync_core.specs.declared.SyncCore.TheVariants.{Batch, Periodic};
ghost use Rattle.write_path.specs.Opened.{AreNew};

use crate::run::Run;
use crate::share::commit_share;
use crate::stop_flag::StopFlag;
use crate::syncing::Syncing;
use crate::worker::Worker;
use clog_base::Sizes;
use clog_io::{Clock, Gate};
use path_core::Keeper;
use std::alloc::Global;
use std::sync::Wait;
use std::thread;
use std::thread::Threads;
use write_path::{PathSeat, WritePath};

// Gives a worker its seat.
fn take_seat<K: Keeper + Drop>(worker: &mut Worker<K>, seat: PathSeat<K>)
    ensures seat { worker.new.seat ≡ Some seat }
    ensures writes { worker.new.writes ≡ worker.old.writes }
    ensures counts { worker.new.counts ≡ worker.old.counts }
{
    worker.seat = Some(seat);
}

/// Gives each worker its seat.
pub fn seat_all<K: Keeper + Drop>(
    path: &WritePath<K, Global>,
    sizes: Sizes,
    workers: &mut [Worker<K>],
    seats: Vec<PathSeat<K>>,
)
    requires sized { IsSizedAs path.now.table.size sizes }
    requires seats { AreNew path.now.table.table.shared.table_id path.now.table.size
        path.now.table.size.seats seats.items }
    requires dealt { (flush : Option ℕ) × (mutations : List Mutation)
        × AreDealt sizes flush mutations workers.old }
    ensures { (flush : Option ℕ) (mutations : List Mutation)
        → AreDealt sizes flush mutations workers.old
        → AreReady path.now.table.table.shared.table_id path.now.table.size sizes flush mutations
        workers.new }
{
    let mut seats = seats;
    while let Some(seat) = seats.pop() {
        let number = seats.len();
        take_seat(&mut workers[number], seat);
    }
}

/// Each worker commits its share in a thread of its own, where one can be started. In periodic mode
/// each asks the clock behind each of its writes, and its first period runs from the opening. Once
/// one has a fault, each other one stops behind its commit in hand. Where the workers flush, they
/// do so at one update of a table or more.
pub fn commit_all<'a, R: Threads + Wait + Sync, K: Keeper + Send, G: Gate + Sync, C: Clock + Sync>(
    rt: &R,
    alloc: Global,
    path: &'a WritePath<K, Global>,
    sizes: Sizes,
    syncing: Syncing,
    flush_at: Option<u32>,
    gate: &'a G,
    clock: &'a C,
    workers: &mut [Worker<K>],
)
    requires sized { IsSizedAs path.now.table.size sizes }
    requires ready { (mutations : List Mutation)
        × AreReady path.now.table.table.shared.table_id path.now.table.size sizes flush_at
        mutations workers.old }
    requires mode { path.now.mode ≡ syncing.mode }
    requires tables { sizes.tables ≡ most_tables }
    requires files { IsSome flush_at → path.now.table.size.files ≡ true }
    requires some { (most : ℕ) → flush_at ≡ Some most → 1 ≤ most }
    ensures logged { (mutations : List Mutation)
        → AreReady path.now.table.table.shared.table_id path.now.table.size sizes flush_at
        mutations workers.old
        → HaveLogged path.now.table.table.shared.table_id path.now.table.size flush_at mutations
        workers.new }
    ensures waited { path.now.mode ≡ Batch → WaitShares workers.new }
    ensures timed { (period : ℕ) → syncing.mode ≡ Periodic period
        → TimeShares (C.tells clock.now) syncing.mode syncing.since_ms workers.new }
{
    let run = Run {
        path,
        sizes,
        syncing,
        flush_at,
        gate,
        clock,
        stop_flag: StopFlag::new(),
    };
    thread::for_each_mut(
        rt,
        workers,
        64,
        &|_place, worker: &mut Worker<K>|
            requires { let t = run.path.now.table in (number : ℕ) × (lines : List Line)
                × IsReady t.table.shared.table_id t.size run.sizes run.flush_at number lines
                worker.old }
            ensures { let t = run.entry.path.now.table in
                ((number : ℕ) (lines : List Line)
                → IsReady t.table.shared.table_id t.size run.entry.sizes run.entry.flush_at number
                lines worker.old
                → HasLogged t.table.shared.table_id t.size run.entry.flush_at number lines
                worker.new)
                × (run.entry.syncing.mode ≡ Batch → WaitsShare worker.new)
                × ((period : ℕ) → run.entry.syncing.mode ≡ Periodic period
                → TimesShare (C.tells run.entry.clock.now) run.entry.syncing.mode
                run.entry.syncing.since_ms worker.new) }
        { commit_share(rt, alloc, &run, worker) },
    );
}
