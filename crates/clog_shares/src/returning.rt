//! The seats of a crew's workers come back, each behind a last sync of the log, and with them why
//! lines were not all logged.
ghost use Rattle.std.specs.Prelude.{◌≡◌, ◌≤◌, ℕ, List, [], length, Contains, Option, vec_capacity};
ghost use Rattle.clog_mutation.specs.declared.mutation.Mutation.{Mutation};
ghost use Rattle.clog_applied.specs.History.{Line};
ghost use Rattle.clog_shares.specs.Crews.{HasEnded, HasLogged, HaveEnded, HaveLogged, KnowsWhy};
ghost use Rattle.clog_shares.specs.Sealing.{HasWaited, HaveWaited, WaitShares, WaitsShare};
ghost use Rattle.clog_shares.specs.Shares.{LacksMemoryAtMost};

use crate::fault::{WriteFault, first_of, refusal_of};
use crate::worker::Worker;
use path_core::Keeper;
use std::alloc::Global;
use std::sync::Wait;
use write_path::{PathSeat, WritePath};

// Syncs the log behind a worker's share, and gives its seat back.
fn end_share<R: Wait, K: Keeper + Drop>(
    rt: &R,
    alloc: Global,
    path: &WritePath<K, Global>,
    worker: Worker<K>,
) -> (PathSeat<K>, Option<WriteFault>)
    requires { (flush : Option ℕ) × (number : ℕ) × (lines : List Line)
        × HasLogged path.now.table.table.shared.table_id path.now.table.size flush number lines
        worker }
    ensures ends { (flush : Option ℕ) (number : ℕ) (lines : List Line)
        → HasLogged path.now.table.table.shared.table_id path.now.table.size flush number lines
        worker
        → HasEnded path.now.table.table.shared.table_id path.now.table.size flush number lines
        result.1 result.0 }
    ensures why { (flush : Option ℕ) (number : ℕ) (lines : List Line)
        → HasLogged path.now.table.table.shared.table_id path.now.table.size flush number lines
        worker
        → KnowsWhy path.now.table.size result.1 result.0 }
    ensures waited { WaitsShare worker → HasWaited result.0 }
    ensures cause { LacksMemoryAtMost result.1 → LacksMemoryAtMost worker.fault }
{
    let Worker {
        seat,
        writes: _,
        counts: _,
        fault,
    } = worker;
    match seat {
        Some(seat) => {
            let (seat, answer) = path.sync(rt, alloc, seat);
            (seat, first_of(fault, refusal_of(answer)))
        }
        None => unreachable!(),
    }
}

/// Syncs the log behind all shares, and gives the seats back, in order. It takes no memory. It
/// tells the first fault in the order of the workers; but want of memory, which those tell that
/// have stopped for the fault of another one, only where no worker has another fault.
pub fn end_all<R: Wait, K: Keeper + Drop>(
    rt: &R,
    alloc: Global,
    path: &WritePath<K, Global>,
    workers: Vec<Worker<K>>,
    seats: &mut Vec<PathSeat<K>>,
) -> Option<WriteFault>
    requires logged { (flush : Option ℕ) × (mutations : List Mutation)
        × HaveLogged path.now.table.table.shared.table_id path.now.table.size flush mutations
        workers.items }
    requires room { length workers.items ≤ vec_capacity seats.old }
    requires none { seats.old.items ≡ [] }
    ensures ended { (flush : Option ℕ) (mutations : List Mutation)
        → HaveLogged path.now.table.table.shared.table_id path.now.table.size flush mutations
        workers.items
        → HaveEnded path.now.table.table.shared.table_id path.now.table.size flush mutations result
        seats.new.items }
    ensures waited { WaitShares workers.items → HaveWaited seats.new.items }
    ensures cause { LacksMemoryAtMost result → (worker : Worker K)
        → Contains workers.items worker → LacksMemoryAtMost worker.fault }
{
    let mut first = None;
    for worker in workers {
        let (seat, fault) = end_share(rt, alloc, path, worker);
        first = first_of(first, fault);
        if seats.push(seat).is_err() {
            unreachable!()
        }
    }
    first
}
