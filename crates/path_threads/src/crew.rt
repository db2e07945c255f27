//! All seats of a path are lent to threads, one to each, and come back.
ghost use Rattle.std.specs.Prelude.{◌≡◌, IfOk};
ghost use Rattle.atomic_table.specs.Seated.{TableId};
ghost use Rattle.path_rule.specs.declared.view.PathSize.{PathSize};
ghost use Rattle.path_threads.specs.Crews.{
  AreCrew,
  AreReady,
  AreWrites,
  IsSeated,
  IsSizedAs,
  number_of,
};
ghost use Rattle.write_path.specs.Closed.{AreOf};
ghost use Rattle.write_path.specs.Opened.{AreNew, numbers_of};
ghost use Rattle.std.specs.List.{range_with_len};

use crate::plan::Plan;
use crate::preparing::prepare_share;
use crate::worker::{Worker, commit_share};
use clog_base::{OutOfMemory, Sizes};
use path_core::Keeper;
use std::alloc::Global;
use std::sync::Wait;
use std::thread;
use std::thread::Threads;
use write_path::{PathSeat, WritePath};

/// A writer for each seat.
pub fn crew_of<K: Keeper + Drop>(
    path: &WritePath<K, Global>,
    alloc: Global,
    seats: Vec<PathSeat<K>>,
) -> Result<Vec<Worker<K>>, OutOfMemory>
    requires { AreNew path.now.table.table.shared.table_id path.now.table.size
        path.now.table.size.seats seats.items }
    ensures { IfOk result (λ v. AreCrew path.now.table.table.shared.table_id
        path.now.table.size v.items) }
{
    let mut workers = Vec::new(alloc);
    for seat in seats {
        workers.push(Worker::new(alloc, seat))?;
    }
    Ok(workers)
}

/// Each writer prepares its writes in a thread of its own, where one can be started.
pub fn prepare_all<R: Threads + Sync, K: Keeper + Send>(
    rt: &R,
    alloc: Global,
    sizes: Sizes,
    plan: Plan,
    workers: &mut [Worker<K>],
)
    requires { sizes.tables ≡ 16 }
    ensures { (id : TableId) (size : PathSize) → AreCrew id size workers.old
        → AreReady id size sizes workers.new }
{
    thread::for_each_mut(
        rt,
        workers,
        64,
        &|place, worker: &mut Worker<K>|
            requires { sizes.tables ≡ 16 }
            ensures { (worker.new.seat ≡ worker.old.seat)
                × AreWrites sizes worker.new.writes.items }
        {
            prepare_share(
                alloc,
                sizes,
                plan,
                u32::try_from(place).unwrap_or(u32::MAX),
                worker,
            )
        },
    );
}

/// Each writer commits its writes in a thread of its own, where one can be started.
pub fn commit_all<R: Threads + Wait + Sync, K: Keeper + Send>(
    rt: &R,
    alloc: Global,
    path: &WritePath<K, Global>,
    sizes: Sizes,
    plan: Plan,
    workers: &mut [Worker<K>],
)
    requires sized { IsSizedAs path.now.table.size sizes }
    requires ready { AreReady path.now.table.table.shared.table_id path.now.table.size sizes
        workers.old }
    ensures { AreCrew path.now.table.table.shared.table_id path.now.table.size workers.new }
{
    thread::for_each_mut(
        rt,
        workers,
        64,
        &|_place, worker: &mut Worker<K>|
            requires { IsSizedAs path.now.table.size sizes
                × AreWrites sizes worker.old.writes.items
                × IsSeated path.now.table.table.shared.table_id path.now.table.size worker.old }
            ensures { IsSeated path.entry.now.table.table.shared.table_id
                path.entry.now.table.size worker.new
                × (number_of worker.new ≡ number_of worker.old) }
        { commit_share(rt, alloc, path, sizes, plan, worker) },
    );
}

// The seat that a writer had.
fn seat_of<K>(worker: Worker<K>) -> Option<PathSeat<K>>
    ensures { result ≡ worker.seat }
{
    let Worker {
        seat,
        writes: _,
        answered: _,
        receipts: _,
    } = worker;
    seat
}

/// The seats that the writers had.
pub fn seats_of<K: Keeper + Drop>(
    path: &WritePath<K, Global>,
    alloc: Global,
    workers: Vec<Worker<K>>,
) -> Result<Vec<PathSeat<K>>, OutOfMemory>
    requires { AreCrew path.now.table.table.shared.table_id path.now.table.size workers.items }
    ensures of { IfOk result (λ v. AreOf path.now.table.table.shared.table_id
        path.now.table.size v.items) }
    ensures numbers { IfOk result (λ v. numbers_of v.items
        ≡ range_with_len 0 path.now.table.size.seats) }
{
    let mut seats = Vec::new(alloc);
    for worker in workers {
        if let Some(seat) = seat_of(worker) {
            seats.push(seat)?;
        }
    }
    Ok(seats)
}
