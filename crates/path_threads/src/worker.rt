//! A writer in its thread: it commits the writes of its share, one after another.
ghost use Rattle.std.specs.Prelude.{◌≡◌, Some};
ghost use Rattle.path_threads.specs.Crews.{AreWrites, IsSeated, IsSizedAs, IsWrite, number_of};

use crate::answered::{Answered, receipt_of};
use crate::plan::Plan;
use clog_base::Sizes;
use clog_io::OpenGate;
use path_core::Keeper;
use std::alloc::Global;
use std::mem;
use std::sync::Wait;
use write_path::{MOST_ISSUED, PathSeat, Prepared, Receipt, WritePath};

/// A writer: its seat between two commits, its writes, and how its commits were answered.
#[derive(Drop)]
pub struct Worker<K> {
    /// Its seat, which it has but while it commits.
    pub seat: Option<PathSeat<K>>,
    /// The writes of its lines that are to come, in order.
    pub writes: Vec<Prepared>,
    /// The answers so far.
    pub answered: Answered,
    /// The receipts so far, in order. One for which there was no memory is missing.
    pub receipts: Vec<Receipt>,
}

impl<K> Worker<K> {
    /// A writer with a seat, which has no writes yet.
    pub fn new(alloc: Global, seat: PathSeat<K>) -> Worker<K>
        ensures { result.seat ≡ Some seat }
    {
        Worker {
            seat: Some(seat),
            writes: Vec::new(alloc),
            answered: Answered::new(),
            receipts: Vec::new(alloc),
        }
    }
}

// Commits a write.
fn commit_write<R: Wait, K: Keeper>(
    rt: &R,
    alloc: Global,
    path: &WritePath<K, Global>,
    sizes: Sizes,
    write: Prepared,
    worker: &mut Worker<K>,
)
    requires sized { IsSizedAs path.now.table.size sizes }
    requires write { IsWrite sizes write }
    requires seated { IsSeated path.now.table.table.shared.table_id path.now.table.size worker.old }
    ensures seated { IsSeated path.now.table.table.shared.table_id path.now.table.size worker.new }
    ensures number { number_of worker.new ≡ number_of worker.old }
{
    if let Some(seat) = worker.seat.take() {
        if seat.issued() > MOST_ISSUED {
            worker.seat = Some(seat);
            worker.answered.count_unasked();
            return;
        }
        let (seat, commit) = path.commit(rt, alloc, seat, write, &OpenGate::new());
        worker.seat = Some(seat);
        worker.answered.count(&commit);
        if let Some(receipt) = receipt_of(&commit) {
            let _kept = worker.receipts.push(receipt);
        }
    }
}

// Syncs the log.
fn sync_log<R: Wait, K: Keeper>(
    rt: &R,
    alloc: Global,
    path: &WritePath<K, Global>,
    worker: &mut Worker<K>,
)
    requires { IsSeated path.now.table.table.shared.table_id path.now.table.size worker.old }
    ensures seated { IsSeated path.now.table.table.shared.table_id path.now.table.size worker.new }
    ensures number { number_of worker.new ≡ number_of worker.old }
{
    if let Some(seat) = worker.seat.take() {
        if seat.issued() > MOST_ISSUED {
            worker.seat = Some(seat);
            worker.answered.count_unasked();
            return;
        }
        let (seat, answer) = path.sync(rt, alloc, seat);
        worker.seat = Some(seat);
        worker.answered.count_sync(&answer);
    }
}

// Commits the write at a place, from 0, of a writer's share, and syncs where one is due behind it.
fn commit_place<R: Wait, K: Keeper>(
    rt: &R,
    alloc: Global,
    path: &WritePath<K, Global>,
    sizes: Sizes,
    plan: Plan,
    place: u32,
    write: Prepared,
    worker: &mut Worker<K>,
)
    requires sized { IsSizedAs path.now.table.size sizes }
    requires write { IsWrite sizes write }
    requires seated { IsSeated path.now.table.table.shared.table_id path.now.table.size worker.old }
    ensures seated { IsSeated path.now.table.table.shared.table_id path.now.table.size worker.new }
    ensures number { number_of worker.new ≡ number_of worker.old }
{
    commit_write(rt, alloc, path, sizes, write, worker);
    if plan.is_due_behind(place) {
        sync_log(rt, alloc, path, worker);
    }
}

// Commits writes, one after another.
fn commit_writes<R: Wait, K: Keeper>(
    rt: &R,
    alloc: Global,
    path: &WritePath<K, Global>,
    sizes: Sizes,
    plan: Plan,
    writes: Vec<Prepared>,
    worker: &mut Worker<K>,
)
    requires sized { IsSizedAs path.now.table.size sizes }
    requires writes { AreWrites sizes writes.items }
    requires seated { IsSeated path.now.table.table.shared.table_id path.now.table.size worker.old }
    ensures seated { IsSeated path.now.table.table.shared.table_id path.now.table.size worker.new }
    ensures number { number_of worker.new ≡ number_of worker.old }
{
    let mut place = 0u32;
    for write in writes {
        commit_place(rt, alloc, path, sizes, plan, place, write, worker);
        place = place.wrapping_add(1);
    }
}

/// Commits a writer's writes by a plan, in order, and syncs behind the last, where the plan syncs.
pub fn commit_share<R: Wait, K: Keeper>(
    rt: &R,
    alloc: Global,
    path: &WritePath<K, Global>,
    sizes: Sizes,
    plan: Plan,
    worker: &mut Worker<K>,
)
    requires sized { IsSizedAs path.now.table.size sizes }
    requires writes { AreWrites sizes worker.old.writes.items }
    requires seated { IsSeated path.now.table.table.shared.table_id path.now.table.size worker.old }
    ensures seated { IsSeated path.now.table.table.shared.table_id path.now.table.size worker.new }
    ensures number { number_of worker.new ≡ number_of worker.old }
{
    let writes = mem::replace(&mut worker.writes, Vec::new(alloc));
    commit_writes(rt, alloc, path, sizes, plan, writes, worker);
    if plan.sync_after > 0 {
        sync_log(rt, alloc, path, worker);
    }
}
