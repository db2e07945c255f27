//! A whole run.
ghost use Rattle.std.specs.Prelude.{◌≡◌, ◌≤◌, IfOk, length};
ghost use Rattle.std.specs.List.{All};
ghost use Rattle.op_order.specs.Owners.{IsOwnerOf};
ghost use Rattle.order_run.specs.Rounds.{AreTotals, IsFresh};

use crate::owner::{publish_all, reclaim_all};
use crate::products::{Products, product};
use crate::readers::read_all;
use clog_base::OutOfMemory;
use op_order::OpOrder;
use std::alloc::Global;
use std::sync::Wait;
use std::thread;
use std::thread::Threads;

/// How many places there are.
pub const PLACES: u16 = 4;

/// What a run comes to.
#[derive(Clone, Copy, Debug, PartialEq, Eq)]
pub struct Totals {
    /// How many values were published after the first.
    pub published: u64,
    /// The last of them.
    pub last: u64,
    /// How many operations the readers made.
    pub reads: u64,
    /// How many places were freed.
    pub freed: u64,
}

/// The owner publishes so many values, and each reader beside it makes as many operations; then the
/// owner takes all places back. No clause says that it returns.
pub fn run_orders<R: Threads + Wait + Sync>(
    rt: &R,
    alloc: Global,
    readers: u8,
    rounds: u32,
) -> Result<Totals, OutOfMemory>
    requires readers { (1 ≤ readers) × (readers ≤ 63) }
    requires rounds { rounds ≤ 1000000 }
    ensures { IfOk result (AreTotals readers rounds) }
{
    let (order, owner, seats) = OpOrder::<Products>::open(alloc, readers, PLACES, 0)?;
    let shared = &order;
    let ((mut owner, begun), done) = thread::join(
        rt,
        ||
            requires { IsOwnerOf shared.now.table.shared.table_id shared.now.places owner
                × (owner.sequence ≡ 0) × (owner.oldest ≡ 0) × (rounds ≤ 1000000) }
        { publish_all(rt, shared, owner, rounds) },
        ||
            requires { All (IsFresh shared.now.table.shared.table_id) seats.items
                × (length seats.items ≤ 63) × (rounds ≤ 1000000) }
        { read_all(rt, alloc, shared, seats, rounds) },
    );
    let (back, reads) = done?;
    let freed = begun + reclaim_all(rt, &order, &mut owner);
    let published = order.close(owner, back);
    Ok(Totals {
        published,
        last: product(published),
        reads,
        freed,
    })
}
