//! What is made for a file's lines before the first of them is written.
ghost use Rattle.std.specs.Prelude.{◌≡◌, ◌<◌, ◌^◌, length};
ghost use Rattle.std.specs.List.{AllByRecursion};
ghost use Rattle.clog_spec.specs.Sizes.{most_tables};
ghost use Rattle.clog_mutation.specs.Limits.{IsWithinLimits};
ghost use Rattle.clog_shares.specs.Planned.{PlansAll};

use crate::dealing::deal;
use crate::fault::PlanFault;
use crate::worker::Worker;
use clog_base::{Position, Sizes};
use clog_mutation::Mutation;
use path_core::Keeper;
use std::alloc::Global;
use std::thread::Threads;
use write_path::{PathSeat, Receipt};

/// Workers with their shares of lines, room for their seats, and a place for the receipt of each
/// line.
#[derive(Drop)]
pub struct Plan<K> {
    /// The workers, each with the writes of its share.
    pub workers: Vec<Worker<K>>,
    /// Room for a seat of each.
    pub room: Vec<PathSeat<K>>,
    /// A place for the receipt of each line.
    pub receipts: Vec<Receipt>,
}

/// Takes the memory of the lines' writes and receipts; the path's, the syncs' and a drain's come
/// later. `TooLarge`: of all lines this is the first whose entry is larger than half a segment's
/// capacity (`CommitLog.add`). With `flush_at` the updates of each line are counted for writers
/// that flush. As many threads as there are processors, at most 8, prepare the writes.
pub fn make_plan<T: Threads + Sync, K: Keeper + Drop>(
    rt: &T,
    alloc: Global,
    sizes: Sizes,
    flush_at: Option<u32>,
    mutations: Vec<Mutation>,
) -> Result<Plan<K>, PlanFault>
    requires few { length mutations.items < 2 ^ 32 }
    requires within { AllByRecursion IsWithinLimits mutations.items }
    requires tables { sizes.tables ≡ most_tables }
    ensures { PlansAll sizes flush_at mutations.items result }
{
    let none = Receipt {
        line: 0,
        position: Position { id: 0, offset: 0 },
    };
    let receipts = vec![in alloc; none; mutations.len()]?;
    let room = Vec::with_capacity(alloc, usize::from(sizes.writers))?;
    let workers = deal(rt, alloc, sizes, flush_at, mutations)?;
    Ok(Plan {
        workers,
        room,
        receipts,
    })
}
