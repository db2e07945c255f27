//! Lines are logged by writers over a disk in memory, for several tests.
ghost use Rattle.std.specs.List.{AllByRecursion};
ghost use Rattle.clog_mutation.specs.Limits.{IsWithinLimits};

use clog_base::Sizes;
use clog_disk::MemDisk;
use clog_io::{FixedClock, OpenGate};
use clog_mutation::Mutation;
use clog_store::Store;
use clog_writers::{Syncing, make_plan, write_plan};
use std::alloc::Global;
use std::sync::Wait;
use std::test::Fail;
use std::thread::Threads;
use sync_core::SyncCore;
use write_path::Receipt;

/// By how many writers lines are logged, in which mode and to segments of which capacity, and
/// whether these are drained and get archive names.
#[derive(Clone, Copy)]
pub(crate) struct Way {
    pub(crate) writers: u8,
    pub(crate) mode: SyncCore,
    pub(crate) capacity: u32,
    pub(crate) archives: bool,
    pub(crate) drain: bool,
}

// Writers log lines to an empty disk, and flush none. It is opened at 1000 ms, and the clock stands
// at 1010 ms.
pub(crate) fn logged<R: Threads + Wait + Sync>(
    rt: &R,
    alloc: Global,
    way: Way,
    lines: Vec<Mutation>,
) -> Result<(MemDisk, Vec<Receipt>), Fail>
    requires { AllByRecursion IsWithinLimits lines.items }
{
    let Some(sizes) = Sizes::make(16, way.writers, way.capacity, 2147483647) else {
        return Err(Fail::new("no sizes"));
    };
    if lines.len() > 1000 {
        return Err(Fail::new("many lines"));
    }
    let Ok(store) = Store::open(alloc, MemDisk::new(alloc), 1000, sizes, way.archives) else {
        return Err(Fail::new("no store"));
    };
    let Ok(plan) = make_plan(rt, alloc, sizes, None, lines) else {
        return Err(Fail::new("no plan"));
    };
    let syncing = Syncing {
        mode: way.mode,
        since_ms: 1000,
    };
    let gate = OpenGate::new();
    let clock = FixedClock::new(1010);
    match write_plan(
        rt, alloc, store, sizes, syncing, &gate, &clock, plan, None, way.drain,
    ) {
        (disk, Ok(receipts)) => Ok((disk, receipts)),
        (_, Err(_)) => Err(Fail::new("not written")),
    }
}
