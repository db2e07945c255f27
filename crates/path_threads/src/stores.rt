//! Runs of writers over a store on a disk, and what they left.
use crate::plan::Plan;
use crate::recorder::{Lent, Recorder};
use crate::rereading::read_again;
use crate::running::{Ran, open_path, run_path, sizes_of};
use crate::tally::check;
use anyhow::{Result, bail};
use clog_disk::Disk;
use clog_store::Store;
use std::alloc::Global;
use std::sync::Wait;
use std::thread::Threads;
use std::time::Clock;

/// The id of the first segment, where the folder names none.
pub const BASE: u32 = 1000;

/// So many writers commit by a plan over a store on a disk. What the store is lent is recorded.
pub fn run_recorded<R: Threads + Wait + Clock + Sync, D: Disk + Send + Drop>(
    rt: &R,
    alloc: Global,
    disk: D,
    writers: u8,
    plan: Plan,
) -> Result<(Ran, Lent, Store<D>)> {
    let sizes = sizes_of(writers, plan)?;
    let Ok(store) = Store::open(alloc, disk, u64::from(BASE), sizes, false) else {
        bail!("no store");
    };
    let base = store.base();
    let keeper = Recorder::new(store, Vec::new(alloc), plan.turns);
    let path = open_path(alloc, keeper, base, sizes, plan)?;
    let (ran, keeper) = run_path(rt, alloc, path, sizes, plan)?;
    let (store, lent) = keeper.into_parts();
    Ok((ran, lent, store))
}

/// So many writers commit by a plan over a store on a disk, of which nothing is recorded.
pub fn run_plain<R: Threads + Wait + Clock + Sync, D: Disk + Send + Drop>(
    rt: &R,
    alloc: Global,
    disk: D,
    writers: u8,
    plan: Plan,
) -> Result<Ran> {
    let sizes = sizes_of(writers, plan)?;
    let Ok(store) = Store::open(alloc, disk, u64::from(BASE), sizes, false) else {
        bail!("no store");
    };
    let base = store.base();
    let path = open_path(alloc, store, base, sizes, plan)?;
    let (ran, _store) = run_path(rt, alloc, path, sizes, plan)?;
    ran.answered.check()?;
    Ok(ran)
}

/// Checks how so many writers were answered and what they made lasting, and reads the store's disk
/// again. Answers how many entries it has, and gives it back.
pub fn check_run<R: Threads + Wait + Sync, D: Disk + Drop>(
    rt: &R,
    alloc: Global,
    ran: &mut Ran,
    lent: &mut Lent,
    store: Store<D>,
    writers: u8,
    plan: Plan,
) -> Result<(u64, D)> {
    ran.answered.check()?;
    let base = u32::try_from(store.base())?;
    check(&mut lent.rows, &mut ran.receipts, base, writers, plan)?;
    let mut disk = store.into_disk(rt);
    let entries = read_again(rt, alloc, &mut disk, &mut ran.receipts, writers, plan)?;
    Ok((entries, disk))
}
