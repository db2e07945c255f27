//! How long commits take, and how many have a sync together.
use crate::dropping::DroppingDisk;
use crate::plan::{Payload, Plan};
use crate::stores::{check_run, run_plain, run_recorded};
use anyhow::Result;
use clog_disk::Disk;
use std::alloc::Global;
use std::io::Print;
use std::sync::Wait;
use std::thread::Threads;
use std::time::Clock;
use sync_core::SyncCore;

/// The bytes of a segment where time counts.
const LARGE: u32 = 33554432;

/// Times periodic commits of so many writers over a store whose disk drops its bytes, with a sync
/// behind so many lines of each; and before them the preparing of their writes alone.
pub fn time_runs<R: Threads + Wait + Clock + Print + Sync>(
    rt: &R,
    alloc: Global,
    writers: u8,
    lines: u32,
    sync_after: u32,
) -> Result<()> {
    let plan = Plan {
        mode: SyncCore::periodic(10),
        payload: Payload::TwoTables,
        capacity: LARGE,
        lines,
        sync_after,
        turns: 0,
    };
    let ran = run_plain(rt, alloc, DroppingDisk::new(alloc), writers, plan)?;
    let count = u128::from(lines).max(1);
    let all = count.saturating_mul(u128::from(writers).max(1));
    println!(rt;
        "{writers} writers, a line of all: {} ns to prepare its write, {} ns to commit it",
        ran.preparing / all,
        ran.committing / all
    )?;
    Ok(())
}

/// Commits in batch mode over a disk, where other threads are let run so often before each sync.
/// Prints how many commits had a sync together.
pub fn batch_run<R: Threads + Wait + Clock + Print + Sync, D: Disk + Send + Drop>(
    rt: &R,
    alloc: Global,
    disk: D,
    writers: u8,
    lines: u32,
    turns: u8,
) -> Result<()> {
    let plan = Plan {
        mode: SyncCore::batch(),
        payload: Payload::TwoTables,
        capacity: LARGE,
        lines,
        sync_after: 0,
        turns,
    };
    let (mut ran, mut lent, store) = run_recorded(rt, alloc, disk, writers, plan)?;
    let (commits, _disk) = check_run(rt, alloc, &mut ran, &mut lent, store, writers, plan)?;
    let syncs = lent.syncs;
    let tenths = commits.saturating_mul(10) / syncs.max(1);
    println!(rt;
        "{writers} writers: {commits} commits, {syncs} syncs, {}.{} commits a sync, {} us a commit",
        tenths / 10,
        tenths % 10,
        ran.committing / 1000 / u128::from(commits).max(1)
    )?;
    Ok(())
}
