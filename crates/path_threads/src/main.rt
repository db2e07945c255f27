//! Writers in threads of their own commit to one path over a store. When all have ended the path is
//! closed, and what the store made lasting is checked: each line stands there once, at the position
//! that its commit answered, each writer's in order, and no range of the log lies within another.
//! The disk is read again, with an entry at each of these positions and no other, and so are its
//! sections, each of which begins behind its marker and ends with an entry.
//!
//! With no words the disks are in memory, and the counts of all runs are printed, and before them
//! what two commits of one writer leave, to the byte. Words ask for one run that is timed:
//!
//! - `periodic WRITERS LINES SYNC_AFTER`: over a store whose disk drops its bytes, where each
//!   writer syncs behind so many of its lines each time.
//! - `folder WRITERS LINES`: in batch mode, over the folder `commitlog` below the current one.
//! - `memory WRITERS LINES TURNS`: in batch mode, over a disk in memory, where other threads are
//!   let run so often before each sync.
#![tactic(auto)]

mod answered;
mod crew;
mod dropping;
mod plan;
mod preparing;
mod recorder;
mod rereading;
mod running;
mod sections;
mod segments;
mod stores;
mod tally;
mod timing;
mod two_commits;
mod worker;

use answered::Answered;
use anyhow::{Result, bail};
use clog_disk::{FolderDisk, MemDisk};
use plan::{Payload, Plan};
use std::alloc::Global;
use std::env;
use std::io::Print;
use std::sync::Wait;
use std::thread::Threads;
use std::time::Clock;
use stores::{check_run, run_recorded};
use sync_core::SyncCore;
use timing::{batch_run, time_runs};
use two_commits::print_commits;

/// The lines of each writer of a run in memory.
const LINES: u32 = 10_000;

/// How often other threads are let run before a sync in batch mode. The 640,000 commits of 64
/// writers took some 42,000 syncs so beside other load. With fewer turns few writers have come to
/// wait for the next sync.
const TURNS: u8 = 32;

/// The bytes of a segment in memory.
const SMALL: u32 = 4096;

// A writer's periodic commits, of which it has so many synced at once.
fn periodic(payload: Payload, lines: u32, sync_after: u32) -> Plan {
    Plan {
        mode: SyncCore::periodic(10),
        payload,
        capacity: SMALL,
        lines,
        sync_after,
        turns: 0,
    }
}

// A writer's commits in batch mode.
fn batch(payload: Payload, lines: u32) -> Plan {
    Plan {
        mode: SyncCore::batch(),
        payload,
        capacity: SMALL,
        lines,
        sync_after: 0,
        turns: TURNS,
    }
}

// Runs writers over a disk in memory, checks what they left, and prints what that came to.
fn count_run<R: Threads + Wait + Clock + Print + Sync>(
    rt: &R,
    alloc: Global,
    name: &str,
    writers: u8,
    plan: Plan,
) -> Result<()> {
    let disk = MemDisk::new(alloc);
    let (mut ran, mut lent, store) = run_recorded(rt, alloc, disk, writers, plan)?;
    let (entries, _disk) = check_run(rt, alloc, &mut ran, &mut lent, store, writers, plan)?;
    let Answered {
        logged,
        durable,
        ..
    } = ran.answered;
    print!(rt; "{name}, {writers} writers: {logged} logged, {durable} durable, ")?;
    println!(rt;
        "{} lasting, {entries} entries on the disk",
        lent.rows.len()
    )?;
    Ok(())
}

// Two commits in both modes, and then runs of 2, 8 and 64 writers.
fn count_runs<R: Threads + Wait + Clock + Print + Sync>(rt: &R, alloc: Global) -> Result<()> {
    print_commits(rt, alloc, batch(Payload::OneUpdate, 2))?;
    print_commits(rt, alloc, periodic(Payload::OneUpdate, 2, 2))?;
    for writers in [2u8, 8, 64] {
        let plan = periodic(Payload::TwoTables, LINES, 16);
        count_run(rt, alloc, "periodic", writers, plan)?;
    }
    for writers in [2u8, 8, 64] {
        let plan = batch(Payload::TwoTables, LINES);
        count_run(rt, alloc, "batch", writers, plan)?;
    }
    Ok(())
}

// What is run with numbers.
#[derive(Clone, Copy, PartialEq, Eq)]
enum Kind {
    // Periodic commits, which are timed.
    Periodic,
    // Commits in batch mode over a folder.
    Folder,
    // The same over a disk in memory.
    Memory,
}

fn kind_of(word: &str) -> Option<Kind> {
    match word {
        "periodic" => Some(Kind::Periodic),
        "folder" => Some(Kind::Folder),
        "memory" => Some(Kind::Memory),
        _ => None,
    }
}

fn main(rt: HostRuntime) -> Result<()> {
    let mut kind = None;
    let mut numbers = Vec::new(rt.alloc());
    for word in env::args(&rt)?.skip(1) {
        match kind_of(word.as_str()) {
            Some(named) => kind = Some(named),
            None => numbers.push(word.parse::<u32>()?)?,
        }
    }
    let Ok(for_disk) = rt.clone() else {
        bail!("no memory for a disk");
    };
    let alloc = rt.alloc();
    match *numbers.as_slice() {
        [] if kind.is_none() => count_runs(&rt, alloc),
        [writers, lines] if kind == Some(Kind::Folder) => {
            let disk = FolderDisk::for_writing(for_disk);
            batch_run(&rt, alloc, disk, u8::try_from(writers)?, lines, 0)
        }
        [writers, lines, turns] if kind == Some(Kind::Memory) => {
            let (writers, turns) = (u8::try_from(writers)?, u8::try_from(turns)?);
            batch_run(&rt, alloc, MemDisk::new(alloc), writers, lines, turns)
        }
        [writers, lines, sync_after] if kind == Some(Kind::Periodic) => {
            time_runs(&rt, alloc, u8::try_from(writers)?, lines, sync_after)
        }
        _ => bail!("no words, or `periodic` or `memory` and 3 numbers, or `folder` and 2"),
    }
}
