//! A keeper that stops at its first sync: each seat is answered so from then on. What it writes is
//! logged all the same, and no marker stands between.
ghost use Rattle.std.specs.Prelude.{cond};
ghost use Rattle.path_core.specs.Keeper.{IsFresh};

use crate::commits::{DELETION, prepared, receipt};
use crate::issuing::may_issue;
use crate::refusing::unsynced;
use crate::turns::two_seats;
use clog_base::{Key, Sizes, Table};
use clog_cells::CellMap;
use clog_io::OpenGate;
use path_core::{EntryNote, Keeper, KeeperFault};
use path_machine::ListKeeper;
use std::alloc::Global;
use std::sync::Wait;
use std::test::*;
use write_path::{Commit, SyncAnswer, SyncFault};

/// A keeper whose disk fails at the first call.
#[derive(Drop)]
struct Stopping {
    fresh: ListKeeper,
    has_failed: bool,
}

impl Keeper for Stopping {
    ghost holds = { λ s. record (⟦<ListKeeper as Keeper>⟧.holds s.fresh) {
      faults = cond s.has_failed 1 0;
      stopped = s.has_failed;
    } };

    fn sync(&mut self, _: &mut Vec<EntryNote>, _: Key) -> Result<(), KeeperFault> {
        self.has_failed = true;
        Err(KeeperFault::Stopped { at_open: 0, now: 1 })
    }

    fn publish(&mut self, _: Table, _: Key, _: Key, _: &CellMap) -> Result<(), KeeperFault> {
        self.has_failed = true;
        Err(KeeperFault::Stopped { at_open: 0, now: 1 })
    }

    fn discard(&mut self, _: u32) -> Result<u32, KeeperFault> {
        self.has_failed = true;
        Err(KeeperFault::Stopped { at_open: 0, now: 1 })
    }

    fn at_open(&self) -> u64 {
        0
    }
}

// Such a keeper, which was just opened.
fn new_stopping(alloc: Global, sizes: Sizes) -> Stopping
    ensures { IsFresh 7 sizes (⟦<Stopping as Keeper>⟧.holds result) }
{
    Stopping {
        fresh: ListKeeper::new(alloc, sizes, 7),
        has_failed: false,
    }
}

// Commits by two seats, a sync, and a commit behind it.
fn commit_by_both<R: Wait>(
    rt: &R,
    alloc: Global,
) -> Result<(Commit, Commit, SyncAnswer, Commit), Fail> {
    let Some(sizes) = Sizes::make(16, 2, 4096, 4) else {
        return Err(Fail::new("no sizes"));
    };
    let first = prepared(alloc, sizes, 1, DELETION)?;
    let second = prepared(alloc, sizes, 2, DELETION)?;
    let third = prepared(alloc, sizes, 3, DELETION)?;
    let (path, zero, one) = two_seats(alloc, new_stopping(alloc, sizes), sizes)?;
    let gate = OpenGate::new();
    may_issue(&zero)?;
    let (zero, first) = path.commit(rt, alloc, zero, first, &gate);
    may_issue(&one)?;
    let (_one, second) = path.commit(rt, alloc, one, second, &gate);
    may_issue(&zero)?;
    let (zero, answer) = path.sync(rt, alloc, zero);
    may_issue(&zero)?;
    let (_zero, third) = path.commit(rt, alloc, zero, third, &gate);
    Ok((first, second, answer, third))
}

// The counts of faults that a sync tells.
fn stopped(answer: SyncAnswer) -> Option<(u64, u64)> {
    match answer {
        SyncAnswer::Stopped { at_open, now } => Some((at_open, now)),
        _ => None,
    }
}

// Whether a commit was logged up to an offset, and told that the log has stopped.
fn has_stopped(commit: &Commit, line: u32, end: u32) -> bool {
    match unsynced(commit) {
        Some((logged, fault)) => {
            Some(logged) == receipt(line, end) && fault == SyncFault::Stopped { at_open: 0, now: 1 }
        }
        None => false,
    }
}

#[test]
fn each_seat_learns_that_the_log_has_stopped(rt: HostRuntime) -> Result<(), Fail> {
    let (first, second, answer, third) = commit_by_both(&rt, rt.alloc())?;
    let commits = [
        has_stopped(&first, 1, 60),
        has_stopped(&second, 2, 100),
        has_stopped(&third, 3, 132),
    ];
    assert_eq!(&rt; (stopped(answer), commits), (Some((0, 1)), [true; 3]));
    Ok(())
}
