//! A keeper that refuses a sync for want of memory: all is pending still, and the next sync goes up
//! to the same marker.
ghost use Rattle.std.specs.Prelude.{◌≡◌, IfOk};
ghost use Rattle.path_table.specs.Members.{IsOf};

use crate::commits::{DELETION, done, durable, place, prepared, receipt};
use crate::issuing::may_issue;
use clog_base::{Key, Sizes, Table};
use clog_cells::CellMap;
use clog_io::OpenGate;
use path_core::{EntryNote, Keeper, KeeperFault};
use path_machine::ListKeeper;
use std::alloc::Global;
use std::sync::Wait;
use std::test::*;
use sync_core::SyncCore;
use write_path::{Commit, PathSeat, Receipt, SyncAnswer, SyncFault, WritePath};

/// A keeper over lists that refuses its first syncs, so many of them.
#[derive(Drop)]
struct Refusing {
    keeper: ListKeeper,
    refusals: u32,
}

impl Keeper for Refusing {
    ghost holds = { λ r. ⟦<ListKeeper as Keeper>⟧.holds r.keeper };

    fn sync(&mut self, pending: &mut Vec<EntryNote>, upto: Key) -> Result<(), KeeperFault> {
        if self.refusals > 0 {
            self.refusals -= 1;
            return Err(KeeperFault::OutOfMemory);
        }
        self.keeper.sync(pending, upto)
    }

    fn publish(
        &mut self,
        table: Table,
        lower: Key,
        upper: Key,
        cells: &CellMap,
    ) -> Result<(), KeeperFault> {
        self.keeper.publish(table, lower, upper, cells)
    }

    fn discard(&mut self, closed: u32) -> Result<u32, KeeperFault> {
        self.keeper.discard(closed)
    }

    fn at_open(&self) -> u64 {
        self.keeper.at_open()
    }
}

// A path with one seat, over a keeper that refuses its first sync.
fn one_refused(
    alloc: Global,
    sizes: Sizes,
) -> Result<(WritePath<Refusing, Global>, PathSeat<Refusing>), Fail>
    ensures of { IfOk result (λ r. IsOf r.0.table.table.shared.table_id r.0.table.size r.1.member) }
    ensures sized { IfOk result (λ r. (sizes.tables ≡ r.0.table.size.tables)
        × (sizes.capacity ≡ r.0.table.size.capacity)) }
{
    let keeper = Refusing {
        keeper: ListKeeper::new(alloc, sizes, 7),
        refusals: 1,
    };
    let Ok(mut path) = WritePath::open(alloc, keeper, sizes, 7, SyncCore::batch()) else {
        return Err(Fail::new("no path"));
    };
    let Some(seat) = path.seats(alloc)?.pop() else {
        return Err(Fail::new("no seat"));
    };
    Ok((path, seat))
}

// A commit, a sync, and another commit.
fn commit_sync_commit<R: Wait>(
    rt: &R,
    alloc: Global,
) -> Result<(Commit, SyncAnswer, Commit), Fail> {
    let Some(sizes) = Sizes::make(16, 1, 4096, 4) else {
        return Err(Fail::new("no sizes"));
    };
    let one = prepared(alloc, sizes, 1, DELETION)?;
    let two = prepared(alloc, sizes, 2, DELETION)?;
    let (path, seat) = one_refused(alloc, sizes)?;
    let gate = OpenGate::new();
    may_issue(&seat)?;
    let (seat, first) = path.commit(rt, alloc, seat, one, &gate);
    may_issue(&seat)?;
    let (seat, answer) = path.sync(rt, alloc, seat);
    may_issue(&seat)?;
    let (_seat, second) = path.commit(rt, alloc, seat, two, &gate);
    Ok((first, answer, second))
}

pub(crate) fn unsynced(commit: &Commit) -> Option<(Receipt, SyncFault)> {
    match commit {
        Commit::Unsynced(receipt, fault) => Some((*receipt, *fault)),
        _ => None,
    }
}

#[test]
fn a_refused_sync_is_made_again_at_the_same_marker(rt: HostRuntime) -> Result<(), Fail> {
    let (first, answer, second) = commit_sync_commit(&rt, rt.alloc())?;
    let Some((logged, fault)) = unsynced(&first) else {
        return Err(Fail::new("it was synced"));
    };
    assert_eq!(&rt;
        (Some(logged), fault),
        (receipt(1, 60), SyncFault::OutOfMemory)
    );
    let answered = (done(answer), durable(&second));
    assert_eq!(&rt; answered, (Some(place(60)), receipt(2, 100)));
    Ok(())
}
