//! Flushes of a table's memtable: behind a commit and where nothing was written to it, over a
//! keeper that refuses a file for memory, over three segments, and while another seat has the
//! table's turn.
ghost use Rattle.std.specs.Prelude.{◌≡◌, true, IfOk, IsSome};
ghost use Rattle.path_table.specs.Members.{IsOf};

use crate::commits::{DELETION, place, place_of, prepared};
use crate::issuing::may_issue;
use crate::rolling::write_of;
use clog_base::{Key, Position, Sizes, Table};
use clog_cells::CellMap;
use clog_io::OpenGate;
use path_core::{EntryNote, Keeper, KeeperFault, Turn};
use path_machine::ListKeeper;
use std::alloc::Global;
use std::sync::Wait;
use std::test::*;
use sync_core::SyncCore;
use write_path::{Flush, PathSeat, WritePath};

/// A keeper over lists that refuses its first table files, so many of them.
#[derive(Drop)]
pub(crate) struct Unwilling {
    keeper: ListKeeper,
    refusals: u32,
}

impl Keeper for Unwilling {
    ghost holds = { λ u. ⟦<ListKeeper as Keeper>⟧.holds u.keeper };

    fn sync(&mut self, pending: &mut Vec<EntryNote>, upto: Key) -> Result<(), KeeperFault> {
        self.keeper.sync(pending, upto)
    }

    fn publish(
        &mut self,
        table: Table,
        lower: Key,
        upper: Key,
        cells: &CellMap,
    ) -> Result<(), KeeperFault> {
        if self.refusals > 0 {
            self.refusals -= 1;
            return Err(KeeperFault::OutOfMemory);
        }
        self.keeper.publish(table, lower, upper, cells)
    }

    fn discard(&mut self, closed: u32) -> Result<u32, KeeperFault> {
        self.keeper.discard(closed)
    }

    fn at_open(&self) -> u64 {
        self.keeper.at_open()
    }
}

// A path in periodic mode, whose memtables may go to table files, over a keeper that refuses so
// many.
pub(crate) fn filing(
    alloc: Global,
    sizes: Sizes,
    refusals: u32,
) -> Result<WritePath<Unwilling, Global>, Fail>
    ensures sized { IfOk result (λ p. (sizes.tables ≡ p.table.size.tables)
        × (sizes.capacity ≡ p.table.size.capacity) × (p.table.size.files ≡ true)
        × IsSome p.opener) }
{
    let keeper = Unwilling {
        keeper: ListKeeper::new(alloc, sizes, 7),
        refusals,
    };
    match WritePath::open_filing(alloc, keeper, sizes, 7, SyncCore::periodic(10)) {
        Ok(path) => Ok(path),
        Err(_) => Err(Fail::new("no path")),
    }
}

// The same with one seat.
fn one_filing(
    alloc: Global,
    sizes: Sizes,
    refusals: u32,
) -> Result<(WritePath<Unwilling, Global>, PathSeat<Unwilling>), Fail>
    ensures of { IfOk result (λ r. IsOf r.0.table.table.shared.table_id r.0.table.size r.1.member) }
    ensures sized { IfOk result (λ r. (sizes.tables ≡ r.0.table.size.tables)
        × (sizes.capacity ≡ r.0.table.size.capacity) × (r.0.table.size.files ≡ true)) }
{
    let mut path = filing(alloc, sizes, refusals)?;
    let Some(seat) = path.seats(alloc)?.pop() else {
        return Err(Fail::new("no seat"));
    };
    Ok((path, seat))
}

// The same with two, over a keeper that refuses none.
fn two_filing(
    alloc: Global,
    sizes: Sizes,
) -> Result<
    (
        WritePath<Unwilling, Global>,
        PathSeat<Unwilling>,
        PathSeat<Unwilling>,
    ),
    Fail,
>
    ensures zero { IfOk result (λ r. IsOf r.0.table.table.shared.table_id r.0.table.size
        r.1.member) }
    ensures one { IfOk result (λ r. IsOf r.0.table.table.shared.table_id r.0.table.size
        r.2.member) }
    ensures sized { IfOk result (λ r. (sizes.tables ≡ r.0.table.size.tables)
        × (r.0.table.size.files ≡ true)) }
{
    let mut path = filing(alloc, sizes, 0)?;
    let mut seats = path.seats(alloc)?;
    let (Some(one), Some(zero)) = (seats.pop(), seats.pop()) else {
        return Err(Fail::new("no two seats"));
    };
    Ok((path, zero, one))
}

// The file's interval.
pub(crate) fn flushed(answer: Flush) -> Option<(u64, Position)> {
    match answer {
        Flush::Flushed { lower, upper } => Some((lower.0, place_of(upper))),
        _ => None,
    }
}

// The bound of a memtable that held nothing.
fn emptied(answer: Flush) -> Option<Position> {
    match answer {
        Flush::Empty(key) => Some(place_of(key)),
        _ => None,
    }
}

// Three flushes of table 0 behind a commit to it, over a keeper that refuses so many files.
fn flush_thrice<R: Wait>(rt: &R, alloc: Global, refusals: u32) -> Result<[Flush; 3], Fail> {
    let Some(sizes) = Sizes::make(16, 1, 4096, 4) else {
        return Err(Fail::new("no sizes"));
    };
    let one = prepared(alloc, sizes, 1, DELETION)?;
    let (path, seat) = one_filing(alloc, sizes, refusals)?;
    let gate = OpenGate::new();
    may_issue(&seat)?;
    let (seat, _commit) = path.commit(rt, alloc, seat, one, &gate);
    may_issue(&seat)?;
    let (seat, first) = path.flush(rt, alloc, seat, Table(0));
    may_issue(&seat)?;
    let (seat, second) = path.flush(rt, alloc, seat, Table(0));
    may_issue(&seat)?;
    let (_seat, third) = path.flush(rt, alloc, seat, Table(0));
    Ok([first, second, third])
}

#[test]
fn a_memtable_goes_to_a_file_and_the_next_ones_are_empty(rt: HostRuntime) -> Result<(), Fail> {
    let [first, second, third] = flush_thrice(&rt, rt.alloc(), 0)?;
    let found = (flushed(first), [emptied(second), emptied(third)]);
    assert_eq!(&rt;
        found,
        (Some((0, place(60))), [Some(place(68)), Some(place(68))])
    );
    Ok(())
}

#[test]
fn a_refused_file_is_put_by_the_next_flush(rt: HostRuntime) -> Result<(), Fail> {
    let [first, second, third] = flush_thrice(&rt, rt.alloc(), 1)?;
    let found = (first, [emptied(second), emptied(third)]);
    assert_eq!(&rt;
        found,
        (Flush::OutOfMemory, [Some(place(68)), Some(place(68))])
    );
    Ok(())
}

// A flush of table 0 behind three entries of half a segment each.
fn flush_segments<R: Wait>(rt: &R, alloc: Global) -> Result<Flush, Fail> {
    let Some(sizes) = Sizes::make(16, 1, 4096, 4) else {
        return Err(Fail::new("no sizes"));
    };
    let (path, seat) = one_filing(alloc, sizes, 0)?;
    let gate = OpenGate::new();
    may_issue(&seat)?;
    let (seat, _one) = path.commit(rt, alloc, seat, write_of(alloc, sizes, 1, 2048)?, &gate);
    may_issue(&seat)?;
    let (seat, _two) = path.commit(rt, alloc, seat, write_of(alloc, sizes, 2, 2048)?, &gate);
    may_issue(&seat)?;
    let (seat, _three) = path.commit(rt, alloc, seat, write_of(alloc, sizes, 3, 2048)?, &gate);
    may_issue(&seat)?;
    let (_seat, answer) = path.flush(rt, alloc, seat, Table(0));
    Ok(answer)
}

#[test]
fn a_file_goes_over_three_segments(rt: HostRuntime) -> Result<(), Fail> {
    let answer = flush_segments(&rt, rt.alloc())?;
    let end = Position {
        id: 9,
        offset: 2076,
    };
    assert_eq!(&rt; flushed(answer), Some((0, end)));
    Ok(())
}

// What a flush of table 3 answers while another seat has its turn, and once it was given back.
fn flush_beside<R: Wait>(rt: &R, alloc: Global) -> Result<(Flush, Flush), Fail> {
    let Some(sizes) = Sizes::make(16, 2, 4096, 4) else {
        return Err(Fail::new("no sizes"));
    };
    let (path, zero, one) = two_filing(alloc, sizes)?;
    let Ok(held) = path.try_turn(zero, Turn::Flush(Table(3))) else {
        return Err(Fail::new("the turn is taken"));
    };
    may_issue(&one)?;
    let (one, busy) = path.flush(rt, alloc, one, Table(3));
    let _zero = path.give(held);
    may_issue(&one)?;
    let (_one, free) = path.flush(rt, alloc, one, Table(3));
    Ok((busy, free))
}

#[test]
fn a_flush_finds_the_turn_taken(rt: HostRuntime) -> Result<(), Fail> {
    let (busy, free) = flush_beside(&rt, rt.alloc())?;
    assert_eq!(&rt; (busy, emptied(free)), (Flush::Busy(1), Some(place(28))));
    Ok(())
}
