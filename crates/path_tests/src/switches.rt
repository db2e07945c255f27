//! Switches of a table's memtable: where nothing was written to it, behind a commit, behind one
//! that was left, and while another seat has the table's turn.
use crate::commits::{DELETION, logged, one_seat, place, place_of, prepared, receipt};
use crate::issuing::may_issue;
use crate::turns::two_seats;
use clog_base::{Position, Sizes, Table};
use clog_io::OpenGate;
use path_core::Turn;
use path_machine::ListKeeper;
use std::alloc::Global;
use std::sync::Wait;
use std::test::*;
use sync_core::SyncCore;
use write_path::{Commit, Switch};

// The bound of a memtable that held nothing.
fn emptied(answer: Switch) -> Option<Position> {
    match answer {
        Switch::Empty(key) => Some(place_of(key)),
        _ => None,
    }
}

// The bound of a memtable that was left.
fn left(answer: Switch) -> Option<Position> {
    match answer {
        Switch::Left(key) => Some(place_of(key)),
        _ => None,
    }
}

#[test]
fn a_table_that_holds_nothing_is_switched_twice(rt: HostRuntime) -> Result<(), Fail> {
    let alloc = rt.alloc();
    let Some(sizes) = Sizes::make(16, 1, 4096, 4) else {
        return Err(Fail::new("no sizes"));
    };
    let (path, seat) = one_seat(alloc, sizes, SyncCore::batch())?;
    may_issue(&seat)?;
    let (seat, first) = path.switch(&rt, alloc, seat, Table(0));
    may_issue(&seat)?;
    let (_seat, second) = path.switch(&rt, alloc, seat, Table(0));
    assert_eq!(&rt;
        [emptied(first), emptied(second)],
        [Some(place(28)), Some(place(28))]
    );
    Ok(())
}

// What was answered behind a commit to table 0: a switch of table 1, two of table 0, and between
// these a commit.
#[derive(Drop)]
struct Answers {
    beside: Switch,
    first: Switch,
    commit: Commit,
    second: Switch,
}

fn switch_behind<R: Wait>(rt: &R, alloc: Global) -> Result<Answers, Fail> {
    let Some(sizes) = Sizes::make(16, 1, 4096, 4) else {
        return Err(Fail::new("no sizes"));
    };
    let one = prepared(alloc, sizes, 1, DELETION)?;
    let two = prepared(alloc, sizes, 2, DELETION)?;
    let (path, seat) = one_seat(alloc, sizes, SyncCore::periodic(10))?;
    let gate = OpenGate::new();
    may_issue(&seat)?;
    let (seat, _commit) = path.commit(rt, alloc, seat, one, &gate);
    may_issue(&seat)?;
    let (seat, beside) = path.switch(rt, alloc, seat, Table(1));
    may_issue(&seat)?;
    let (seat, first) = path.switch(rt, alloc, seat, Table(0));
    may_issue(&seat)?;
    let (seat, commit) = path.commit(rt, alloc, seat, two, &gate);
    may_issue(&seat)?;
    let (_seat, second) = path.switch(rt, alloc, seat, Table(0));
    Ok(Answers {
        beside,
        first,
        commit,
        second,
    })
}

#[test]
fn a_memtable_that_holds_something_is_left_and_waits(rt: HostRuntime) -> Result<(), Fail> {
    let answers = switch_behind(&rt, rt.alloc())?;
    let bounds = [emptied(answers.beside), left(answers.first)];
    assert_eq!(&rt; bounds, [Some(place(60)), Some(place(60))]);
    let behind = (logged(&answers.commit), answers.second);
    assert_eq!(&rt; behind, (receipt(2, 92), Switch::Waits(0)));
    Ok(())
}

// What a switch of table 3 answers while another seat has its turn, and once it was given back.
fn switch_beside<R: Wait>(rt: &R, alloc: Global) -> Result<(Switch, Switch), Fail> {
    let Some(sizes) = Sizes::make(16, 2, 4096, 4) else {
        return Err(Fail::new("no sizes"));
    };
    let keeper = ListKeeper::new(alloc, sizes, 7);
    let (path, zero, one) = two_seats(alloc, keeper, sizes)?;
    let Ok(held) = path.try_turn(zero, Turn::Flush(Table(3))) else {
        return Err(Fail::new("the turn is taken"));
    };
    may_issue(&one)?;
    let (one, busy) = path.switch(rt, alloc, one, Table(3));
    let _zero = path.give(held);
    may_issue(&one)?;
    let (_one, free) = path.switch(rt, alloc, one, Table(3));
    Ok((busy, free))
}

#[test]
fn a_switch_finds_the_turn_taken(rt: HostRuntime) -> Result<(), Fail> {
    let (busy, free) = switch_beside(&rt, rt.alloc())?;
    assert_eq!(&rt; (busy, emptied(free)), (Switch::Busy(1), Some(place(28))));
    Ok(())
}
