//! Commits by worked values: of one seat ranges, receipts, markers between them and a log that is
//! spent, and of two seats what a gate is told.
ghost use Rattle.std.specs.Prelude.{◌≡◌, IfOk};
ghost use Rattle.clog_mutation.specs.declared.mutation.Mutation.{Mutation};
ghost use Rattle.path_table.specs.Members.{IsOf};
ghost use Rattle.write_path.specs.Writes.{IsPrepared};

use crate::issuing::may_issue;
use crate::turns::two_seats;
use clog_base::{Key, Position, Sizes, Writer};
use clog_io::{Gate, OpenGate, Point};
use clog_mutation::decode;
use path_machine::ListKeeper;
use std::alloc::Global;
use std::sync::Wait;
use std::sync::atomic::{AtomicU64, Ordering};
use std::test::*;
use sync_core::SyncCore;
use write_path::{Commit, PathSeat, Prepared, Receipt, SyncAnswer, WritePath};

/// Key `ab`, one update: table 0, column `cd`, timestamp 5, a deletion: 20 bytes, an entry of 32.
pub(crate) const DELETION: &[u8] =
    b"\x00\x02ab\x00\x01\x00\x00\x02cd\x00\x00\x00\x00\x00\x00\x00\x05\x00";

/// The same for tables 0 and 3: 34 bytes, an entry of 46.
pub(crate) const TWO_TABLES: &[u8] =
    b"\x00\x02ab\x00\x02\x00\x00\x02cd\x00\x00\x00\x00\x00\x00\x00\x05\x00\
\x03\x00\x02cd\x00\x00\x00\x00\x00\x00\x00\x05\x00";

/// Before a value of 2014 bytes: key `k`, table 0, column `c`, timestamp 1.
const BEFORE_VALUE: &[u8] =
    b"\x00\x01k\x00\x01\x00\x00\x01c\x00\x00\x00\x00\x00\x00\x00\x01\x01\x00\x00\x07\xde";

// A write of a payload.
pub(crate) fn prepared(
    alloc: Global,
    sizes: Sizes,
    line: u32,
    payload: &[u8],
) -> Result<Prepared, Fail>
    requires { sizes.tables ≡ 16 }
    ensures { IfOk result (λ p. (m : Mutation) × IsPrepared sizes line m p) }
{
    Ok(Prepared::make(alloc, sizes, line, decode(alloc, payload)?)?)
}

// 2014 letters behind the front of their payload: an entry of 2048 bytes.
fn long_payload(alloc: Global) -> Result<Vec<u8>, Fail> {
    let mut payload = Vec::new(alloc);
    payload.extend_from_slice(BEFORE_VALUE)?;
    for _ in 0..2014 {
        payload.push(b'x')?;
    }
    Ok(payload)
}

// A path with one seat, over a keeper in memory whose first segment is 7, of so many segments.
pub(crate) fn one_seat(
    alloc: Global,
    sizes: Sizes,
    mode: SyncCore,
) -> Result<(WritePath<ListKeeper, Global>, PathSeat<ListKeeper>), Fail>
    ensures of { IfOk result (λ r. IsOf r.0.table.table.shared.table_id r.0.table.size r.1.member) }
    ensures sized { IfOk result (λ r. (sizes.tables ≡ r.0.table.size.tables)
        × (sizes.capacity ≡ r.0.table.size.capacity)) }
{
    let keeper = ListKeeper::new(alloc, sizes, 7);
    let Ok(mut path) = WritePath::open(alloc, keeper, sizes, 7, mode) else {
        return Err(Fail::new("no path"));
    };
    let Some(seat) = path.seats(alloc)?.pop() else {
        return Err(Fail::new("no seat"));
    };
    Ok((path, seat))
}

// Two commits of the same payload, and a sync.
fn commit_twice<R: Wait>(
    rt: &R,
    alloc: Global,
    segments: u32,
    mode: SyncCore,
    payload: &[u8],
) -> Result<(Commit, Commit, SyncAnswer), Fail> {
    let Some(sizes) = Sizes::make(16, 1, 4096, segments) else {
        return Err(Fail::new("no sizes"));
    };
    let one = prepared(alloc, sizes, 1, payload)?;
    let two = prepared(alloc, sizes, 2, payload)?;
    let (path, seat) = one_seat(alloc, sizes, mode)?;
    let gate = OpenGate::new();
    may_issue(&seat)?;
    let (seat, first) = path.commit(rt, alloc, seat, one, &gate);
    may_issue(&seat)?;
    let (seat, second) = path.commit(rt, alloc, seat, two, &gate);
    may_issue(&seat)?;
    let (_seat, answer) = path.sync(rt, alloc, seat);
    Ok((first, second, answer))
}

pub(crate) fn receipt(line: u32, offset: u32) -> Option<Receipt> {
    Some(Receipt {
        line,
        position: place(offset),
    })
}

pub(crate) fn logged(commit: &Commit) -> Option<Receipt> {
    match commit {
        Commit::Logged(receipt) => Some(*receipt),
        _ => None,
    }
}

pub(crate) fn durable(commit: &Commit) -> Option<Receipt> {
    match commit {
        Commit::Durable(receipt) => Some(*receipt),
        _ => None,
    }
}

// Where a key is in the log.
pub(crate) fn place_of(key: Key) -> Position {
    key.position(7)
}

// The bytes of the write that came back, and the place that was found.
fn spent(commit: &Commit) -> Option<(u32, Position)> {
    match commit {
        Commit::Spent(back, key) => Some((back.size(), place_of(*key))),
        _ => None,
    }
}

// Up to where the log is lasting.
pub(crate) fn done(answer: SyncAnswer) -> Option<Position> {
    match answer {
        SyncAnswer::Done(key) => Some(place_of(Key(key))),
        _ => None,
    }
}

// An offset in the first segment.
pub(crate) fn place(offset: u32) -> Position {
    Position { id: 7, offset }
}

#[test]
fn periodic_commits_follow_one_another(rt: HostRuntime) -> Result<(), Fail> {
    let mode = SyncCore::periodic(10);
    let (first, second, answer) = commit_twice(&rt, rt.alloc(), 4, mode, DELETION)?;
    let answered = (logged(&first), logged(&second), done(answer));
    assert_eq!(&rt; answered, (receipt(1, 60), receipt(2, 92), Some(place(92))));
    Ok(())
}

#[test]
fn a_marker_stands_between_batch_commits(rt: HostRuntime) -> Result<(), Fail> {
    let mode = SyncCore::batch();
    let (first, second, answer) = commit_twice(&rt, rt.alloc(), 4, mode, DELETION)?;
    let answered = (durable(&first), durable(&second), done(answer));
    assert_eq!(&rt;
        answered,
        (receipt(1, 60), receipt(2, 100), Some(place(100)))
    );
    Ok(())
}

#[test]
fn a_spent_log_hands_the_write_back(rt: HostRuntime) -> Result<(), Fail> {
    let payload = long_payload(rt.alloc())?;
    let mode = SyncCore::periodic(10);
    let payload = payload.as_slice();
    let (first, second, answer) = commit_twice(&rt, rt.alloc(), 1, mode, payload)?;
    let answered = (logged(&first), spent(&second), done(answer));
    let end = place(2076);
    assert_eq!(&rt; answered, (receipt(1, 2076), Some((2048, end)), Some(end)));
    Ok(())
}

/// A gate that notes the points one behind another, each in two digits: the writer's number, and
/// the point's from 1 on.
#[derive(Drop)]
struct Noted {
    digits: AtomicU64,
}

impl Noted {
    fn new() -> Noted {
        Noted {
            digits: AtomicU64::new(0),
        }
    }

    // The digits of all points so far.
    fn digits(&self) -> u64 {
        self.digits.load(Ordering::SeqCst)
    }
}

impl Gate for Noted {
    fn reached(&self, writer: Writer, point: Point) {
        let digit = match point {
            Point::Started => 1,
            Point::Claimed => 2,
            Point::Deposited => 3,
            Point::Accepted => 4,
            Point::Finished => 5,
            Point::Returned => 6,
        };
        let note = 10 * u64::from(writer.0) + digit;
        let now = self.digits().wrapping_mul(100).wrapping_add(note);
        self.digits.store(now, Ordering::SeqCst);
    }
}

// Commits of the same payload by two seats, each with a gate of its own.
fn commit_by_two<R: Wait, G: Gate>(
    rt: &R,
    alloc: Global,
    payload: &[u8],
    zero_gate: &G,
    one_gate: &G,
) -> Result<(Commit, Commit), Fail> {
    let Some(sizes) = Sizes::make(16, 2, 4096, 4) else {
        return Err(Fail::new("no sizes"));
    };
    let first = prepared(alloc, sizes, 1, payload)?;
    let second = prepared(alloc, sizes, 2, payload)?;
    let keeper = ListKeeper::new(alloc, sizes, 7);
    let (path, zero, one) = two_seats(alloc, keeper, sizes)?;
    may_issue(&zero)?;
    let (_zero, first) = path.commit(rt, alloc, zero, first, zero_gate);
    may_issue(&one)?;
    let (_one, second) = path.commit(rt, alloc, one, second, one_gate);
    Ok((first, second))
}

#[test]
fn a_gate_is_told_the_writer_and_each_point_in_order(rt: HostRuntime) -> Result<(), Fail> {
    let zero = Noted::new();
    let one = Noted::new();
    let _answers = commit_by_two(&rt, rt.alloc(), TWO_TABLES, &zero, &one)?;
    let digits = [zero.digits(), one.digits()];
    assert_eq!(&rt; digits, [1_020_304_040_506, 11_121_314_141_516]);
    Ok(())
}
