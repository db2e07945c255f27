//! Claims that roll over a segment's end, by worked values, in segments of 4096 bytes.
ghost use Rattle.std.specs.Prelude.{◌≡◌, IfOk};
ghost use Rattle.clog_mutation.specs.declared.mutation.Mutation.{Mutation};
ghost use Rattle.write_path.specs.Writes.{IsPrepared};

use crate::commits::{done, logged, one_seat, place, prepared};
use crate::issuing::may_issue;
use clog_base::{Position, Sizes};
use clog_io::OpenGate;
use std::alloc::Global;
use std::sync::Wait;
use std::test::*;
use sync_core::SyncCore;
use write_path::{Commit, Prepared, Receipt, SyncAnswer};

/// Before a value's length: key `k`, table 0, column `c`, timestamp 1.
const BEFORE_LENGTH: &[u8] = b"\x00\x01k\x00\x01\x00\x00\x01c\x00\x00\x00\x00\x00\x00\x00\x01\x01";

/// The bytes of an entry but for its value.
const AROUND_VALUE: u32 = 34;

// The payload of an entry of so many bytes.
fn payload_for(alloc: Global, entry: u32) -> Result<Vec<u8>, Fail> {
    let long = entry.saturating_sub(AROUND_VALUE);
    let mut payload = Vec::new(alloc);
    payload.extend_from_slice(BEFORE_LENGTH)?;
    payload.extend_from_slice(&long.to_be_bytes())?;
    for _ in 0..long {
        payload.push(b'x')?;
    }
    Ok(payload)
}

// The write of a line whose entry has so many bytes.
pub(crate) fn write_of(alloc: Global, sizes: Sizes, line: u32, entry: u32) -> Result<Prepared, Fail>
    requires { sizes.tables ≡ 16 }
    ensures { IfOk result (λ p. (m : Mutation) × IsPrepared sizes line m p) }
{
    let payload = payload_for(alloc, entry)?;
    prepared(alloc, sizes, line, payload.as_slice())
}

// Commits of entries of so many bytes, the second behind the first, and a third behind a sync.
fn commit_sync_commit<R: Wait>(
    rt: &R,
    alloc: Global,
    first: u32,
    second: u32,
    third: u32,
) -> Result<(Commit, SyncAnswer, Commit), Fail> {
    let Some(sizes) = Sizes::make(16, 1, 4096, 4) else {
        return Err(Fail::new("no sizes"));
    };
    let one = write_of(alloc, sizes, 1, first)?;
    let two = write_of(alloc, sizes, 2, second)?;
    let three = write_of(alloc, sizes, 3, third)?;
    let (path, seat) = one_seat(alloc, sizes, SyncCore::periodic(10))?;
    may_issue(&seat)?;
    let (seat, _answer) = path.commit(rt, alloc, seat, one, &OpenGate::new());
    may_issue(&seat)?;
    let (seat, behind) = path.commit(rt, alloc, seat, two, &OpenGate::new());
    may_issue(&seat)?;
    let (seat, answer) = path.sync(rt, alloc, seat);
    may_issue(&seat)?;
    let (_seat, last) = path.commit(rt, alloc, seat, three, &OpenGate::new());
    Ok((behind, answer, last))
}

// The receipt of a line whose entry ends at an offset of a segment.
fn at(line: u32, id: u64, offset: u32) -> Option<Receipt> {
    Some(Receipt {
        line,
        position: Position { id, offset },
    })
}

#[test]
fn an_entry_that_leaves_a_byte_free_stays(rt: HostRuntime) -> Result<(), Fail> {
    let (second, answer, third) = commit_sync_commit(&rt, rt.alloc(), 2000, 1964, 95)?;
    let answered = (logged(&second), done(answer), logged(&third));
    assert_eq!(&rt;
        answered,
        (at(2, 7, 3992), Some(place(3992)), at(3, 7, 4095))
    );
    Ok(())
}

#[test]
fn an_entry_that_fills_the_segment_goes_to_the_next(rt: HostRuntime) -> Result<(), Fail> {
    let (second, answer, third) = commit_sync_commit(&rt, rt.alloc(), 2000, 1964, 96)?;
    let answered = (logged(&second), done(answer), logged(&third));
    assert_eq!(&rt;
        answered,
        (at(2, 7, 3992), Some(place(3992)), at(3, 8, 124))
    );
    Ok(())
}

#[test]
fn a_marker_takes_the_last_bytes(rt: HostRuntime) -> Result<(), Fail> {
    let (second, answer, third) = commit_sync_commit(&rt, rt.alloc(), 2030, 2029, 35)?;
    let answered = (logged(&second), done(answer), logged(&third));
    assert_eq!(&rt; answered, (at(2, 7, 4087), Some(place(4087)), at(3, 8, 63)));
    Ok(())
}

#[test]
fn a_marker_that_does_not_fit_moves_the_log_on(rt: HostRuntime) -> Result<(), Fail> {
    let (second, answer, third) = commit_sync_commit(&rt, rt.alloc(), 2030, 2030, 35)?;
    let answered = (logged(&second), done(answer), logged(&third));
    assert_eq!(&rt; answered, (at(2, 7, 4088), Some(place(4088)), at(3, 8, 63)));
    Ok(())
}
