//! Syncs of a path on which nothing was written, and of one on which two seats wrote: each waits
//! for the end of its own last write.
use crate::commits::{DELETION, done, one_seat, place, prepared};
use crate::issuing::may_issue;
use crate::turns::two_seats;
use clog_base::Sizes;
use clog_io::OpenGate;
use path_machine::ListKeeper;
use std::alloc::Global;
use std::sync::Wait;
use std::test::*;
use sync_core::SyncCore;
use write_path::SyncAnswer;

// Two syncs of a path that was just opened.
fn sync_twice<R: Wait>(
    rt: &R,
    alloc: Global,
    mode: SyncCore,
) -> Result<(SyncAnswer, SyncAnswer), Fail> {
    let Some(sizes) = Sizes::make(16, 1, 4096, 4) else {
        return Err(Fail::new("no sizes"));
    };
    let (path, seat) = one_seat(alloc, sizes, mode)?;
    may_issue(&seat)?;
    let (seat, first) = path.sync(rt, alloc, seat);
    may_issue(&seat)?;
    let (_seat, second) = path.sync(rt, alloc, seat);
    Ok((first, second))
}

// What two seats are answered: the one before it has written, while the other's write is pending;
// the other behind its write; the same again, where the one has written behind its marker; and the
// one behind its write.
fn sync_by_both<R: Wait>(rt: &R, alloc: Global) -> Result<[SyncAnswer; 4], Fail> {
    let Some(sizes) = Sizes::make(16, 2, 4096, 4) else {
        return Err(Fail::new("no sizes"));
    };
    let first = prepared(alloc, sizes, 1, DELETION)?;
    let second = prepared(alloc, sizes, 2, DELETION)?;
    let (path, zero, one) = two_seats(alloc, ListKeeper::new(alloc, sizes, 7), sizes)?;
    let (zero, _written) = path.write(rt, zero, first, &OpenGate::new());
    may_issue(&one)?;
    let (one, before) = path.sync(rt, alloc, one);
    may_issue(&zero)?;
    let (zero, behind) = path.sync(rt, alloc, zero);
    let (one, _written) = path.write(rt, one, second, &OpenGate::new());
    may_issue(&zero)?;
    let (_zero, again) = path.sync(rt, alloc, zero);
    may_issue(&one)?;
    let (_one, last) = path.sync(rt, alloc, one);
    Ok([before, behind, again, last])
}

#[test]
fn a_fresh_path_is_synced_to_its_start(rt: HostRuntime) -> Result<(), Fail> {
    let (first, second) = sync_twice(&rt, rt.alloc(), SyncCore::batch())?;
    assert_eq!(&rt;
        [done(first), done(second)],
        [Some(place(0)), Some(place(0))]
    );
    let (first, second) = sync_twice(&rt, rt.alloc(), SyncCore::periodic(10))?;
    assert_eq!(&rt;
        [done(first), done(second)],
        [Some(place(0)), Some(place(0))]
    );
    Ok(())
}

#[test]
fn a_sync_waits_for_the_seats_own_last_write(rt: HostRuntime) -> Result<(), Fail> {
    let [before, behind, again, last] = sync_by_both(&rt, rt.alloc())?;
    assert_eq!(&rt;
        [done(before), done(behind), done(again), done(last)],
        [
            Some(place(0)),
            Some(place(60)),
            Some(place(60)),
            Some(place(100))
        ]
    );
    Ok(())
}
