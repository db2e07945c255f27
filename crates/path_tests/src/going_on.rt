//! A flush and a write that began before the flush's barrier, in two threads: the write goes on
//! above the flush's bound, the flush waits until it has ended, and only the next flush's file has
//! it. Another seat's sync, which makes a round of its own, does not wait for the write.
ghost use Rattle.std.specs.Prelude.{◌≡◌, ◌<◌, true, IfOk};
ghost use Rattle.clog_mutation.specs.declared.mutation.Mutation.{Mutation};
ghost use Rattle.path_rule.specs.Layout.{numbers_end};
ghost use Rattle.path_table.specs.Members.{IsOf};
ghost use Rattle.write_path.specs.Writes.{IsPrepared};

use crate::above::{Late, write_above};
use crate::commits::{DELETION, place, prepared};
use crate::flushes::{Unwilling, filing, flushed};
use crate::issuing::may_issue;
use clog_base::{Sizes, Table};
use clog_io::OpenGate;
use path_core::Keeper;
use std::alloc::Global;
use std::sync::Wait;
use std::test::*;
use std::thread;
use std::thread::Threads;
use write_path::{Appending, Flush, PathSeat, WritePath};

// Two flushes of table 0.
fn flush_twice<R: Wait, K: Keeper>(
    rt: &R,
    alloc: Global,
    path: &WritePath<K, Global>,
    seat: PathSeat<K>,
) -> Result<[Flush; 2], Fail>
    requires table { IsOf path.now.table.table.shared.table_id path.now.table.size seat.member }
    requires files { (0 < path.now.table.size.tables) × (path.now.table.size.files ≡ true) }
{
    may_issue(&seat)?;
    let (seat, first) = path.flush(rt, alloc, seat, Table(0));
    may_issue(&seat)?;
    let (_seat, second) = path.flush(rt, alloc, seat, Table(0));
    Ok([first, second])
}

// A path whose memtables may go to table files, and its three seats.
fn three_filing(
    alloc: Global,
    sizes: Sizes,
) -> Result<
    (
        WritePath<Unwilling, Global>,
        PathSeat<Unwilling>,
        PathSeat<Unwilling>,
        PathSeat<Unwilling>,
    ),
    Fail,
>
    ensures zero { IfOk result (λ r. IsOf r.0.table.table.shared.table_id r.0.table.size
        r.1.member) }
    ensures one { IfOk result (λ r. IsOf r.0.table.table.shared.table_id r.0.table.size
        r.2.member) }
    ensures two { IfOk result (λ r. IsOf r.0.table.table.shared.table_id r.0.table.size
        r.3.member) }
    ensures sized { IfOk result (λ r. (sizes.tables ≡ r.0.table.size.tables)
        × (sizes.capacity ≡ r.0.table.size.capacity) × (r.0.table.size.files ≡ true)) }
{
    let mut path = filing(alloc, sizes, 0)?;
    let mut seats = path.seats(alloc)?;
    let (Some(two), Some(one), Some(zero)) = (seats.pop(), seats.pop(), seats.pop()) else {
        return Err(Fail::new("no three seats"));
    };
    Ok((path, zero, one, two))
}

// A seat joins both orders.
fn begun<K: Keeper>(path: &WritePath<K, Global>, seat: PathSeat<K>) -> Result<Appending<K>, Fail>
    requires { IsOf path.now.table.table.shared.table_id path.now.table.size seat.member }
    ensures { IfOk result (λ a. IsOf path.now.table.table.shared.table_id path.now.table.size
        a.member × (a.writing < numbers_end) × (a.group < numbers_end)) }
{
    let Ok(begun) = path.try_start(seat) else {
        return Err(Fail::new("it did not start"));
    };
    match path.try_append(begun) {
        Ok(appending) => Ok(appending),
        Err(_) => Err(Fail::new("it did not append")),
    }
}

// One thread flushes table 0 behind two commits, and the other goes on with a write that began
// before.
fn flush_beside_write<R: Threads + Wait + Sync>(
    rt: &R,
    alloc: Global,
) -> Result<([Flush; 2], Option<Late>), Fail> {
    let Some(sizes) = Sizes::make(16, 3, 4096, 4) else {
        return Err(Fail::new("no sizes"));
    };
    let early = prepared(alloc, sizes, 1, DELETION)?;
    let beside = prepared(alloc, sizes, 3, DELETION)?;
    let write = prepared(alloc, sizes, 2, DELETION)?;
    let (path, zero, one, two) = three_filing(alloc, sizes)?;
    let path = &path;
    may_issue(&zero)?;
    let (zero, _commit) = path.commit(rt, alloc, zero, early, &OpenGate::new());
    may_issue(&two)?;
    let (two, _commit) = path.commit(rt, alloc, two, beside, &OpenGate::new());
    let one = begun(path, one)?;
    let (files, late) = thread::join(
        rt,
        ||
            requires { IsOf path.now.table.table.shared.table_id path.now.table.size zero.member
                × (path.now.table.size.tables ≡ 16) × (path.now.table.size.files ≡ true) }
        { flush_twice(rt, alloc, path, zero) },
        ||
            requires { IsOf path.now.table.table.shared.table_id path.now.table.size one.member
                × IsOf path.now.table.table.shared.table_id path.now.table.size two.member
                × (one.writing < numbers_end) × (one.group < numbers_end)
                × ((m : Mutation) × IsPrepared sizes 2 m write)
                × (sizes.tables ≡ 16) × (sizes.tables ≡ path.now.table.size.tables)
                × (sizes.capacity ≡ path.now.table.size.capacity) }
        { write_above(rt, alloc, path, sizes, one, write, two) },
    );
    Ok((files?, late))
}

#[test]
fn a_write_above_a_bound_goes_to_the_next_memtable(rt: HostRuntime) -> Result<(), Fail> {
    let ([first, second], late) = flush_beside_write(&rt, rt.alloc())?;
    let wanted = Late {
        end: place(124),
        refused: 0,
        bound: place(92),
        turn: 1,
        synced: Some(place(124)),
    };
    let files = [flushed(first), flushed(second)];
    let intervals = [Some((0, place(92))), Some((92, place(132)))];
    assert_eq!(&rt; (late, files), (Some(wanted), intervals));
    Ok(())
}
