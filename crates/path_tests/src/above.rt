//! A write of table 0 that has begun goes on behind a flush's barrier, by single tries: it is
//! logged above the bound of the memtable that is flushed, which refuses it, and the next one takes
//! it.
ghost use Rattle.std.specs.Prelude.{◌≡◌, ◌≢◌, ℕ, ◌+◌, ◌<◌, Some, IfSome, IsTrue};
ghost use Rattle.clog_mutation.specs.declared.mutation.Mutation.{Mutation};
ghost use Rattle.path_core.specs.Parts.{seat_table, touches};
ghost use Rattle.path_rule.specs.Layout.{numbers_end};
ghost use Rattle.path_table.specs.Members.{part_of, IsOf};
ghost use Rattle.write_path.specs.Applies.{HoldsUpdates, IsUnappliedFrom};
ghost use Rattle.write_path.specs.Ends.{IsSameWrite, IsUntriedFrom};
ghost use Rattle.write_path.specs.Writes.{IsPrepared};

use crate::commits::{done, place_of};
use crate::turns::find_flush;
use clog_base::{Key, Position, Sizes, Table};
use path_core::Keeper;
use std::alloc::Global;
use std::sync::Wait;
use std::test::*;
use std::thread::yield_now;
use write_path::{
    Accept, Appending, Deposited, MOST_ISSUED, PathSeat, Prepared, TryClaim, WritePath,
};

// The oldest live memtable of table 0 refuses a write, and the next one takes it. It tells the one
// that refused, and its bound.
fn ask_two<K: Keeper>(
    path: &WritePath<K, Global>,
    seat: Deposited<K>,
) -> Option<(Deposited<K>, u64, Key)>
    requires table { IsOf path.now.table.table.shared.table_id path.now.table.size seat.member }
    requires there { 0 < path.now.table.size.tables }
    requires touched { IsTrue (touches seat.tables 0) }
    requires untried { IsUntriedFrom 0 seat }
    ensures same { IfSome result (λ r. IsSameWrite path.now.table.table.shared.table_id
        path.now.table.size seat r.0) }
    ensures placed { IfSome result (λ r. (seat_table (part_of r.0.member) 0).place
        ≡ Some (r.1 + 1)) }
    ensures others { IfSome result (λ r. (t : ℕ) → t ≢ 0
        → seat_table (part_of r.0.member) t ≡ seat_table (part_of seat.member) t) }
    ensures few { IfSome result (λ r. r.1 + 1 < numbers_end) }
{
    let mut seat = seat;
    let first = path.oldest(&mut seat, Table(0));
    let Accept::Later(bound) = path.accept(&mut seat, Table(0), first) else {
        return None;
    };
    match path.accept(&mut seat, Table(0), first + 1) {
        Accept::Yes => Some((seat, first, bound)),
        Accept::Later(_) => None,
    }
}

// What a write of table 0 found: where it ends, the memtable that refused it and its bound, and
// what another seat found at the table's turn before it ended, and where the log was lasting by a
// sync of that seat.
#[derive(Clone, Copy, Debug, PartialEq, Eq)]
pub(crate) struct Late {
    pub(crate) end: Position,
    pub(crate) refused: u64,
    pub(crate) bound: Position,
    pub(crate) turn: u64,
    pub(crate) synced: Option<Position>,
}

// A deposited write is refused by one memtable and put into the next. Before it ends another seat
// looks at the table's turn, and syncs: the flush that waits for the write does not hold that up.
fn end_above<R: Wait, K: Keeper>(
    rt: &R,
    alloc: Global,
    path: &WritePath<K, Global>,
    seat: Deposited<K>,
    rest: Prepared,
    beside: PathSeat<K>,
) -> Option<Late>
    requires table { IsOf path.now.table.table.shared.table_id path.now.table.size seat.member }
    requires beside { IsOf path.now.table.table.shared.table_id path.now.table.size beside.member }
    requires there { path.now.table.size.tables ≡ 16 }
    requires group { seat.writing < numbers_end }
    requires untried { IsUntriedFrom 0 seat }
    requires holds { HoldsUpdates seat rest }
    requires unapplied { IsUnappliedFrom 0 seat }
{
    if seat.tables != 1 {
        return None;
    }
    let end = place_of(seat.end);
    let mut rest = rest;
    let (seat, refused, bound) = ask_two(path, seat)?;
    let seat = path.apply(seat, Table(0), refused + 1, &mut rest);
    let (beside, turn) = find_flush(path, beside, 0);
    if beside.issued() > MOST_ISSUED {
        return None;
    }
    let (_beside, answer) = path.sync(rt, alloc, beside);
    let _seat = path.finish(seat);
    Some(Late {
        end,
        refused,
        bound: place_of(bound),
        turn,
        synced: done(answer),
    })
}

// Waits until the write order is in its next group: a flush has made its bound final by then.
fn await_barrier<R: Wait, K: Keeper>(
    rt: &R,
    path: &WritePath<K, Global>,
    seat: PathSeat<K>,
) -> PathSeat<K>
    requires { IsOf path.now.table.table.shared.table_id path.now.table.size seat.member }
    ensures { IsOf path.now.table.table.shared.table_id path.now.table.size result.member }
{
    let mut seat = seat;
    for _ in rt.forever() {
        match path.try_start(seat) {
            Ok(begun) => {
                let group = begun.group;
                seat = path.stop(begun);
                if group == 1 {
                    return seat;
                }
            }
            Err((refused, _seen)) => seat = refused,
        }
        yield_now();
    }
    unreachable!()
}

// A write that has begun goes on behind a flush's barrier.
pub(crate) fn write_above<R: Wait, K: Keeper>(
    rt: &R,
    alloc: Global,
    path: &WritePath<K, Global>,
    sizes: Sizes,
    seat: Appending<K>,
    write: Prepared,
    beside: PathSeat<K>,
) -> Option<Late>
    requires table { IsOf path.now.table.table.shared.table_id path.now.table.size seat.member }
    requires beside { IsOf path.now.table.table.shared.table_id path.now.table.size beside.member }
    requires group { (seat.writing < numbers_end) × (seat.group < numbers_end) }
    requires prepared { (m : Mutation) × IsPrepared sizes 2 m write }
    requires sized { (sizes.tables ≡ 16) × (sizes.tables ≡ path.now.table.size.tables)
        × (sizes.capacity ≡ path.now.table.size.capacity) }
{
    let beside = await_barrier(rt, path, beside);
    let TryClaim::Claimed(claimed) = path.try_claim(seat, write.size()) else {
        return None;
    };
    let (deposited, rest) = path.deposit(claimed, write);
    end_above(rt, alloc, path, deposited, rest, beside)
}
