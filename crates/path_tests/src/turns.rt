//! Two seats and turns: who gets the Sync turn, and that each table's turn is one of its own.
ghost use Rattle.std.specs.Prelude.{◌≡◌, ◌<◌, IfOk};
ghost use Rattle.clog_base.specs.declared.cell.Table.{Table};
ghost use Rattle.path_core.specs.declared.event.Turn.TheVariants.{Flush};
ghost use Rattle.path_core.specs.Keeper.{IsFresh};
ghost use Rattle.path_table.specs.Members.{IsOf};
ghost use Rattle.path_flush.specs.Seats.{Stays};

use clog_base::{Sizes, Table};
use path_core::{Keeper, Order, Turn};
use path_machine::ListKeeper;
use std::alloc::Global;
use std::test::*;
use sync_core::SyncCore;
use write_path::{Advance, PathSeat, WritePath};

// A path with two seats in batch mode, over a keeper whose first segment is 7.
pub(crate) fn two_seats<K: Keeper + Drop>(
    alloc: Global,
    keeper: K,
    sizes: Sizes,
) -> Result<(WritePath<K, Global>, PathSeat<K>, PathSeat<K>), Fail>
    requires { IsFresh 7 sizes (K.holds keeper) }
    ensures zero { IfOk result (λ r. IsOf r.0.table.table.shared.table_id r.0.table.size
        r.1.member) }
    ensures one { IfOk result (λ r. IsOf r.0.table.table.shared.table_id r.0.table.size
        r.2.member) }
    ensures sized { IfOk result (λ r. (sizes.tables ≡ r.0.table.size.tables)
        × (sizes.capacity ≡ r.0.table.size.capacity)) }
{
    let Ok(mut path) = WritePath::open(alloc, keeper, sizes, 7, SyncCore::batch()) else {
        return Err(Fail::new("no path"));
    };
    let mut seats = path.seats(alloc)?;
    let (Some(one), Some(zero)) = (seats.pop(), seats.pop()) else {
        return Err(Fail::new("no two seats"));
    };
    Ok((path, zero, one))
}

// What a seat finds at a turn: 0 where it takes it, and then it gives it back.
fn find_turn<K: Keeper>(
    path: &WritePath<K, Global>,
    seat: PathSeat<K>,
    turn: Turn,
) -> (PathSeat<K>, u64)
    requires table { IsOf path.now.table.table.shared.table_id path.now.table.size seat.member }
    requires there { (t : Table) → turn ≡ Flush t → t.0 < path.now.table.size.tables }
    ensures { Stays path.now.table.table.shared.table_id path.now.table.size seat.member
        result.0.member }
{
    match path.try_turn(seat, turn) {
        Ok(held) => (path.give(held), 0),
        Err(refused) => refused,
    }
}

// The same of a table's turn.
pub(crate) fn find_flush<K: Keeper>(
    path: &WritePath<K, Global>,
    seat: PathSeat<K>,
    table: u8,
) -> (PathSeat<K>, u64)
    requires table { IsOf path.now.table.table.shared.table_id path.now.table.size seat.member }
    requires there { table < path.now.table.size.tables }
    ensures { Stays path.now.table.table.shared.table_id path.now.table.size seat.member
        result.0.member }
{
    find_turn(path, seat, Turn::Flush(Table(table)))
}

// While one seat has the turn of table 3, what the other finds at it, at the Sync turn and at the
// turn of table 4; and at that of table 3 again, once it was given back.
fn find_beside<K: Keeper>(
    path: &WritePath<K, Global>,
    zero: PathSeat<K>,
    one: PathSeat<K>,
) -> Option<[u64; 4]>
    requires zero { IsOf path.now.table.table.shared.table_id path.now.table.size zero.member }
    requires one { IsOf path.now.table.table.shared.table_id path.now.table.size one.member }
    requires tables { path.now.table.size.tables ≡ 16 }
{
    let Ok(held) = path.try_turn(zero, Turn::Flush(Table(3))) else {
        return None;
    };
    let (one, same) = find_flush(path, one, 3);
    let (one, sync) = find_turn(path, one, Turn::Sync);
    let (one, other) = find_flush(path, one, 4);
    let _zero = path.give(held);
    let (_one, after) = find_flush(path, one, 3);
    Some([same, sync, other, after])
}

#[test]
fn each_table_has_a_turn_of_its_own(rt: HostRuntime) -> Result<(), Fail> {
    let alloc = rt.alloc();
    let Some(sizes) = Sizes::make(16, 2, 4096, 4) else {
        return Err(Fail::new("no sizes"));
    };
    let keeper = ListKeeper::new(alloc, sizes, 7);
    let (path, zero, one) = two_seats(alloc, keeper, sizes)?;
    assert_eq!(&rt; find_beside(&path, zero, one), Some([1, 0, 0, 0]));
    Ok(())
}

// While one seat has the Sync turn, what it finds at the oldest group of the append order, and what
// the other finds at the turn; and at the turn again, once it was given back.
fn find_sync<K: Keeper>(
    path: &WritePath<K, Global>,
    zero: PathSeat<K>,
    one: PathSeat<K>,
) -> Option<(Advance, u64, u64)>
    requires zero { IsOf path.now.table.table.shared.table_id path.now.table.size zero.member }
    requires one { IsOf path.now.table.table.shared.table_id path.now.table.size one.member }
{
    let Ok(mut held) = path.try_turn(zero, Turn::Sync) else {
        return None;
    };
    let oldest = path.try_advance(&mut held, Order::Append);
    let (one, beside) = find_turn(path, one, Turn::Sync);
    let _zero = path.give(held);
    let (_one, after) = find_turn(path, one, Turn::Sync);
    Some((oldest, beside, after))
}

#[test]
fn one_seat_has_the_turn(rt: HostRuntime) -> Result<(), Fail> {
    let alloc = rt.alloc();
    let Some(sizes) = Sizes::make(16, 2, 4096, 4) else {
        return Err(Fail::new("no sizes"));
    };
    let keeper = ListKeeper::new(alloc, sizes, 7);
    let (path, zero, one) = two_seats(alloc, keeper, sizes)?;
    let runs = Advance::Running { group: 0, count: 0 };
    assert_eq!(&rt; find_sync(&path, zero, one), Some((runs, 1, 0)));
    Ok(())
}
