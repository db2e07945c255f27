//! Operations that register by a look from before a barrier: between its steps, and behind them.
ghost use Rattle.op_core.specs.CountWords.{number_in};
ghost use Rattle.std.specs.Prelude.{◌≡◌, ◌<◌, ◌^◌, Some, IfOk};
ghost use Rattle.op_core.specs.declared.count.Order.TheVariants.{Write};
ghost use Rattle.path_core.specs.Parts.{found_of};
ghost use Rattle.path_rule.specs.Layout.{numbers_end};
ghost use Rattle.path_table.specs.Members.{part_of, IsOf};

use crate::barriers::{opened, waiting};
use op_core::Order;
use path_core::Keeper;
use path_rounds::{Advance, try_advance};
use path_table::{EXPIRED, PathSeat, PathTable};
use std::alloc::Global;
use std::test::*;

// The current group of the write order and its count, as a seat finds them.
fn look_twice<K: Keeper>(table: &PathTable<K, Global>, seat: PathSeat<K>) -> (PathSeat<K>, u64, u64)
    requires { IsOf table.now.table.shared.table_id table.now.size seat.member }
    ensures same { IsOf table.now.table.shared.table_id table.now.size result.0.member }
    ensures group { (result.1 < numbers_end)
        × ((found_of Write (part_of result.0.member)).current ≡ Some result.1) }
{
    let PathSeat { mut member } = seat;
    let group = table.look_write(&mut member);
    let looked = table.look_writers(&mut member, group);
    (PathSeat { member }, group, looked)
}

// A seat registers between the steps of a barrier. What it finds, what the group's expiry finds,
// and what tries to move the oldest group on answer while the seat is in it, and behind that.
fn register_late(alloc: Global) -> Result<(u64, u64, Advance, Advance), Fail> {
    let (table, mut opener) = opened(alloc)?;
    let zero = table.seat(&mut opener);
    let member = table.seat(&mut opener);
    let (seat, group, looked) = look_twice(&table, PathSeat { member });
    if looked != 0 || group != 0 {
        return Err(Fail::new("the table is in use"));
    }
    let mut zero = waiting(&table, zero)?;
    table.open_write(&mut zero, 1, 0);
    table.move_write(&mut zero, 1, 0);
    let PathSeat { mut member } = seat;
    let found = table.register(&mut member, group, looked);
    if found != looked {
        return Err(Fail::new("it did not register"));
    }
    let expired = table.expire_write(&mut zero, 0, 1);
    let runs = try_advance(&table, &mut zero, Order::Write);
    let _left = table.leave(&mut member, group);
    let moved = try_advance(&table, &mut zero, Order::Write);
    Ok((found, expired, runs, moved))
}

#[test]
fn a_barrier_waits_for_a_late_operation(rt: HostRuntime) -> Result<(), Fail> {
    let (found, expired, runs, moved) = register_late(rt.alloc())?;
    assert_eq!(&rt; (found, expired), (0, 1));
    let count = EXPIRED + 1;
    let wanted = [Advance::Running { group: 0, count }, Advance::Moved(1)];
    assert_eq!(&rt; [runs, moved], wanted);
    Ok(())
}

// A try to register that is refused, and the count that it finds.
fn refuse_register<K: Keeper>(
    table: &PathTable<K, Global>,
    seat: PathSeat<K>,
    group: u64,
    looked: u64,
) -> Result<(PathSeat<K>, u64), Fail>
    requires table { IsOf table.now.table.shared.table_id table.now.size seat.member }
    requires group { (group < numbers_end) × (number_in looked ≡ group) × (looked < 2 ^ 63)
        × ((found_of Write (part_of seat.member)).current ≡ Some group) }
    ensures { IfOk result (λ r. IsOf table.now.table.shared.table_id table.now.size r.0.member) }
{
    let PathSeat { mut member } = seat;
    let found = table.register(&mut member, group, looked);
    if found == looked {
        return Err(Fail::new("it registered"));
    }
    Ok((PathSeat { member }, found))
}

// A seat tries to register behind the steps of a barrier. What it finds, and which group it is in
// once it has looked again.
fn register_stale(alloc: Global) -> Result<(u64, u64), Fail> {
    let (table, mut opener) = opened(alloc)?;
    let zero = table.seat(&mut opener);
    let member = table.seat(&mut opener);
    let (seat, group, looked) = look_twice(&table, PathSeat { member });
    if looked != 0 || group != 0 {
        return Err(Fail::new("the table is in use"));
    }
    let mut zero = waiting(&table, zero)?;
    table.open_write(&mut zero, 1, 0);
    table.move_write(&mut zero, 1, 0);
    let _expired = table.expire_write(&mut zero, 0, 1);
    let (seat, found) = refuse_register(&table, seat, group, looked)?;
    let Ok(begun) = table.try_start(seat) else {
        return Err(Fail::new("it did not start"));
    };
    Ok((found, begun.group))
}

#[test]
fn a_stale_look_is_refused(rt: HostRuntime) -> Result<(), Fail> {
    assert_eq!(&rt; register_stale(rt.alloc())?, (EXPIRED, 1));
    Ok(())
}
