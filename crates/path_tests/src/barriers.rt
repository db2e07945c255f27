//! Two seats and a barrier, its steps one by one by hand, and that a table and its seats go between
//! threads.
ghost use Rattle.std.specs.Prelude.{◌≡◌, ℕ, ◌+◌, ◌<◌, ◌≤◌, [], None, Some, IfOk};
ghost use Rattle.op_core.specs.declared.count.Order.TheVariants.{Write};
ghost use Rattle.path_core.specs.declared.seat.Issue.TheVariants.{Rest};
ghost use Rattle.path_core.specs.declared.seat.Switching.TheVariants.{Waiting};
ghost use Rattle.path_core.specs.Holders.{HasWaiting};
ghost use Rattle.path_core.specs.Parts.{IsIdle, stage_of};
ghost use Rattle.path_rule.specs.Calls.{Holds};
ghost use Rattle.path_rule.specs.Issued.{issued_in, most_issued};
ghost use Rattle.path_rule.specs.Turns.{TurnOld, TurnSaw};
ghost use Rattle.path_table.specs.Members.{view_of, part_of, IsOf};

use clog_base::{Sizes, Table};
use op_core::Order;
use path_core::Keeper;
use path_machine::ListKeeper;
use path_rounds::{Advance, Holder, issue_write, try_advance};
use path_rule::PathSize;
use path_table::{Member, ONE_GROUP, Opener, PathSeat, PathTable, open};
use std::alloc::Global;
use std::test::*;

fn is_shared<T: Sync>(_value: &T) {}

fn is_sent<T: Send>(value: T) -> T
    ensures { result ≡ value }
{
    value
}

// Threads share a table, and a seat goes from one to another.
fn crosses<K: Keeper + Send>(table: &PathTable<K, Global>, member: Member<K>) -> Member<K>
    ensures { result ≡ member }
{
    is_shared(table);
    is_sent(member)
}

// A table of two seats, and the seat that hands them out.
pub(crate) fn opened(
    alloc: Global,
) -> Result<(PathTable<ListKeeper, Global>, Opener<ListKeeper>), Fail>
    ensures of { IfOk result (λ r. (r.1.seat.table_id ≡ r.0.table.shared.table_id)
        × (r.1.seat.me.0.size ≡ r.0.size)) }
    ensures seats { IfOk result (λ r. (r.1.made ≡ 0) × (r.0.size.seats ≡ 2)
        × (r.0.size.tables ≡ 1)) }
{
    let Some(sizes) = Sizes::make(1, 2, 4096, 4) else {
        return Err(Fail::new("no sizes"));
    };
    let size = PathSize {
        tables: u64::from(sizes.tables),
        seats: 2,
        capacity: u64::from(sizes.capacity),
        ordinals: u64::from(sizes.ordinals),
        base: 7,
        at_open: 0,
        files: false,
    };
    let keeper = ListKeeper::new(alloc, sizes, 7);
    match open(alloc, keeper, size) {
        Ok(opened) => Ok(opened),
        Err(_) => Err(Fail::new("no table")),
    }
}

// An idle seat that made no step takes the turn of table 0, and makes its first memtable final.
fn switched<K: Keeper>(table: &PathTable<K, Global>, member: Member<K>) -> Result<Member<K>, Fail>
    requires table { IsOf table.now.table.shared.table_id table.now.size member }
    requires there { 0 < table.now.size.tables }
    requires idle { IsIdle (part_of member) × ((part_of member).sync ≡ None) }
    requires fresh { (view_of member).trail ≡ [] }
    ensures of { IfOk result (λ m. IsOf table.now.table.shared.table_id table.now.size m) }
    ensures idle { IfOk result (λ m. IsIdle (part_of m) × ((part_of m).sync ≡ None)) }
    ensures waits { IfOk result (λ m. stage_of (part_of m) 0 ≡ Some (Waiting 0)) }
    ensures issued { IfOk result (λ m. issued_in (view_of m).trail ≡ 0) }
{
    let mut member = member;
    let first = Table(0);
    if table.take_flush(&mut member, first) != 0 {
        return Err(Fail::new("the table's turn is taken"));
    }
    let oldest = table.look_oldest_live(&mut member, first);
    let newest = table.look_newest(&mut member, first);
    if oldest != 0 || newest != 0 {
        return Err(Fail::new("the table was switched"));
    }
    table.clear_place(&mut member, first, 1);
    table.open_memtable(&mut member, first, 1);
    table.mark_memtable(&mut member, first, 0);
    let key = table.look_marked(&mut member, first, 0);
    table.raise_marked(&mut member, first, 0, key);
    let _bound = table.finalise_memtable(&mut member, first, 0);
    Ok(member)
}

// The same with the Sync turn: the memtable waits for its barrier, of the first group, and there is
// room for the next one.
pub(crate) fn waiting<K: Keeper>(
    table: &PathTable<K, Global>,
    member: Member<K>,
) -> Result<Member<K>, Fail>
    requires table { IsOf table.now.table.shared.table_id table.now.size member }
    requires there { 0 < table.now.size.tables }
    requires idle { IsIdle (part_of member) × ((part_of member).sync ≡ None) }
    requires fresh { (view_of member).trail ≡ [] }
    ensures of { IfOk result (λ m. IsOf table.now.table.shared.table_id table.now.size m) }
    ensures holds { IfOk result (λ m. Holds Rest (view_of m) × TurnSaw Write (part_of m) 0) }
    ensures waits { IfOk result (λ m. HasWaiting (part_of m)) }
    ensures room { IfOk result (λ m. (h : ℕ) × TurnOld Write (part_of m) h × (1 ≤ h + 31)) }
    ensures issued { IfOk result (λ m. issued_in (view_of m).trail < most_issued) }
{
    let mut member = switched(table, member)?;
    if table.take_sync(&mut member) != 0 {
        return Err(Fail::new("the turn is taken"));
    }
    if table.seek_current(&mut member, Order::Write) != 0 {
        return Err(Fail::new("a group was opened"));
    }
    let _oldest = table.seek_oldest(&mut member, Order::Write);
    Ok(member)
}

#[test]
fn a_barrier_passes(rt: HostRuntime) -> Result<(), Fail> {
    let (table, mut opener) = opened(rt.alloc())?;
    let zero = table.seat(&mut opener);
    let one = crosses(&table, table.seat(&mut opener));
    let zero = waiting(&table, zero)?;
    let Ok(begun) = table.try_start(PathSeat { member: one }) else {
        return Err(Fail::new("the other seat did not start"));
    };
    let _one = table.stop(begun);
    let Holder { mut member } = issue_write(&table, &rt, Holder { member: zero }, 0);
    let moved = try_advance(&table, &mut member, Order::Write);
    assert_eq!(&rt; moved, Advance::Moved(1));
    Ok(())
}

#[test]
fn the_oldest_group_moves_on(rt: HostRuntime) -> Result<(), Fail> {
    let (table, mut opener) = opened(rt.alloc())?;
    let mut zero = waiting(&table, table.seat(&mut opener))?;
    table.open_write(&mut zero, 1, 0);
    table.move_write(&mut zero, 1, 0);
    let found = table.expire_write(&mut zero, 0, 1);
    let moved = try_advance(&table, &mut zero, Order::Write);
    let runs = try_advance(&table, &mut zero, Order::Write);
    let wanted = (
        0,
        Advance::Moved(1),
        Advance::Running {
            group: 1,
            count: ONE_GROUP,
        },
    );
    assert_eq!(&rt; (found, moved, runs), wanted);
    Ok(())
}
