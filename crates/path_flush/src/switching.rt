//! A switch of a table's memtable (`ColumnFamilyStore.Flush`, before it writes). The seat takes the
//! table's Flush turn, and beside it the Sync turn; it makes the next memtable, and the newest one
//! so far final. With the table's turn alone it waits for the barrier, and looks into the boxes of
//! all seats. Then it gives that turn back too, and is idle again.
ghost use Rattle.std.specs.Prelude.{◌^◌, ◌≡◌, ◌<◌, ◌≤◌, ℕ, None, Some};
ghost use Rattle.path_core.specs.declared.seat.Switching.TheVariants.{Settled};
ghost use Rattle.path_core.specs.Parts.{stage_of};
ghost use Rattle.path_rule.specs.declared.view.View.{View};
ghost use Rattle.path_rule.specs.Issued.{issued_in, most_issued, opened_in};
ghost use Rattle.path_rule.specs.Layout.{numbers_end};
ghost use Rattle.path_rule.specs.Switches.{FlushNewest, FlushOldest};
ghost use Rattle.path_table.specs.Members.{view_of, part_of, hands_of, IsOf};
ghost use Rattle.path_flush.specs.FlushSteps.{QuietSteps, UnswitchedSteps};
ghost use Rattle.path_flush.specs.FlushTurns.{HasTable, HoldsTable, IsDrained};
ghost use Rattle.path_flush.specs.Switched.{HadTurn, IsSettled, Switches};
ghost use Rattle.path_flush.specs.Seats.{Stays};

use crate::flush_reading::{read_boxes, start_read};
use crate::flush_retire::{leave_empty, leave_filled};
use crate::flush_switch::switch_table;
use crate::flush_turn::{Memtables, look_memtables, take_sync_beside, take_table};
use crate::giving::give_flush_turn;
use crate::switch_answer::Switch;
use clog_base::{Key, Table};
use path_core::Keeper;
use path_table::{Member, PathSeat, PathTable};
use std::alloc::{Allocator, Global};
use std::sync::Wait;

// Gives the table's turn back, where no switch was begun.
pub(crate) fn leave_table<K: Keeper, A: Allocator>(
    path: &PathTable<K, A>,
    member: Member<K>,
    table: Table,
) -> PathSeat<K>
    requires table { IsOf path.now.table.shared.table_id path.now.size member }
    requires holds { HoldsTable table.0 member.seat.me }
    requires settled { stage_of (part_of member) table.0 ≡ Some Settled }
    requires paid { opened_in (view_of member).trail ≤ issued_in (view_of member).trail }
    ensures same { Stays path.now.table.shared.table_id path.now.size member
        result.member }
    ensures steps { QuietSteps member.number table.0 0 (view_of member) (view_of result.member) }
{
    give_flush_turn(path, member, table)
}

// Looks whether the memtable holds something, behind its passed barrier, which is that of this
// group, and retires it where it does not. The table's turn is given back. No clause says that it
// returns.
fn settle<K: Keeper, A: Allocator, R: Wait>(
    path: &PathTable<K, A>,
    rt: &R,
    alloc: Global,
    member: Member<K>,
    table: Table,
    memtable: u64,
    bound: Key,
    group: u64,
) -> (PathSeat<K>, Switch)
    requires table { IsOf path.now.table.shared.table_id path.now.size member }
    requires there { memtable < numbers_end }
    requires holds { HasTable table.0 member.seat.me }
    requires drained { IsDrained table.0 memtable group (view_of member) }
    requires unread { (hands_of member).reading ≡ None }
    requires paid { opened_in (view_of member).trail ≤ issued_in (view_of member).trail }
    ensures same { Stays path.now.table.shared.table_id path.now.size member
        result.0.member }
    ensures steps { UnswitchedSteps member.number table.0 0 (view_of member)
        (view_of result.0.member) }
    ensures settled { IsSettled member.number table.0 memtable bound.0 (view_of member)
        result.1 (view_of result.0.member) }
{
    let member = start_read(path, alloc, member, table, memtable);
    let (member, empty) = read_boxes(path, alloc, member, table, memtable);
    if empty {
        (
            leave_empty(path, rt, member, table, memtable, group),
            Switch::Empty(bound),
        )
    } else {
        (
            leave_filled(path, rt, member, table, group),
            Switch::Left(bound),
        )
    }
}

// Switches the newest memtable, which was found to be the only one in use, with the table's
// turn in hand. No clause says that it returns.
fn switch_newest<K: Keeper, A: Allocator, R: Wait>(
    path: &PathTable<K, A>,
    rt: &R,
    alloc: Global,
    member: Member<K>,
    table: Table,
    newest: u64,
) -> (PathSeat<K>, Switch)
    requires table { IsOf path.now.table.shared.table_id path.now.size member }
    requires holds { HoldsTable table.0 member.seat.me }
    requires settled { stage_of (part_of member) table.0 ≡ Some Settled }
    requires turn { FlushNewest table.0 (part_of member) newest
        × FlushOldest table.0 (part_of member) newest × (newest < numbers_end) }
    requires numbers { (opened_in (view_of member).trail ≤ issued_in (view_of member).trail)
        × (issued_in (view_of member).trail < most_issued) }
    ensures same { Stays path.now.table.shared.table_id path.now.size member
        result.0.member }
    ensures had { HadTurn result.1 }
    ensures switches { (w : ℕ) (v : View) → QuietSteps w table.0 0 v (view_of member)
        → member.number ≡ w → Switches w table.0 v result.1 (view_of result.0.member) }
{
    let member = take_sync_beside(path, rt, member, table);
    let (member, bound, group) = switch_table(path, rt, member, table, newest);
    settle(path, rt, alloc, member, table, newest, bound, group)
}

/// Switches a table's memtable: what was live until then takes no write that begins later
/// (`ColumnFamilyStore.Flush`, before it writes). The bound of the old memtable, the log key up to
/// which it takes entries, was set in this call, at or above each write of the seat's list, which
/// is as it was. Then the call waits until each write that was begun before is through, and looks
/// whether the memtable holds something. `Empty` carries the bound, in keys of the log: nothing was
/// seen in the boxes of all seats, and the memtable is retired. `Left` carries it too: the memtable
/// is left behind its barrier, for the flush that is to put its table file. `Waits` has the number
/// of a memtable that an earlier switch left, behind which nothing is switched. `Busy` has what was
/// found in the table's turn word; the seat only looked. The call opens at most one memtable, which
/// is of the table, and issues at most one barrier: none but by `Empty` and `Left`. It takes no
/// memory. No clause says that it returns.
pub fn switch_memtable<K: Keeper, A: Allocator, R: Wait>(
    path: &PathTable<K, A>,
    rt: &R,
    alloc: Global,
    seat: PathSeat<K>,
    table: Table,
) -> (PathSeat<K>, Switch)
    requires table { IsOf path.now.table.shared.table_id path.now.size seat.member }
    requires there { table.0 < path.now.size.tables }
    requires spends { issued_in (view_of seat.member).trail ≤ 2 ^ 40 }
    ensures same { Stays path.now.table.shared.table_id path.now.size seat.member
        result.0.member }
    ensures switches { Switches seat.member.number table.0 (view_of seat.member) result.1
        (view_of result.0.member) }
{
    let mut member = match take_table(path, seat, table) {
        Ok(member) => member,
        Err((seat, found)) => return (seat, Switch::Busy(found)),
    };
    match look_memtables(path, &mut member, table) {
        Memtables::Left(memtable) => { (leave_table(path, member, table), Switch::Waits(memtable)) }
        Memtables::Free(newest) => switch_newest(path, rt, alloc, member, table, newest),
    }
}
