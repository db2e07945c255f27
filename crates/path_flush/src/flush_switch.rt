//! A flush switches its table's memtables, while it holds both turns: the next memtable is made,
//! and the one below it final at a key at or above all that the seat wrote, and a barrier is
//! issued. Then it waits for the barrier, with its table's turn alone: nothing more comes into that
//! one.
ghost use Rattle.std.specs.Prelude.{◌<◌, ◌≤◌};
ghost use Rattle.path_rule.specs.Issued.{issued_in, most_issued, opened_in};
ghost use Rattle.path_rule.specs.Layout.{numbers_end};
ghost use Rattle.path_rule.specs.Lasts.{shows_of};
ghost use Rattle.path_rule.specs.Switches.{FlushNewest, FlushOldest};
ghost use Rattle.path_table.specs.Members.{view_of, part_of, IsOf, KeepsBoxes};
ghost use Rattle.path_flush.specs.FlushTurns.{HasTable, HoldsBoth, IsHolder};
ghost use Rattle.path_flush.specs.FlushSwitches.{MadeFinal, SwitchedTo};
ghost use Rattle.path_flush.specs.Seats.{Stays};

use crate::flush_ending::give_sync_beside;
use crate::flush_passing::await_barrier;
use clog_base::{Key, Table};
use path_core::{Keeper, Order};
use path_rounds::{Holder, issue_write};
use path_table::{Member, PathTable};
use std::alloc::Allocator;
use std::sync::Wait;

// Makes the next memtable, and the newest one so far final. Returns its bound: all that the
// seat wrote ends at or below it.
fn make_final<K: Keeper, A: Allocator>(
    path: &PathTable<K, A>,
    member: &mut Member<K>,
    table: Table,
    newest: u64,
) -> Key
    requires table { IsOf path.now.table.shared.table_id path.now.size member.old }
    requires holder { IsHolder table.0 (view_of member.old) }
    requires turn { FlushNewest table.0 (part_of member.old) newest
        × FlushOldest table.0 (part_of member.old) newest × (newest < numbers_end) }
    requires paid { opened_in (view_of member.old).trail
        ≤ issued_in (view_of member.old).trail }
    ensures same { KeepsBoxes member.old member.new }
    ensures made { MadeFinal member.old.number table.0 newest result.0 (view_of member.old)
        (view_of member.new) }
{
    path.clear_place(member, table, newest + 1);
    path.open_memtable(member, table, newest + 1);
    path.mark_memtable(member, table, newest);
    let key = path.look_log(member);
    path.raise_marked(member, table, newest, Key(key));
    path.finalise_memtable(member, table, newest)
}

// Switches the table's memtables with both turns, gives the Sync turn back, and waits for the
// barrier. Returns the bound of the memtable that was the newest, and the barrier's group. No
// clause says that it returns.
pub(crate) fn switch_table<K: Keeper, A: Allocator, R: Wait>(
    path: &PathTable<K, A>,
    rt: &R,
    member: Member<K>,
    table: Table,
    newest: u64,
) -> (Member<K>, Key, u64)
    requires table { IsOf path.now.table.shared.table_id path.now.size member }
    requires holds { HoldsBoth (shows_of K.holds) table.0 member.seat.me }
    requires turn { FlushNewest table.0 (part_of member) newest
        × FlushOldest table.0 (part_of member) newest × (newest < numbers_end) }
    requires numbers { (opened_in (view_of member).trail ≤ issued_in (view_of member).trail)
        × (issued_in (view_of member).trail < most_issued) }
    ensures same { Stays path.now.table.shared.table_id path.now.size member
        result.0 }
    ensures holds { HasTable table.0 result.0.seat.me }
    ensures switched { SwitchedTo member.number table.0 newest result.1.0 result.2 (view_of member)
        (view_of result.0) }
{
    let mut member = member;
    let current = path.seek_current(&mut member, Order::Write);
    let bound = make_final(path, &mut member, table, newest);
    let holder = issue_write(path, rt, Holder { member }, current);
    let member = give_sync_beside(path, holder.member, table);
    let member = await_barrier(path, rt, member, table, current);
    (member, bound, current)
}
