//! A memtable to which nothing was written goes: it is retired without a table file, for which the
//! Sync turn is taken. One that holds something is left. All turns are given back.
ghost use Rattle.std.specs.Prelude.{◌≡◌, ℕ, ◌<◌, ◌≤◌, None, Some};
ghost use Rattle.path_core.specs.declared.seat.Switching.TheVariants.{WithBarrier};
ghost use Rattle.path_core.specs.Parts.{stage_of};
ghost use Rattle.path_rule.specs.Flushes.{SeesNone, TakesNone};
ghost use Rattle.path_rule.specs.Issued.{issued_in, opened_in};
ghost use Rattle.path_rule.specs.Layout.{numbers_end};
ghost use Rattle.path_rule.specs.Lasts.{shows_of};
ghost use Rattle.path_table.specs.Members.{view_of, part_of, hands_of, IsOf};
ghost use Rattle.path_flush.specs.FlushSteps.{RetiresEmpty, UnswitchedSteps};
ghost use Rattle.path_flush.specs.FlushTurns.{HasTable, HoldsBoth};
ghost use Rattle.path_flush.specs.Seats.{Stays};

use crate::flush_ending::end_flush;
use crate::flush_passing::leave_passed;
use crate::flush_turn::take_sync_beside;
use clog_base::Table;
use path_core::Keeper;
use path_table::{Member, PathSeat, PathTable};
use std::alloc::Allocator;
use std::sync::Wait;

// Retires a memtable in which nothing was seen.
pub(crate) fn retire_read<K: Keeper, A: Allocator>(
    path: &PathTable<K, A>,
    member: Member<K>,
    table: Table,
    memtable: u64,
) -> Member<K>
    requires table { IsOf path.now.table.shared.table_id path.now.size member }
    requires there { memtable < numbers_end }
    requires holds { HoldsBoth (shows_of K.holds) table.0 member.seat.me }
    requires sees { SeesNone path.now.size.seats (hands_of member) table.0 memtable }
    ensures same { Stays path.now.table.shared.table_id path.now.size member
        result }
    ensures steps { UnswitchedSteps member.number table.0 0 (view_of member) (view_of result) }
    ensures holds { HoldsBoth (shows_of K.holds) table.0 result.seat.me }
    ensures stage { stage_of (part_of result) table.0 ≡ stage_of (part_of member) table.0 }
    ensures unread { (hands_of result).reading ≡ None }
    ensures retires { RetiresEmpty member.number table.0 memtable (view_of member)
        (view_of result) }
{
    let mut member = member;
    path.retire_empty(&mut member, table, memtable);
    member
}

// Retires a memtable in which nothing was seen, and whose barrier, that of this group, was found
// passed. The Sync turn is taken for that, and both turns are given back. No clause says that it
// returns.
pub(crate) fn leave_empty<K: Keeper, A: Allocator, R: Wait>(
    path: &PathTable<K, A>,
    rt: &R,
    member: Member<K>,
    table: Table,
    memtable: u64,
    group: u64,
) -> PathSeat<K>
    requires table { IsOf path.now.table.shared.table_id path.now.size member }
    requires there { memtable < numbers_end }
    requires holds { HasTable table.0 member.seat.me }
    requires sees { SeesNone path.now.size.seats (hands_of member) table.0 memtable }
    requires barrier { stage_of (part_of member) table.0 ≡ Some (WithBarrier memtable group) }
    requires paid { opened_in (view_of member).trail ≤ issued_in (view_of member).trail }
    ensures same { Stays path.now.table.shared.table_id path.now.size member
        result.member }
    ensures steps { UnswitchedSteps member.number table.0 0 (view_of member)
        (view_of result.member) }
    ensures retires { RetiresEmpty member.number table.0 memtable (view_of member)
        (view_of result.member) }
{
    let member = take_sync_beside(path, rt, member, table);
    let member = retire_read(path, member, table, memtable);
    end_flush(path, rt, member, table, group)
}

// Leaves a memtable in which something was seen, or of which not all was seen, and whose barrier,
// that of this group, was found passed: it reads it no more, and gives the table's turn back.
pub(crate) fn leave_filled<K: Keeper, A: Allocator, R: Wait>(
    path: &PathTable<K, A>,
    rt: &R,
    member: Member<K>,
    table: Table,
    group: u64,
) -> PathSeat<K>
    requires table { IsOf path.now.table.shared.table_id path.now.size member }
    requires holds { HasTable table.0 member.seat.me }
    requires unread { TakesNone (hands_of member) }
    requires barrier { (m : ℕ) × (stage_of (part_of member) table.0 ≡ Some (WithBarrier m group)) }
    requires paid { opened_in (view_of member).trail ≤ issued_in (view_of member).trail }
    ensures same { Stays path.now.table.shared.table_id path.now.size member
        result.member }
    ensures steps { UnswitchedSteps member.number table.0 0 (view_of member)
        (view_of result.member) }
{
    let mut member = member;
    let _newest = path.end_read(&mut member, table);
    leave_passed(path, rt, member, table, group)
}
