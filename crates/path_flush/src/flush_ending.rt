//! A flush gives its turns back: the Sync turn alone, or both.
ghost use Rattle.std.specs.Prelude.{◌≡◌, ◌≤◌, ℕ, None, Some};
ghost use Rattle.path_core.specs.declared.seat.Switching.TheVariants.{WithBarrier};
ghost use Rattle.path_core.specs.Parts.{seat_table, stage_of};
ghost use Rattle.path_rule.specs.Issued.{issued_in, opened_in};
ghost use Rattle.path_rule.specs.Lasts.{shows_of};
ghost use Rattle.path_table.specs.Members.{view_of, part_of, hands_of, IsOf};
ghost use Rattle.path_flush.specs.FlushFilings.{HasBoth};
ghost use Rattle.path_flush.specs.FlushSteps.{QuietSteps};
ghost use Rattle.path_flush.specs.FlushTurns.{HasTable};
ghost use Rattle.path_flush.specs.Seats.{Stays};

use crate::flush_passing::leave_passed;
use clog_base::Table;
use path_core::Keeper;
use path_table::{Member, PathSeat, PathTable};
use std::alloc::Allocator;
use std::sync::Wait;

// Gives the Sync turn back, with the desk, and keeps the table's.
pub(crate) fn give_sync_beside<K: Keeper, A: Allocator>(
    path: &PathTable<K, A>,
    member: Member<K>,
    table: Table,
) -> Member<K>
    requires table { IsOf path.now.table.shared.table_id path.now.size member }
    requires holds { HasBoth (shows_of K.holds) table.0 member.seat.me }
    ensures same { Stays path.now.table.shared.table_id path.now.size member
        result }
    ensures steps { QuietSteps member.number table.0 0 (view_of member) (view_of result) }
    ensures holds { HasTable table.0 result.seat.me }
    ensures tables { (t : ℕ) → seat_table (part_of result) t ≡ seat_table (part_of member) t }
    ensures reading { (hands_of result).reading ≡ (hands_of member).reading }
{
    let _ = table;
    let mut member = member;
    path.give_sync(&mut member);
    member
}

// Gives both turns back, the Sync turn first: the barrier of the table's switch was found passed.
pub(crate) fn end_flush<K: Keeper, A: Allocator, R: Wait>(
    path: &PathTable<K, A>,
    rt: &R,
    member: Member<K>,
    table: Table,
    group: u64,
) -> PathSeat<K>
    requires table { IsOf path.now.table.shared.table_id path.now.size member }
    requires holds { HasBoth (shows_of K.holds) table.0 member.seat.me }
    requires unread { (hands_of member).reading ≡ None }
    requires barrier { (m : ℕ) × (stage_of (part_of member) table.0 ≡ Some (WithBarrier m group)) }
    requires paid { opened_in (view_of member).trail ≤ issued_in (view_of member).trail }
    ensures same { Stays path.now.table.shared.table_id path.now.size member
        result.member }
    ensures steps { QuietSteps member.number table.0 0 (view_of member) (view_of result.member) }
{
    let member = give_sync_beside(path, member, table);
    leave_passed(path, rt, member, table, group)
}
