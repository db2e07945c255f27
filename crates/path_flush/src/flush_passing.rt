//! A flush waits for its barrier with its table's turn alone: others sync meanwhile, and flush
//! other tables. The barrier is passed once the oldest group of the write order is a later one;
//! while nobody else moves that on, the flush does, where it finds the Sync turn free.
ghost use Rattle.std.specs.Prelude.{◌≡◌, ◌≤◌, ℕ, None, Some};
ghost use Rattle.path_core.specs.declared.seat.Switching.TheVariants.{WithBarrier};
ghost use Rattle.path_core.specs.Parts.{seat_table, stage_of};
ghost use Rattle.path_rule.specs.Issued.{issued_in, opened_in};
ghost use Rattle.path_rule.specs.Turns.{FoundPast};
ghost use Rattle.path_table.specs.Members.{view_of, part_of, hands_of, IsOf};
ghost use Rattle.path_flush.specs.FlushFilings.{IsBarred};
ghost use Rattle.path_flush.specs.FlushSteps.{QuietSteps};
ghost use Rattle.path_flush.specs.FlushTurns.{HasTable};
ghost use Rattle.path_flush.specs.Seats.{Stays};

use crate::flush_ending::give_sync_beside;
use crate::flush_turn::try_sync_beside;
use clog_base::Table;
use crossbeam_utils::Backoff;
use op_core::Order;
use path_core::Keeper;
use path_rounds::{Advance, try_advance, wait_a_turn};
use path_table::{Member, PathSeat, PathTable};
use std::alloc::Allocator;
use std::sync::Wait;

// Whether the oldest group moved on.
fn has_moved(tried: Advance) -> bool {
    match tried {
        Advance::Moved(_) => true,
        Advance::Running { .. } => false,
    }
}

// A turn of a wait. Where the group moved on, the wait begins anew.
fn wait_unless<R: Wait>(rt: &R, moved: bool, backoff: &Backoff) {
    if moved {
        backoff.reset();
    } else {
        wait_a_turn(rt, backoff);
    }
}

// Moves the oldest group of the write order on where the Sync turn is found free, and the group
// finished: the turn is given back. It answers whether the group moved.
fn advance_apart<K: Keeper, A: Allocator>(
    path: &PathTable<K, A>,
    member: Member<K>,
    table: Table,
) -> (Member<K>, bool)
    requires table { IsOf path.now.table.shared.table_id path.now.size member }
    requires holds { HasTable table.0 member.seat.me }
    requires barred { IsBarred table.0 (part_of member) }
    ensures same { Stays path.now.table.shared.table_id path.now.size member
        result.0 }
    ensures steps { QuietSteps member.number table.0 0 (view_of member) (view_of result.0) }
    ensures holds { HasTable table.0 result.0.seat.me }
    ensures table { seat_table (part_of result.0) table.0
        ≡ seat_table (part_of member) table.0 }
    ensures reading { (hands_of result.0).reading ≡ (hands_of member).reading }
{
    match try_sync_beside(path, member, table) {
        Ok(mut member) => {
            let tried = try_advance(path, &mut member, Order::Write);
            (give_sync_beside(path, member, table), has_moved(tried))
        }
        Err(member) => (member, false),
    }
}

// Waits until the barrier of a group is passed: the oldest group is found behind it. No clause says
// that it returns.
pub(crate) fn await_barrier<K: Keeper, A: Allocator, R: Wait>(
    path: &PathTable<K, A>,
    rt: &R,
    member: Member<K>,
    table: Table,
    group: u64,
) -> Member<K>
    requires table { IsOf path.now.table.shared.table_id path.now.size member }
    requires holds { HasTable table.0 member.seat.me }
    requires barred { IsBarred table.0 (part_of member) }
    ensures same { Stays path.now.table.shared.table_id path.now.size member
        result }
    ensures steps { QuietSteps member.number table.0 0 (view_of member) (view_of result) }
    ensures holds { HasTable table.0 result.seat.me }
    ensures table { seat_table (part_of result) table.0 ≡ seat_table (part_of member) table.0 }
    ensures reading { (hands_of result).reading ≡ (hands_of member).reading }
    ensures past { FoundPast (part_of result) group }
{
    let mut member = member;
    let backoff = Backoff::new();
    for _ in rt.forever() {
        if path.look_passed(&mut member) > group {
            return member;
        }
        let (next, moved) = advance_apart(path, member, table);
        member = next;
        wait_unless(rt, moved, &backoff);
    }
    unreachable!()
}

// Gives the table's turn back behind the barrier of its switch, which was found passed. It is found
// so again, by one look: later looks of a sync may have found another group.
pub(crate) fn leave_passed<K: Keeper, A: Allocator, R: Wait>(
    path: &PathTable<K, A>,
    rt: &R,
    member: Member<K>,
    table: Table,
    group: u64,
) -> PathSeat<K>
    requires table { IsOf path.now.table.shared.table_id path.now.size member }
    requires holds { HasTable table.0 member.seat.me }
    requires unread { (hands_of member).reading ≡ None }
    requires barrier { (m : ℕ) × (stage_of (part_of member) table.0 ≡ Some (WithBarrier m group)) }
    requires paid { opened_in (view_of member).trail ≤ issued_in (view_of member).trail }
    ensures same { Stays path.now.table.shared.table_id path.now.size member
        result.member }
    ensures steps { QuietSteps member.number table.0 0 (view_of member) (view_of result.member) }
{
    let mut member = await_barrier(path, rt, member, table, group);
    path.give_flush(&mut member, table);
    PathSeat { member }
}
