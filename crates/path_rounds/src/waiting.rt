//! Barriers: of the write order, issued for a switched memtable, and of the append order for the
//! last marker, where the call waits until all operations before it are closed
//! (`OpOrder.Barrier.await`).
ghost use Rattle.std.specs.Prelude.{◌*◌, ◌≡◌, ℕ, suc, ◌+◌, ◌<◌, ◌≤◌, true, [], Some};
ghost use Rattle.op_core.specs.declared.count.Order.TheVariants.{Write, Append};
ghost use Rattle.path_core.specs.declared.event.Event.TheVariants.{Advance};
ghost use Rattle.path_core.specs.declared.seat.Issue.TheVariants.{Rest};
ghost use Rattle.path_core.specs.declared.seat.Switching.TheVariants.{Waiting, WithBarrier};
ghost use Rattle.path_core.specs.Holders.{HasWaiting};
ghost use Rattle.path_core.specs.Parts.{marker_of, stage_of};
ghost use Rattle.path_rule.specs.Calls.{Holds, IsPast};
ghost use Rattle.path_rule.specs.HandsAfter.{issued_hands};
ghost use Rattle.path_rule.specs.Issued.{issued_in, most_issued};
ghost use Rattle.path_rule.specs.Layout.{numbers_end};
ghost use Rattle.path_rule.specs.Rounds.{RoundSteps};
ghost use Rattle.path_rule.specs.Switches.{FlushOldest};
ghost use Rattle.path_rule.specs.Turns.{FoundRunning, MarkerWaits, TurnSaw, TurnOld};
ghost use Rattle.path_rule.specs.Turns.{TurnGone, KeepsCurrent};
ghost use Rattle.path_table.specs.Members.{view_of, part_of, hands_of, IsOf, KeepsSizes, Stepped};
ghost use Rattle.path_rounds.specs.Passes.{HasIssued};

use crate::pausing::wait_a_turn;
use crossbeam_utils::Backoff;
use op_core::Order;
use path_core::Keeper;
use path_table::{EXPIRED, Member, ONE_GROUP, PathTable};
use std::alloc::Allocator;
use std::sync::Wait;

/// The seat that has the Sync turn, with no barrier under way and no box of another seat.
#[derive(Drop)]
pub struct Holder<K> {
    /// The seat.
    pub member: Member<K>,
    pub ghost holds: { Holds Rest member.seat.me.0 },
}

// Moves the oldest group of an order over one whose count was found finished.
pub(crate) fn advance<K: Keeper, A: Allocator>(
    path: &PathTable<K, A>,
    member: &mut Member<K>,
    order: Order,
    group: u64,
    oldest: u64,
    current: u64,
)
    requires table { IsOf path.now.table.shared.table_id path.now.size member.old }
    requires turn { Holds Rest (view_of member.old)
        × TurnSaw order (part_of member.old) current
        × TurnOld order (part_of member.old) oldest
        × TurnGone order (part_of member.old) oldest }
    requires group { (group ≡ suc oldest) × (group ≤ current) }
    ensures same { KeepsSizes member.old member.new }
    ensures step { Stepped member.old (Advance member.old.number order group) group
        member.new }
    ensures steps { RoundSteps member.old.number 0 [] (view_of member.old) (view_of member.new) }
    ensures turn { Holds Rest (view_of member.new)
        × KeepsCurrent order (part_of member.old) (part_of member.new) }
    ensures marker { marker_of (part_of member.new) ≡ marker_of (part_of member.old) }
    ensures runs { FoundRunning (part_of member.old) → FoundRunning (part_of member.new) }
    ensures hands { hands_of member.new ≡ hands_of member.old }
    ensures stages { (t : ℕ) → stage_of (part_of member.new) t
        ≡ stage_of (part_of member.old) t }
{
    match order {
        Order::Write => path.advance_write(member, group, oldest, current),
        Order::Append => path.advance_append(member, group, oldest, current),
    }
}

// Moves the oldest group up to a made one, and waits until it is there.
pub(crate) fn advance_to<K: Keeper, A: Allocator, R: Wait>(
    path: &PathTable<K, A>,
    rt: &R,
    holder: Holder<K>,
    order: Order,
    current: u64,
    upto: u64,
) -> Holder<K>
    requires table { IsOf path.now.table.shared.table_id path.now.size holder.member }
    requires current { TurnSaw order (part_of holder.member) current × (upto ≤ current)
        × (current ≤ numbers_end) }
    ensures same { KeepsSizes holder.member result.member }
    ensures steps { RoundSteps holder.member.number 0 [] (view_of holder.member)
        (view_of result.member) }
    ensures past { (h : ℕ) × TurnOld order (part_of result.member) h × (upto ≤ h) }
    ensures marker { marker_of (part_of result.member) ≡ marker_of (part_of holder.member) }
    ensures runs { FoundRunning (part_of holder.member) → FoundRunning (part_of result.member) }
    ensures saw { TurnSaw order (part_of result.member) current }
    ensures hands { hands_of result.member ≡ hands_of holder.member }
    ensures tables { (part_of result.member).tables ≡ (part_of holder.member).tables }
    ensures stages { (t : ℕ) → stage_of (part_of result.member) t
        ≡ stage_of (part_of holder.member) t }
{
    let Holder { mut member } = holder;
    let backoff = Backoff::new();
    for _ in rt.forever() {
        let oldest = path.seek_oldest(&mut member, order);
        if oldest >= upto {
            return Holder { member };
        }
        let count = path.seek_count(&mut member, order, oldest);
        if count == ONE_GROUP * oldest + EXPIRED {
            advance(path, &mut member, order, oldest + 1, oldest, current);
        } else {
            wait_a_turn(rt, &backoff);
        }
    }
    unreachable!()
}

// Waits until there is a word for the next group: of the last 32 groups each has its own.
fn make_room<K: Keeper, A: Allocator, R: Wait>(
    path: &PathTable<K, A>,
    rt: &R,
    holder: Holder<K>,
    order: Order,
    current: u64,
) -> Holder<K>
    requires table { IsOf path.now.table.shared.table_id path.now.size holder.member }
    requires current { TurnSaw order (part_of holder.member) current × (current < numbers_end) }
    ensures same { KeepsSizes holder.member result.member }
    ensures steps { RoundSteps holder.member.number 0 [] (view_of holder.member)
        (view_of result.member) }
    ensures free { (h : ℕ) × TurnOld order (part_of result.member) h × (current + 1 ≤ h + 31) }
    ensures saw { TurnSaw order (part_of result.member) current }
    ensures marker { marker_of (part_of result.member) ≡ marker_of (part_of holder.member) }
    ensures runs { FoundRunning (part_of holder.member) → FoundRunning (part_of result.member) }
    ensures hands { hands_of result.member ≡ hands_of holder.member }
    ensures tables { (part_of result.member).tables ≡ (part_of holder.member).tables }
    ensures stages { (t : ℕ) → stage_of (part_of result.member) t
        ≡ stage_of (part_of holder.member) t }
{
    advance_to(path, rt, holder, order, current, current.saturating_sub(30))
}

/// Issues a barrier of the write order behind the group that the member found current: it is passed
/// once the oldest group is a later one. A switched memtable of a table whose turn the member has
/// waits for its barrier: it has this one then. It waits for a word of the next group: at most one
/// barrier of each table is issued and not passed, so it waits for no write. No clause says that it
/// returns.
pub fn issue_write<K: Keeper, A: Allocator, R: Wait>(
    path: &PathTable<K, A>,
    rt: &R,
    holder: Holder<K>,
    current: u64,
) -> Holder<K>
    requires table { IsOf path.now.table.shared.table_id path.now.size holder.member }
    requires current { TurnSaw Write (part_of holder.member) current × (current < numbers_end) }
    requires spends { issued_in (view_of holder.member).trail < most_issued }
    requires waiting { HasWaiting (part_of holder.member) }
    ensures same { KeepsSizes holder.member result.member }
    ensures steps { RoundSteps holder.member.number 1 [] (view_of holder.member)
        (view_of result.member) }
    ensures hands { hands_of result.member ≡ hands_of holder.member }
    ensures issues { HasIssued Write holder.member.number current (view_of holder.member)
        (view_of result.member) }
    ensures pays { issued_in (view_of holder.member).trail
        < issued_in (view_of result.member).trail }
    ensures issued { (t memtable : ℕ)
        → stage_of (part_of holder.member) t ≡ Some (Waiting memtable)
        → stage_of (part_of result.member) t ≡ Some (WithBarrier memtable current) }
    ensures oldest { (t memtable least : ℕ)
        → stage_of (part_of holder.member) t ≡ Some (Waiting memtable)
        → FlushOldest t (part_of holder.member) least
        → FlushOldest t (part_of result.member) least }
{
    let Holder { mut member } = make_room(path, rt, holder, Order::Write, current);
    path.open_write(&mut member, current + 1, current);
    path.move_write(&mut member, current + 1, current);
    path.expire_write(&mut member, current, current + 1);
    Holder { member }
}

/// Issues the barrier of the last marker, which is the member's own and has none, and waits
/// until it is passed: then the boxes of the groups up to `current` may be gathered. The boxes
/// of the barrier before it have to be. The member has found the log running and this group
/// current. It waits for a word of the next group first. No clause says that it returns.
pub fn marker_barrier<K: Keeper, A: Allocator, R: Wait>(
    path: &PathTable<K, A>,
    rt: &R,
    holder: Holder<K>,
    current: u64,
) -> Holder<K>
    requires table { IsOf path.now.table.shared.table_id path.now.size holder.member }
    requires marker { (start : ℕ)
        × MarkerWaits holder.member.number (part_of holder.member) start }
    requires runs { FoundRunning (part_of holder.member) }
    requires gathered { (hands_of holder.member).progress.gathered ≡ true }
    requires current { TurnSaw Append (part_of holder.member) current × (current < numbers_end) }
    requires spends { issued_in (view_of holder.member).trail < most_issued }
    ensures same { KeepsSizes holder.member result.member }
    ensures steps { RoundSteps holder.member.number 1 [] (view_of holder.member)
        (view_of result.member) }
    ensures passed { IsPast Append (view_of result.member) current
        × (hands_of result.member ≡ issued_hands current (hands_of holder.member)) }
    ensures issues { HasIssued Append holder.member.number current (view_of holder.member)
        (view_of result.member) }
{
    let Holder { mut member } = make_room(path, rt, holder, Order::Append, current);
    path.open_append(&mut member, current + 1, current);
    path.move_append(&mut member, current + 1, current);
    path.expire_append(&mut member, current, current + 1);
    advance_to(
        path,
        rt,
        Holder { member },
        Order::Append,
        current + 1,
        current + 1,
    )
}
