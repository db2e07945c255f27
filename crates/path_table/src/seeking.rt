//! What the holder of the Sync turn looks at for a barrier of either order. What it finds is exact
//! while it holds the turn: the current group (`TurnSaw`), the oldest one (`TurnOld`), and one
//! whose count is finished (`TurnGone`).
ghost use Rattle.std.specs.Prelude.{◌+◌, ◌*◌, ◌≡◌, ℕ, ◌<◌, ◌^◌, Some};
ghost use Rattle.path_core.specs.declared.event.Event.TheVariants.{Look};
ghost use Rattle.path_core.specs.declared.event.Place.TheVariants.{Count, Current, Oldest};
ghost use Rattle.path_core.specs.declared.seat.Issue.TheVariants.{Rest};
ghost use Rattle.path_core.specs.Parts.{found_of, marker_of, stage_of};
ghost use Rattle.path_rule.specs.Calls.{Holds};
ghost use Rattle.path_rule.specs.Layout.{word_at, numbers_end};
ghost use Rattle.path_rule.specs.Turns.{FoundRunning, TurnSaw, TurnOld, TurnGone, KeepsCurrent};
ghost use Rattle.path_rule.specs.Turns.{KeepsOldest};
ghost use Rattle.path_table.specs.Members.{view_of, part_of, hands_of, IsOf, KeepsSizes, Stepped};

use crate::table::{Member, PathTable};
use crate::words::{
    APPEND_COUNTS, CURRENT_APPEND, CURRENT_WRITE, OLDEST_APPEND, OLDEST_WRITE, WRITE_COUNTS,
};
use op_core::Order;
use path_core::Keeper;
use path_rule::LookAt;
use std::alloc::Allocator;

// Where the words of an order stand.

fn current_word(order: Order) -> usize
    ensures { result ≡ word_at (Current order) }
{
    match order {
        Order::Write => CURRENT_WRITE,
        Order::Append => CURRENT_APPEND,
    }
}

fn oldest_word(order: Order) -> usize
    ensures { result ≡ word_at (Oldest order) }
{
    match order {
        Order::Write => OLDEST_WRITE,
        Order::Append => OLDEST_APPEND,
    }
}

fn count_word(order: Order, group: u64) -> usize
    ensures { result ≡ word_at (Count order group) }
{
    match order {
        Order::Write => WRITE_COUNTS + 16 * (group % 32) as usize,
        Order::Append => APPEND_COUNTS + 16 * (group % 32) as usize,
    }
}

impl<K: Keeper, A: Allocator> PathTable<K, A> {
    /// The current group of an order.
    pub fn seek_current(&self, member: &mut Member<K>, order: Order) -> u64
        requires table { IsOf self.now.table.shared.table_id self.now.size member.old }
        requires turn { Holds Rest (view_of member.old) }
        ensures same { KeepsSizes member.old member.new }
        ensures step { Stepped member.old (Look member.old.number (Current order)) result
            member.new }
        ensures below { result < numbers_end }
        ensures turn { Holds Rest (view_of member.new)
            × TurnSaw order (part_of member.new) result }
        ensures marker { marker_of (part_of member.new) ≡ marker_of (part_of member.old) }
        ensures runs { FoundRunning (part_of member.old) → FoundRunning (part_of member.new) }
        ensures hands { hands_of member.new ≡ hands_of member.old }
        ensures stages { (t : ℕ) → stage_of (part_of member.new) t
            ≡ stage_of (part_of member.old) t }
    {
        self.table
            .shared
            .load::<LookAt<K>>(&mut member.seat, current_word(order))
    }

    /// The oldest group of an order that was not moved over, as its word is found.
    pub fn seek_oldest(&self, member: &mut Member<K>, order: Order) -> u64
        requires table { IsOf self.now.table.shared.table_id self.now.size member.old }
        requires turn { Holds Rest (view_of member.old) }
        ensures same { KeepsSizes member.old member.new }
        ensures step { Stepped member.old (Look member.old.number (Oldest order)) result
            member.new }
        ensures below { result < numbers_end }
        ensures found { (found_of order (part_of member.new)).oldest ≡ Some result }
        ensures marker { marker_of (part_of member.new) ≡ marker_of (part_of member.old) }
        ensures runs { FoundRunning (part_of member.old) → FoundRunning (part_of member.new) }
        ensures turn { Holds Rest (view_of member.new) × TurnOld order (part_of member.new) result
            × KeepsCurrent order (part_of member.old) (part_of member.new) }
        ensures hands { hands_of member.new ≡ hands_of member.old }
        ensures stages { (t : ℕ) → stage_of (part_of member.new) t
            ≡ stage_of (part_of member.old) t }
    {
        self.table
            .shared
            .load::<LookAt<K>>(&mut member.seat, oldest_word(order))
    }

    /// The word of the oldest group as it is found: its number and its count, with the mark of an
    /// expired group in its highest bit.
    pub fn seek_count(&self, member: &mut Member<K>, order: Order, group: u64) -> u64
        requires table { IsOf self.now.table.shared.table_id self.now.size member.old }
        requires turn { Holds Rest (view_of member.old) × TurnOld order (part_of member.old) group
            × (group < numbers_end) }
        ensures same { KeepsSizes member.old member.new }
        ensures step { Stepped member.old (Look member.old.number (Count order group)) result
            member.new }
        ensures turn { Holds Rest (view_of member.new)
            × KeepsCurrent order (part_of member.old) (part_of member.new)
            × KeepsOldest order (part_of member.old) (part_of member.new) }
        ensures marker { marker_of (part_of member.new) ≡ marker_of (part_of member.old) }
        ensures runs { FoundRunning (part_of member.old) → FoundRunning (part_of member.new) }
        ensures gone { result ≡ 65536 * group + 2 ^ 63 → TurnGone order (part_of member.new) group }
        ensures below { (c : ℕ) → result ≡ 65536 * group + 2 ^ 63
            → TurnSaw order (part_of member.old) c
            → group < c }
        ensures hands { hands_of member.new ≡ hands_of member.old }
        ensures stages { (t : ℕ) → stage_of (part_of member.new) t
            ≡ stage_of (part_of member.old) t }
    {
        self.table
            .shared
            .load::<LookAt<K>>(&mut member.seat, count_word(order, group))
    }
}
