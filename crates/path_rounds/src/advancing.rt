//! One try to move the oldest group of an order on (`OpOrder.Barrier.await`, one look of it).
ghost use Rattle.std.specs.Prelude.{◌≡◌, []};
ghost use Rattle.path_core.specs.declared.seat.Issue.TheVariants.{Rest};
ghost use Rattle.path_rule.specs.Calls.{Holds};
ghost use Rattle.path_rule.specs.Rounds.{RoundSteps};
ghost use Rattle.path_table.specs.Members.{view_of, hands_of, IsOf, KeepsSizes};
ghost use Rattle.path_rounds.specs.Passes.{HasMovedOn, MatchAdvance, RunsStill};

use crate::waiting::advance;
use op_core::Order;
use path_core::Keeper;
use path_table::{EXPIRED, Member, ONE_GROUP, PathTable};
use std::alloc::Allocator;

/// What a try to move the oldest group on answers.
#[derive(Clone, Copy, Debug, PartialEq, Eq)]
pub enum Advance {
    /// It moved on: this group is the oldest one now.
    Moved(u64),
    /// The oldest group runs still.
    Running {
        /// The oldest group.
        group: u64,
        /// The word of its count as it was found, with the group's number and its mark.
        count: u64,
    },
}

/// Moves the oldest group of an order on, by its last step, where its count is found finished.
/// Where it runs still, only looks were made.
pub fn try_advance<K: Keeper, A: Allocator>(
    path: &PathTable<K, A>,
    member: &mut Member<K>,
    order: Order,
) -> Advance
    requires table { IsOf path.now.table.shared.table_id path.now.size member.old }
    requires turn { Holds Rest (view_of member.old) }
    ensures same { KeepsSizes member.old member.new }
    ensures steps { RoundSteps member.old.number 0 [] (view_of member.old) (view_of member.new) }
    ensures turn { Holds Rest (view_of member.new) }
    ensures hands { hands_of member.new ≡ hands_of member.old }
    ensures answer { MatchAdvance result
        (λ group. HasMovedOn order member.old.number group (view_of member.old)
        (view_of member.new))
        (λ group count. RunsStill order group count (view_of member.old)
        (view_of member.new)) }
{
    let current = path.seek_current(member, order);
    let group = path.seek_oldest(member, order);
    let count = path.seek_count(member, order, group);
    if count != ONE_GROUP * group + EXPIRED {
        return Advance::Running { group, count };
    }
    advance(path, member, order, group + 1, group, current);
    Advance::Moved(group + 1)
}
