//! The holder of the Sync turn gathers the boxes of all seats, one by one. It has the desk alone in
//! hand between two boxes, and what it took out of a box is pending on the desk before the box goes
//! home.
ghost use Rattle.std.specs.Prelude.{◌+◌, ◌≡◌, ◌<◌, []};
ghost use Rattle.op_core.specs.declared.count.Order.TheVariants.{Append};
ghost use Rattle.path_core.specs.declared.seat.Issue.TheVariants.{Rest};
ghost use Rattle.path_rule.specs.Calls.{Holds};
ghost use Rattle.path_rule.specs.Desks.{HasDesk};
ghost use Rattle.path_rule.specs.Layout.{numbers_end};
ghost use Rattle.path_rule.specs.Lasts.{shows_of};
ghost use Rattle.path_rule.specs.Rounds.{RoundSteps};
ghost use Rattle.path_rule.specs.Sweeps.{SweepsOne, SweptAll};
ghost use Rattle.path_rule.specs.Turns.{TurnSaw};
ghost use Rattle.path_table.specs.Members.{view_of, part_of, hands_of, boxes_of, IsOf, IsSame};

use crate::waiting::{Holder, advance_to};
use op_core::Order;
use path_core::Keeper;
use path_rule::Progress;
use path_table::{Member, PathTable};
use std::alloc::{Allocator, Global};
use std::sync::Wait;
use std::thread::yield_now;

// Gathers the box of one seat, if the oldest group is found to be the current one.
fn gather_box<K: Keeper, A: Allocator>(
    path: &PathTable<K, A>,
    alloc: Global,
    member: Member<K>,
    swept: u64,
    current: u64,
) -> (Member<K>, bool)
    requires table { IsOf path.now.table.shared.table_id path.now.size member }
    requires turn { Holds Rest (view_of member) × TurnSaw Append (part_of member) current
        × (current < numbers_end) }
    requires more { ((hands_of member).swept ≡ swept) × (swept < path.now.size.seats)
        × (path.now.size.seats < 65536) }
    requires desk { HasDesk (shows_of K.holds) (hands_of member).lasting
        (hands_of member).pending (hands_of member).progress (boxes_of member) }
    ensures same { IsSame member result.0 }
    ensures steps { RoundSteps member.number 0 [] (view_of member) (view_of result.0) }
    ensures turn { Holds Rest (view_of result.0) × TurnSaw Append (part_of result.0) current }
    ensures swept { SweepsOne path.now.size.seats current (hands_of member) result.1
        (hands_of result.0) }
    ensures desk { HasDesk (shows_of K.holds) (hands_of result.0).lasting
        (hands_of result.0).pending (hands_of member).progress (boxes_of result.0) }
{
    let mut member = member;
    if path.gather(&mut member, current) != current {
        return (member, false);
    }
    let number = 1 + 2 * swept + (current + 1) % 2;
    let mut member = path.keep_taken(alloc, member, number as usize);
    path.give_back(&mut member, current);
    (member, true)
}

/// Gathers the boxes of all seats behind the passed barrier before the current group, and notes
/// on the desk that they are. It waits while the barrier is not found passed, and no clause
/// says that it returns.
pub fn gather_all<K: Keeper, A: Allocator, R: Wait>(
    path: &PathTable<K, A>,
    rt: &R,
    alloc: Global,
    member: Member<K>,
    progress: Progress,
    current: u64,
) -> Member<K>
    requires table { IsOf path.now.table.shared.table_id path.now.size member }
    requires turn { Holds Rest (view_of member) × TurnSaw Append (part_of member) current
        × (current < numbers_end) }
    requires fresh { ((hands_of member).swept ≡ 0)
        × (progress ≡ (hands_of member).progress) }
    requires desk { HasDesk (shows_of K.holds) (hands_of member).lasting
        (hands_of member).pending (hands_of member).progress (boxes_of member) }
    ensures same { IsSame member result }
    ensures steps { RoundSteps member.number 0 [] (view_of member) (view_of result) }
    ensures turn { Holds Rest (view_of result) }
    ensures swept { SweptAll (hands_of member) (hands_of result) }
    ensures desk { HasDesk (shows_of K.holds) (hands_of result).lasting
        (hands_of result).pending (hands_of result).progress (boxes_of result) }
{
    let mut member = member;
    let mut swept = 0;
    for _ in rt.forever() {
        if swept == path.size().seats {
            let done = Progress {
                gathered: true,
                marker: progress.marker,
            };
            return path.note_progress(member, done);
        }
        let (next, took) = gather_box(path, alloc, member, swept, current);
        member = next;
        if took {
            swept += 1;
        } else {
            yield_now();
        }
    }
    unreachable!()
}

/// Waits until the last barrier of the append order is passed, and gathers all boxes behind it.
pub fn settle<K: Keeper, A: Allocator, R: Wait>(
    path: &PathTable<K, A>,
    rt: &R,
    alloc: Global,
    member: Member<K>,
    progress: Progress,
) -> Member<K>
    requires table { IsOf path.now.table.shared.table_id path.now.size member }
    requires turn { Holds Rest (view_of member) }
    requires fresh { ((hands_of member).swept ≡ 0)
        × (progress ≡ (hands_of member).progress) }
    requires desk { HasDesk (shows_of K.holds) (hands_of member).lasting
        (hands_of member).pending (hands_of member).progress (boxes_of member) }
    ensures same { IsSame member result }
    ensures steps { RoundSteps member.number 0 [] (view_of member) (view_of result) }
    ensures turn { Holds Rest (view_of result) }
    ensures swept { SweptAll (hands_of member) (hands_of result) }
    ensures desk { HasDesk (shows_of K.holds) (hands_of result).lasting
        (hands_of result).pending (hands_of result).progress (boxes_of result) }
{
    let mut member = member;
    let current = path.seek_current(&mut member, Order::Append);
    let holder = advance_to(path, rt, Holder { member }, Order::Append, current, current);
    gather_all(path, rt, alloc, holder.member, progress, current)
}
