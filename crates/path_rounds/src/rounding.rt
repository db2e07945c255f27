//! A round of a sync, in the hand of the holder of the Sync turn, which has the desk alone: from
//! the marker over its barrier and the boxes to the end.
ghost use Rattle.std.specs.Prelude.{◌+◌, ◌≡◌, ◌<◌, true, Some, None, []};
ghost use Rattle.op_core.specs.declared.count.Order.TheVariants.{Append};
ghost use Rattle.path_rule.specs.Calls.{MayGive};
ghost use Rattle.path_rule.specs.Desks.{HasDesk};
ghost use Rattle.path_rule.specs.Issued.{issued_in, most_issued};
ghost use Rattle.path_rule.specs.Layout.{numbers_end};
ghost use Rattle.path_rule.specs.Lasts.{shows_of};
ghost use Rattle.path_rule.specs.Reached.{Reaches, ReachesFound};
ghost use Rattle.path_rule.specs.Rounds.{RoundSteps, WroteBelow};
ghost use Rattle.path_rule.specs.Sweeps.{SweptAll};
ghost use Rattle.path_rule.specs.SyncAnswers.{KnowsMarker, Answers, MayAnswer};
ghost use Rattle.path_rule.specs.Turns.{FoundRunning, MarkerWaits, TurnSaw};
ghost use Rattle.path_table.specs.Members.{view_of, part_of, hands_of, boxes_of, IsOf, IsSame};

use crate::marking::{claim_next, look_since, progress_with};
use crate::round_ends::{end_round, look_halted, old_round};
use crate::sweeping::settle;
use crate::waiting::{Holder, marker_barrier};
use op_core::Order;
use path_core::Keeper;
use path_rule::{Progress, SyncAnswer};
use path_table::{Member, PathTable};
use std::alloc::{Allocator, Global};
use std::sync::Wait;

/// Issues the barrier of the seat's own marker, which is the last one, waits until it is
/// passed, gathers all boxes behind it, and ends the sync. The seat has found the log running,
/// and the current group.
pub fn bar_round<K: Keeper, A: Allocator, R: Wait>(
    path: &PathTable<K, A>,
    rt: &R,
    alloc: Global,
    member: Member<K>,
    start: u64,
    current: u64,
) -> (Member<K>, SyncAnswer)
    requires table { IsOf path.now.table.shared.table_id path.now.size member }
    requires turn { MayGive (view_of member)
        × ((hands_of member).progress.gathered ≡ true) }
    requires marker { MarkerWaits member.number (part_of member) start
        × ((hands_of member).progress.marker
        ≡ Some (record { by = member.number; start = start; barrier = None })) }
    requires runs { FoundRunning (part_of member) }
    requires current { TurnSaw Append (part_of member) current × (current < numbers_end) }
    requires spends { issued_in (view_of member).trail < most_issued }
    requires desk { HasDesk (shows_of K.holds) (hands_of member).lasting
        (hands_of member).pending (hands_of member).progress (boxes_of member) }
    requires opened { (hands_of member).lasting.at_open ≡ path.now.size.at_open }
    requires wrote { WroteBelow start (view_of member).trail }
    ensures same { IsSame member result.0 }
    ensures give { MayGive (view_of result.0) }
    ensures desk { HasDesk (shows_of K.holds) (hands_of result.0).lasting
        (hands_of result.0).pending (hands_of result.0).progress (boxes_of result.0) }
    ensures answer { Answers member.number 1 path.now.size.at_open (view_of member) result.1
        (view_of result.0) }
    ensures reaches { Reaches path.now.size.capacity start result.1 }
{
    let (member, progress) = path.progress(member);
    let holder = marker_barrier(path, rt, Holder { member }, current);
    let Holder { member } = holder;
    let told = progress_with(progress, member.number(), start, Some(current));
    let member = path.note_progress(member, told);
    let member = settle(path, rt, alloc, member, told);
    end_round(path, member, start)
}

// Settles the last barrier, unless its boxes are gathered already.
fn settled<K: Keeper, A: Allocator, R: Wait>(
    path: &PathTable<K, A>,
    rt: &R,
    alloc: Global,
    member: Member<K>,
    progress: Progress,
) -> Member<K>
    requires table { IsOf path.now.table.shared.table_id path.now.size member }
    requires turn { MayGive (view_of member) }
    requires fresh { ((hands_of member).swept ≡ 0)
        × (progress ≡ (hands_of member).progress) }
    requires desk { HasDesk (shows_of K.holds) (hands_of member).lasting
        (hands_of member).pending (hands_of member).progress (boxes_of member) }
    ensures same { IsSame member result }
    ensures steps { RoundSteps member.number 0 [] (view_of member) (view_of result) }
    ensures give { MayGive (view_of result) }
    ensures swept { SweptAll (hands_of member) (hands_of result) }
    ensures desk { HasDesk (shows_of K.holds) (hands_of result).lasting
        (hands_of result).pending (hands_of result).progress (boxes_of result) }
{
    if progress.gathered {
        member
    } else {
        settle(path, rt, alloc, member, progress)
    }
}

// Where an entry was claimed since the last marker, and all boxes are gathered: a further
// marker is claimed, unless the log has stopped: a stopped log takes no group. `None` where no
// entry was.
fn new_round<K: Keeper, A: Allocator, R: Wait>(
    path: &PathTable<K, A>,
    rt: &R,
    alloc: Global,
    member: Member<K>,
) -> (Member<K>, Option<SyncAnswer>)
    requires table { IsOf path.now.table.shared.table_id path.now.size member }
    requires turn { MayGive (view_of member)
        × ((hands_of member).progress.gathered ≡ true) }
    requires desk { HasDesk (shows_of K.holds) (hands_of member).lasting
        (hands_of member).pending (hands_of member).progress (boxes_of member) }
    requires opened { (hands_of member).lasting.at_open ≡ path.now.size.at_open }
    requires spends { issued_in (view_of member).trail < most_issued }
    ensures same { IsSame member result.0 }
    ensures give { MayGive (view_of result.0) }
    ensures desk { HasDesk (shows_of K.holds) (hands_of result.0).lasting
        (hands_of result.0).pending (hands_of result.0).progress (boxes_of result.0) }
    ensures answer { MayAnswer member.number 1 path.now.size.at_open (view_of member) result.1
        (view_of result.0) }
    ensures reaches { ReachesFound path.now.size.capacity (view_of member).trail result.1 }
{
    let (mut member, progress) = path.progress(member);
    let halted = look_halted(path, &mut member);
    if halted.is_some() {
        return (member, halted);
    }
    let current = path.seek_current(&mut member, Order::Append);
    let (member, claimed) = claim_next(path, rt, member, progress);
    let Some(start) = claimed else {
        return (member, None);
    };
    let (member, answer) = bar_round(path, rt, alloc, member, start, current);
    (member, Some(answer))
}

/// A round of a sync by a seat that has just taken the Sync turn. `Done` reaches each log key
/// that the seat had found. `None` where the last marker was left without a barrier by the seat
/// that claimed it, and no entry stands behind it.
pub fn sync_round<K: Keeper, A: Allocator, R: Wait>(
    path: &PathTable<K, A>,
    rt: &R,
    alloc: Global,
    member: Member<K>,
) -> (Member<K>, Option<SyncAnswer>)
    requires table { IsOf path.now.table.shared.table_id path.now.size member }
    requires turn { MayGive (view_of member) × KnowsMarker (view_of member)
        × ((hands_of member).swept ≡ 0) }
    requires desk { HasDesk (shows_of K.holds) (hands_of member).lasting
        (hands_of member).pending (hands_of member).progress (boxes_of member) }
    requires opened { (hands_of member).lasting.at_open ≡ path.now.size.at_open }
    requires spends { issued_in (view_of member).trail < most_issued }
    ensures same { IsSame member result.0 }
    ensures give { MayGive (view_of result.0) }
    ensures desk { HasDesk (shows_of K.holds) (hands_of result.0).lasting
        (hands_of result.0).pending (hands_of result.0).progress (boxes_of result.0) }
    ensures answer { MayAnswer member.number 1 path.now.size.at_open (view_of member) result.1
        (view_of result.0) }
    ensures reaches { ReachesFound path.now.size.capacity (view_of member).trail result.1 }
{
    let (mut member, progress) = path.progress(member);
    let since = look_since(path, &mut member, progress.marker);
    let member = settled(path, rt, alloc, member, progress);
    if since {
        new_round(path, rt, alloc, member)
    } else {
        old_round(path, member, progress.marker)
    }
}
