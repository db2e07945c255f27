//! How a round of a sync ends, in the hand of the holder of the Sync turn, which has the desk
//! alone: by what the keeper answers up to the last marker, behind whose barrier all boxes are
//! gathered.
ghost use Rattle.std.specs.Prelude.{◌≡◌, ℕ, true, None};
ghost use Rattle.path_core.specs.declared.event.Cursor.TheVariants.{Stopped};
ghost use Rattle.path_core.specs.declared.event.Event.TheVariants.{Look};
ghost use Rattle.path_core.specs.declared.event.Place.TheVariants.{CursorWord};
ghost use Rattle.path_core.specs.Holders.{behind_last};
ghost use Rattle.path_core.specs.Keys.{behind_marker, first_offset};
ghost use Rattle.path_rule.specs.Calls.{MayGive};
ghost use Rattle.path_rule.specs.Desks.{HasDesk};
ghost use Rattle.path_rule.specs.Lasts.{shows_of};
ghost use Rattle.path_rule.specs.Reached.{MayReach, Reaches};
ghost use Rattle.path_rule.specs.Rounds.{WroteBelow};
ghost use Rattle.path_rule.specs.SyncAnswers.{said_by, marker_start, Answers, IsHaltedBy};
ghost use Rattle.path_rule.specs.SyncAnswers.{MayAnswer};
ghost use Rattle.path_rule.specs.Turns.{FoundRunning, IsBarred};
ghost use Rattle.path_table.specs.Members.{view_of, part_of, hands_of, boxes_of, IsOf, IsSame};
ghost use Rattle.path_table.specs.Members.{KeepsSizes, Stepped};

use crate::ending::end_sync;
use path_core::{Keeper, KeeperFault, LastMarker};
use path_rule::SyncAnswer;
use path_table::{Member, PathTable};
use std::alloc::Allocator;

// The end of a sync as an answer.
fn said_by(done: Result<u64, KeeperFault>) -> SyncAnswer
    ensures { result ≡ said_by done }
{
    match done {
        Ok(synced) => SyncAnswer::Done(synced),
        Err(KeeperFault::Stopped { at_open, now }) => SyncAnswer::Stopped { at_open, now },
        Err(KeeperFault::OutOfMemory) => SyncAnswer::OutOfMemory,
    }
}

// What a sync is answered where the log is found stopped.
pub(crate) fn look_halted<K: Keeper, A: Allocator>(
    path: &PathTable<K, A>,
    member: &mut Member<K>,
) -> Option<SyncAnswer>
    requires table { IsOf path.now.table.shared.table_id path.now.size member.old }
    requires turn { MayGive (view_of member.old) }
    ensures same { KeepsSizes member.old member.new }
    ensures looked { (now : ℕ)
        × Stepped member.old (Look member.old.number (CursorWord Stopped)) now member.new
        × IsHaltedBy path.now.size.at_open now result }
    ensures give { MayGive (view_of member.new) }
    ensures runs { result ≡ None → FoundRunning (part_of member.new) }
    ensures hands { hands_of member.new ≡ hands_of member.old }
{
    let now = path.look_stopped(member);
    let at_open = path.size().at_open;
    if now > 0 {
        Some(SyncAnswer::Stopped { at_open, now })
    } else {
        None
    }
}

/// Brings a sync up to the last marker to its end, where the log is found running. All that the
/// seat wrote ends at or below that marker. Done: the log goes on behind the synced key at or
/// above where it does behind the marker.
pub fn end_round<K: Keeper, A: Allocator>(
    path: &PathTable<K, A>,
    member: Member<K>,
    upto: u64,
) -> (Member<K>, SyncAnswer)
    requires table { IsOf path.now.table.shared.table_id path.now.size member }
    requires turn { MayGive (view_of member)
        × ((hands_of member).progress.gathered ≡ true) }
    requires marker { IsBarred (hands_of member) upto }
    requires desk { HasDesk (shows_of K.holds) (hands_of member).lasting
        (hands_of member).pending (hands_of member).progress (boxes_of member) }
    requires opened { (hands_of member).lasting.at_open ≡ path.now.size.at_open }
    requires wrote { WroteBelow upto (view_of member).trail }
    ensures same { IsSame member result.0 }
    ensures give { MayGive (view_of result.0) }
    ensures desk { HasDesk (shows_of K.holds) (hands_of result.0).lasting
        (hands_of result.0).pending (hands_of result.0).progress (boxes_of result.0) }
    ensures answer { Answers member.number 0 path.now.size.at_open (view_of member) result.1
        (view_of result.0) }
    ensures reaches { Reaches path.now.size.capacity
        (behind_marker path.now.size.capacity upto) result.1 }
{
    let mut member = member;
    let now = path.look_stopped(&mut member);
    let at_open = path.size().at_open;
    if now > 0 {
        return (member, SyncAnswer::Stopped { at_open, now });
    }
    let (member, done) = end_sync(path, member, upto);
    (member, said_by(done))
}

// Where no entry was ever claimed: the synced key, where the log is found running.
fn first_round<K: Keeper, A: Allocator>(
    path: &PathTable<K, A>,
    member: Member<K>,
) -> (Member<K>, SyncAnswer)
    requires table { IsOf path.now.table.shared.table_id path.now.size member }
    requires turn { MayGive (view_of member)
        × ((hands_of member).progress.gathered ≡ true) }
    requires desk { HasDesk (shows_of K.holds) (hands_of member).lasting
        (hands_of member).pending (hands_of member).progress (boxes_of member) }
    requires wrote { WroteBelow 0 (view_of member).trail }
    ensures same { IsSame member result.0 }
    ensures give { MayGive (view_of result.0) }
    ensures desk { HasDesk (shows_of K.holds) (hands_of result.0).lasting
        (hands_of result.0).pending (hands_of result.0).progress (boxes_of result.0) }
    ensures answer { Answers member.number 0 path.now.size.at_open (view_of member) result.1
        (view_of result.0) }
    ensures reaches { Reaches path.now.size.capacity first_offset result.1 }
{
    let mut member = member;
    let now = path.look_stopped(&mut member);
    let at_open = path.size().at_open;
    if now > 0 {
        return (member, SyncAnswer::Stopped { at_open, now });
    }
    let synced = path.look_lent(&mut member);
    (member, SyncAnswer::Done(synced))
}

// Where no entry was claimed since the last marker: the sync up to it is brought to its end, so
// Done reaches where the log went on behind it. `None` where it was left without a barrier.
pub(crate) fn old_round<K: Keeper, A: Allocator>(
    path: &PathTable<K, A>,
    member: Member<K>,
    marker: Option<LastMarker>,
) -> (Member<K>, Option<SyncAnswer>)
    requires table { IsOf path.now.table.shared.table_id path.now.size member }
    requires turn { MayGive (view_of member)
        × ((hands_of member).progress.gathered ≡ true) }
    requires marker { marker ≡ (hands_of member).progress.marker }
    requires desk { HasDesk (shows_of K.holds) (hands_of member).lasting
        (hands_of member).pending (hands_of member).progress (boxes_of member) }
    requires opened { (hands_of member).lasting.at_open ≡ path.now.size.at_open }
    requires wrote { WroteBelow (marker_start marker) (view_of member).trail }
    ensures same { IsSame member result.0 }
    ensures give { MayGive (view_of result.0) }
    ensures desk { HasDesk (shows_of K.holds) (hands_of result.0).lasting
        (hands_of result.0).pending (hands_of result.0).progress (boxes_of result.0) }
    ensures answer { MayAnswer member.number 0 path.now.size.at_open (view_of member) result.1
        (view_of result.0) }
    ensures reaches { MayReach path.now.size.capacity
        (behind_last path.now.size.capacity marker) result.1 }
{
    let Some(last) = marker else {
        let (member, answer) = first_round(path, member);
        return (member, Some(answer));
    };
    if last.barrier.is_none() {
        return (member, None);
    }
    let (member, answer) = end_round(path, member, last.start);
    (member, Some(answer))
}
