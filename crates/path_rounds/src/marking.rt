//! A sync's marker: whether an entry was claimed since the last one, and the claim of the next.
//! What the seat wrote before ends at or below it.
ghost use Rattle.std.specs.Prelude.{◌≡◌, ℕ, ◌≤◌, [], false, Some, None, IsSome};
ghost use Rattle.op_core.specs.declared.count.Order.TheVariants.{Append};
ghost use Rattle.path_core.specs.declared.event.Place.TheVariants.{Log};
ghost use Rattle.path_core.specs.Holders.{behind_last};
ghost use Rattle.path_rule.specs.Calls.{MayGive};
ghost use Rattle.path_rule.specs.Desks.{HasDesk};
ghost use Rattle.path_rule.specs.Finds.{Finds};
ghost use Rattle.path_rule.specs.Lasts.{shows_of};
ghost use Rattle.path_rule.specs.Rounds.{RoundSteps, WroteBelow};
ghost use Rattle.path_rule.specs.SyncAnswers.{KnowsMarker, marker_start};
ghost use Rattle.path_rule.specs.Turns.{FoundRunning, KeepsCurrent};
ghost use Rattle.path_rounds.specs.Marks.{ClaimsMarker, MarksNext};
ghost use Rattle.path_table.specs.Members.{view_of, part_of, hands_of, boxes_of, IsOf, IsSame};
ghost use Rattle.path_table.specs.Members.{KeepsSizes};

use crate::marker_keys::{is_entry_since, key_behind_marker};
use path_core::{Keeper, LastMarker};
use path_rule::Progress;
use path_table::{Member, PathTable};
use std::alloc::Allocator;
use std::sync::Wait;
use std::thread::yield_now;

/// What a try to claim the next marker finds.
#[derive(Clone, Copy, Drop)]
pub enum MarkerClaim {
    /// It is claimed, from this key on.
    Claimed(u64),
    /// The log moved between the look and the claim.
    Moved,
    /// No entry was claimed since the last marker.
    NoEntry,
}

// Whether an entry was claimed since the last marker. Where none was, all that the seat wrote
// ends at or below where that marker starts, and each log key that it had found lies at or
// below where the log went on behind it.
pub(crate) fn look_since<K: Keeper, A: Allocator>(
    path: &PathTable<K, A>,
    member: &mut Member<K>,
    marker: Option<LastMarker>,
) -> bool
    requires table { IsOf path.now.table.shared.table_id path.now.size member.old }
    requires marker { KnowsMarker (view_of member.old)
        × (marker ≡ (hands_of member.old).progress.marker) }
    ensures same { KeepsSizes member.old member.new }
    ensures steps { RoundSteps member.old.number 0 [] (view_of member.old) (view_of member.new) }
    ensures give { MayGive (view_of member.old) → MayGive (view_of member.new) }
    ensures hands { hands_of member.new ≡ hands_of member.old }
    ensures none { result ≡ false
        → WroteBelow (marker_start marker) (view_of member.new).trail }
    ensures rises { result ≡ false → (key : ℕ) → Finds Log key (view_of member.old).trail
        → key ≤ behind_last path.now.size.capacity marker }
{
    let log = path.look_log(member);
    is_entry_since(path.size().capacity, marker, log)
}

// One try to claim the next marker.
fn claim_once<K: Keeper, A: Allocator>(
    path: &PathTable<K, A>,
    member: &mut Member<K>,
    marker: Option<LastMarker>,
) -> MarkerClaim
    requires table { IsOf path.now.table.shared.table_id path.now.size member.old }
    requires turn { MayGive (view_of member.old)
        × (marker ≡ (hands_of member.old).progress.marker) }
    requires runs { FoundRunning (part_of member.old) }
    ensures same { KeepsSizes member.old member.new }
    ensures runs { FoundRunning (part_of member.new) }
    ensures steps { RoundSteps member.old.number 0 [] (view_of member.old) (view_of member.new) }
    ensures give { MayGive (view_of member.new) }
    ensures claim { ClaimsMarker member.old.number (view_of member.old) result
        (view_of member.new) }
    ensures current { KeepsCurrent Append (part_of member.old) (part_of member.new) }
{
    let from = path.look_log(member);
    if !is_entry_since(path.size().capacity, marker, from) {
        return MarkerClaim::NoEntry;
    }
    let to = key_behind_marker(path.size().capacity, from);
    if path.claim_marker(member, from, to) == from {
        MarkerClaim::Claimed(from)
    } else {
        MarkerClaim::Moved
    }
}

/// Claims the next marker, unless no entry was claimed since the last one, and notes it on the
/// desk. The log was found running. It tries again while the log moves, and no clause says that
/// it returns.
pub fn claim_next<K: Keeper, A: Allocator, R: Wait>(
    path: &PathTable<K, A>,
    rt: &R,
    member: Member<K>,
    progress: Progress,
) -> (Member<K>, Option<u64>)
    requires table { IsOf path.now.table.shared.table_id path.now.size member }
    requires turn { MayGive (view_of member) × (progress ≡ (hands_of member).progress) }
    requires runs { FoundRunning (part_of member) }
    requires desk { HasDesk (shows_of K.holds) (hands_of member).lasting
        (hands_of member).pending (hands_of member).progress (boxes_of member) }
    ensures same { IsSame member result.0 }
    ensures steps { RoundSteps member.number 0 [] (view_of member) (view_of result.0) }
    ensures give { MayGive (view_of result.0) }
    ensures claimed { MarksNext member.number (view_of member) result.1 (view_of result.0) }
    ensures current { KeepsCurrent Append (part_of member) (part_of result.0) }
    ensures runs { FoundRunning (part_of result.0) }
    ensures desk { HasDesk (shows_of K.holds) (hands_of result.0).lasting
        (hands_of result.0).pending (hands_of result.0).progress (boxes_of result.0) }
{
    let mut member = member;
    for _ in rt.forever() {
        match claim_once(path, &mut member, progress.marker) {
            MarkerClaim::Claimed(start) => {
                let told = progress_with(progress, member.number(), start, None);
                return (path.note_progress(member, told), Some(start));
            }
            MarkerClaim::NoEntry => return (member, None),
            MarkerClaim::Moved => yield_now(),
        }
    }
    unreachable!()
}

/// What the desk is to tell of a marker of a seat, and of its barrier once that is issued: nothing
/// is gathered behind it yet then.
pub(crate) fn progress_with(
    progress: Progress,
    by: u8,
    start: u64,
    barrier: Option<u64>,
) -> Progress
    ensures marker { result.marker
        ≡ Some (record { by = by; start = start; barrier = barrier }) }
    ensures none { barrier ≡ None → result.gathered ≡ progress.gathered }
    ensures issued { IsSome barrier → result.gathered ≡ false }
{
    let last = LastMarker { by, start, barrier };
    Progress {
        gathered: progress.gathered && barrier.is_none(),
        marker: Some(last),
    }
}
