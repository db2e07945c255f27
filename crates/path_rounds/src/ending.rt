//! A sync is brought to its end, in the hand of the holder of the Sync turn.
ghost use Rattle.std.specs.Prelude.{◌≡◌, ◌≤◌, true, IfOk, OnOk, OnErr};
ghost use Rattle.std.specs.List.Sorted.{IsPermutation};
ghost use Rattle.atomic_table.specs.Table.{rest};
ghost use Rattle.path_core.specs.Keys.{after, behind_marker};
ghost use Rattle.path_rule.specs.Calls.{MayGive, IsSyncedTo};
ghost use Rattle.path_rule.specs.Lasts.{shows_of};
ghost use Rattle.path_rule.specs.SyncEnd.{stopped_by, EndsSync, TellsFaults};
ghost use Rattle.path_rule.specs.TurnTold.{CarriesDesk};
ghost use Rattle.path_rule.specs.Turns.{FoundRunning, IsBarred};
ghost use Rattle.path_table.specs.Members.{view_of, part_of, hands_of, boxes_of, IsOf, IsSame};

use path_core::{Keeper, KeeperFault};
use path_table::{Member, PathTable};
use std::alloc::Allocator;

/// Ends a sync up to the last marker, once all boxes behind its barrier are gathered and the
/// log was found running. The keeper is lent what is pending, and the synced key is put at the
/// marker; it is answered. Where the keeper has stopped, the log is, with the count of faults
/// that the keeper shows and that is answered. Behind the key that is answered the log goes on
/// at or above where it does behind the marker. After each answer the turn may be given back,
/// and after a refusal all is pending still. It makes two steps at most, of which at most one
/// is no look.
pub fn end_sync<K: Keeper, A: Allocator>(
    path: &PathTable<K, A>,
    member: Member<K>,
    upto: u64,
) -> (Member<K>, Result<u64, KeeperFault>)
    requires table { IsOf path.now.table.shared.table_id path.now.size member }
    requires turn { MayGive (view_of member) × ((hands_of member).progress.gathered ≡ true)
        × FoundRunning (part_of member) }
    requires marker { IsBarred (hands_of member) upto }
    requires desk { CarriesDesk (shows_of K.holds) member.seat.me }
    ensures same { IsSame member result.0
        × ((view_of result.0).size ≡ (view_of member).size)
        × (rest (boxes_of result.0) ≡ rest (boxes_of member)) }
    ensures give { MayGive (view_of result.0) }
    ensures desk { CarriesDesk (shows_of K.holds) result.0.seat.me }
    ensures synced { OnOk result.1 (IsSyncedTo (view_of result.0) upto) }
    ensures reaches { IfOk result.1 (λ s. behind_marker path.now.size.capacity upto
        ≤ after path.now.size.capacity s) }
    ensures refused { OnErr result.1 (IsPermutation (hands_of member).pending
        (hands_of result.0).pending) }
    ensures counts { TellsFaults (hands_of member).lasting.at_open result.1 }
    ensures stopped { (hands_of result.0).lasting.stopped
        ≡ stopped_by (hands_of member).lasting.stopped result.1 }
    ensures steps { EndsSync member.number upto (view_of member) result.1
        (view_of result.0) }
{
    let mut member = member;
    let synced = path.look_lent(&mut member);
    if upto <= synced {
        return (member, Ok(synced));
    }
    let (mut member, done) = path.lend(member, upto);
    match done {
        Ok(()) => {
            path.put_synced(&mut member, upto);
            (member, Ok(upto))
        }
        Err(KeeperFault::Stopped { at_open, now }) => {
            path.put_stopped(&mut member, now, upto);
            (member, Err(KeeperFault::Stopped { at_open, now }))
        }
        Err(KeeperFault::OutOfMemory) => {
            let _found = path.keep_refused(&mut member, upto);
            (member, Err(KeeperFault::OutOfMemory))
        }
    }
}
