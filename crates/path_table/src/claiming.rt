//! The steps on the log key: a look, the claim of an entry, and the claim of a marker.
ghost use Rattle.std.specs.Prelude.{◌≡◌, ◌≢◌, ◌<◌, ◌^◌, None, IsSome, is_some, IsTrue};
ghost use Rattle.path_core.specs.declared.event.ClaimKind.TheVariants.{Entry, Marker};
ghost use Rattle.path_core.specs.declared.event.Event.TheVariants.{Look, Claim};
ghost use Rattle.path_core.specs.declared.event.Place.TheVariants.{Log};
ghost use Rattle.path_core.specs.Keys.{MovesLog};
ghost use Rattle.path_rule.specs.HandsAfter.{with_marker};
ghost use Rattle.path_core.specs.Holders.{behind_last};
ghost use Rattle.path_rule.specs.Rule.{Was};
ghost use Rattle.path_rule.specs.Turns.{FoundRunning};
ghost use Rattle.path_table.specs.Members.{
  view_of,
  part_of,
  hands_of,
  IsOf,
  KeepsBoxes,
  Stepped,
  SteppedAs,
};

use crate::table::{Member, PathTable};
use crate::words::LOG;
use path_core::Keeper;
use path_rule::{ClaimAt, ClaimMarker, LookAt};
use std::alloc::Allocator;

impl<K: Keeper, A: Allocator> PathTable<K, A> {
    /// The log key, where the next claim begins.
    pub fn look_log(&self, member: &mut Member<K>) -> u64
        requires { IsOf self.now.table.shared.table_id self.now.size member.old }
        ensures same { KeepsBoxes member.old member.new }
        ensures step { Stepped member.old (Look member.old.number Log) result member.new }
        ensures found { (was : Was (view_of member.old) member.old.number
            (Look member.old.number Log)) × (was.core.log ≡ result) }
        ensures below { result < 2 ^ 62 }
    {
        self.table.shared.load::<LookAt<K>>(&mut member.seat, LOG)
    }

    /// Claims the range of an entry (`CommitLogSegment.allocate`): moves the log from one key to
    /// another. Returns the key that it found: where that is not the first, this was a look.
    pub fn claim(&self, member: &mut Member<K>, from: u64, to: u64) -> u64
        requires table { IsOf self.now.table.shared.table_id self.now.size member.old }
        requires group { IsSome (part_of member.old).write × IsSome (part_of member.old).append
            × ((part_of member.old).claim ≡ None) }
        requires moves { MovesLog Entry (view_of member.old).size.capacity
            (view_of member.old).size.ordinals from to }
        ensures same { KeepsBoxes member.old member.new }
        ensures hit { result ≡ from → Stepped member.old (Claim member.old.number
            (record { 0 = from }) (record { 0 = to }) Entry) to member.new }
        ensures miss { result ≢ from
            → Stepped member.old (Look member.old.number Log) result member.new }
    {
        self.table
            .shared
            .compare_exchange::<ClaimAt<K>>(&mut member.seat, LOG, from, to)
    }

    /// Claims a marker, where an entry was claimed since the last one, as the log key tells, and
    /// the log was found running: a stopped log takes no marker. It is the last one then, and has
    /// no barrier yet. Where another key than the first is found, this was a look.
    pub fn claim_marker(&self, member: &mut Member<K>, from: u64, to: u64) -> u64
        requires table { IsOf self.now.table.shared.table_id self.now.size member.old }
        requires turn { IsTrue (is_some (part_of member.old).sync)
            × ((hands_of member.old).box_taken ≡ None) }
        requires runs { FoundRunning (part_of member.old) }
        requires entry { behind_last (view_of member.old).size.capacity
            (hands_of member.old).progress.marker < from }
        requires moves { MovesLog Marker (view_of member.old).size.capacity
            (view_of member.old).size.ordinals from to }
        ensures same { KeepsBoxes member.old member.new }
        ensures hit { result ≡ from → SteppedAs member.old (Claim member.old.number
            (record { 0 = from }) (record { 0 = to }) Marker) to
            (with_marker member.old.number from (hands_of member.old)) member.new }
        ensures miss { result ≢ from
            → Stepped member.old (Look member.old.number Log) result member.new }
    {
        self.table
            .shared
            .compare_exchange::<ClaimMarker<K>>(&mut member.seat, LOG, from, to)
    }
}
