//! The steps at the end of a sync. The holder of the Sync turn looks at the synced key, lends the
//! keeper what is pending up to the last marker, and puts the synced key there, or stops the log.
ghost use Rattle.std.specs.Prelude.{◌≡◌, ℕ, ◌<◌, true, List, Some, None};
ghost use Rattle.path_core.specs.declared.event.Cursor.TheVariants.{Synced, Stopped};
ghost use Rattle.path_core.specs.declared.event.Event.TheVariants.{Look, Put};
ghost use Rattle.path_core.specs.declared.event.Place.TheVariants.{CursorWord};
ghost use Rattle.path_core.specs.declared.note.EntryNote.{EntryNote};
ghost use Rattle.path_core.specs.declared.seat.SyncTurn.{SyncTurn};
ghost use Rattle.path_core.specs.Keeper.{HasRisen, IsParted};
ghost use Rattle.path_core.specs.Next.{next_of};
ghost use Rattle.path_rule.specs.declared.lasting.Lasting.{Lasting};
ghost use Rattle.path_rule.specs.Calls.{MayGive, IsSyncedTo};
ghost use Rattle.path_rule.specs.HandsAfter.{with_desk};
ghost use Rattle.path_rule.specs.Lasts.{shown, shows_of};
ghost use Rattle.path_rule.specs.Rule.{Was};
ghost use Rattle.path_rule.specs.Trails.{GoesOnBehind};
ghost use Rattle.path_rule.specs.TurnTold.{
  CarriesAs,
  CarriesDesk,
  CarriesSynced,
  CarriesRefused,
  IsLent,
};
ghost use Rattle.path_rule.specs.Turns.{IsBarred, TurnRuns};
ghost use Rattle.path_table.specs.Members.{
  view_of,
  part_of,
  hands_of,
  IsOf,
  KeepsBoxes,
  Stepped,
  SteppedAs,
  SteppedRefused,
};

use crate::table::{Member, PathTable};
use crate::words::{STOPPED, SYNCED};
use path_core::Keeper;
use path_rule::{KeepRefused, LookAt, LookLent, PutStopped, PutSynced};
use std::alloc::Allocator;

impl<K: Keeper, A: Allocator> PathTable<K, A> {
    /// The synced key, once all boxes behind the last barrier are gathered. For the last marker,
    /// if it is above that key, what is pending up to it is exactly what the machine would make
    /// lasting, and may be lent to the keeper.
    pub fn look_lent(&self, member: &mut Member<K>) -> u64
        requires table { IsOf self.now.table.shared.table_id self.now.size member.old }
        requires turn { ((t : SyncTurn) × ((part_of member.old).sync ≡ Some t)
            × (t.stopped ≡ Some 0)) × ((hands_of member.old).progress.gathered ≡ true) }
        ensures same { KeepsBoxes member.old member.new }
        ensures step { Stepped member.old (Look member.old.number (CursorWord Synced)) result
            member.new }
        ensures hands { hands_of member.new ≡ hands_of member.old }
        ensures give { MayGive (view_of member.old) → MayGive (view_of member.new) }
        ensures found { IsSyncedTo (view_of member.new) result }
        ensures runs { (value : ℕ) → result < value → TurnRuns (part_of member.new) value }
        ensures lent { (value : ℕ) (run left : List EntryNote) → result < value
            → IsBarred (hands_of member.old) value
            → IsParted value (hands_of member.old).pending run left
            → IsLent (view_of member.old) member.old.number result value run }
        ensures goes_on { GoesOnBehind self.now.size.capacity result }
    {
        self.table
            .shared
            .load::<LookLent<K>>(&mut member.seat, SYNCED)
    }

    /// Puts the synced key at the last marker, once the keeper on the desk made lasting what was
    /// pending up to there: what it shows is what the machine has lasting after the step.
    pub fn put_synced(&self, member: &mut Member<K>, value: u64)
        requires table { IsOf self.now.table.shared.table_id self.now.size member.old }
        requires turn { TurnRuns (part_of member.old) value
            × ((hands_of member.old).progress.gathered ≡ true)
            × ((hands_of member.old).box_taken ≡ None) }
        requires marker { IsBarred (hands_of member.old) value }
        requires desk { CarriesSynced (shows_of K.holds) value member.old.seat.me }
        ensures same { KeepsBoxes member.old member.new }
        ensures step { (lasting : Lasting) (pending : List EntryNote)
            → CarriesAs (shows_of K.holds) lasting pending (hands_of member.old).progress
            member.old.seat.me
            → SteppedAs member.old (Put member.old.number Synced value) value
            (with_desk lasting pending (hands_of member.old).progress (hands_of member.old))
            member.new
            × ((was : Was (view_of member.old) member.old.number
            (Put member.old.number Synced value))
            × (shown lasting.beside self.now.size.at_open value lasting.filed lasting.dropped
            (next_of was.core (Put member.old.number Synced value)) ≡ lasting)) }
        ensures give { MayGive (view_of member.old) → MayGive (view_of member.new) }
        ensures desk { CarriesDesk (shows_of K.holds) member.new.seat.me }
        ensures synced { IsSyncedTo (view_of member.new) value }
    {
        self.table
            .shared
            .store::<PutSynced<K>>(&mut member.seat, SYNCED, value);
    }

    /// Stops the log, which the member found running, after a sync up to the last marker in which
    /// the keeper on the desk has stopped. The value is the count of faults with which it did.
    pub fn put_stopped(&self, member: &mut Member<K>, value: u64, upto: u64)
        requires table { IsOf self.now.table.shared.table_id self.now.size member.old }
        requires turn { TurnRuns (part_of member.old) upto
            × ((hands_of member.old).progress.gathered ≡ true)
            × ((hands_of member.old).box_taken ≡ None) }
        requires marker { IsBarred (hands_of member.old) upto }
        requires desk { CarriesRefused (shows_of K.holds) upto (Some value) member.old.seat.me }
        requires value { HasRisen (hands_of member.old).lasting.at_open value }
        ensures same { KeepsBoxes member.old member.new }
        ensures step { SteppedRefused upto (Some value) member.old
            (Put member.old.number Stopped value) value member.new }
        ensures give { MayGive (view_of member.old) → MayGive (view_of member.new) }
        ensures desk { CarriesDesk (shows_of K.holds) member.new.seat.me }
    {
        self.table
            .shared
            .store::<PutStopped<K>>(&mut member.seat, STOPPED, value);
    }

    /// The keeper's count of faults as the path tells it, after a sync up to the last marker that
    /// was refused for memory. The member knows then what lies on the desk.
    pub fn keep_refused(&self, member: &mut Member<K>, upto: u64) -> u64
        requires table { IsOf self.now.table.shared.table_id self.now.size member.old }
        requires turn { TurnRuns (part_of member.old) upto
            × ((hands_of member.old).progress.gathered ≡ true)
            × ((hands_of member.old).box_taken ≡ None) }
        requires marker { IsBarred (hands_of member.old) upto }
        requires desk { CarriesRefused (shows_of K.holds) upto
            (hands_of member.old).lasting.stopped member.old.seat.me }
        ensures same { KeepsBoxes member.old member.new }
        ensures step { SteppedRefused upto (hands_of member.old).lasting.stopped member.old
            (Look member.old.number (CursorWord Stopped)) result member.new }
        ensures give { MayGive (view_of member.old) → MayGive (view_of member.new) }
        ensures desk { CarriesDesk (shows_of K.holds) member.new.seat.me }
    {
        let _ = upto;
        self.table
            .shared
            .load::<KeepRefused<K>>(&mut member.seat, STOPPED)
    }
}
