//! The Sync turn: taken with the desk, given back with it, and what its holder finds of the log.
ghost use Rattle.std.specs.Prelude.{◌≡◌, ◌≢◌, ◌<◌, List, Some, None, is_some, IsTrue};
ghost use Rattle.path_core.specs.declared.event.Cursor.TheVariants.{Stopped};
ghost use Rattle.path_core.specs.declared.event.Event.TheVariants.{Look, TakeTurn, GiveTurn};
ghost use Rattle.path_core.specs.declared.event.Place.TheVariants.{TurnWord, CursorWord};
ghost use Rattle.path_core.specs.declared.event.Turn.TheVariants.{Sync};
ghost use Rattle.path_core.specs.declared.note.EntryNote.{EntryNote};
ghost use Rattle.path_core.specs.declared.seat.Issue.TheVariants.{Rest};
ghost use Rattle.path_core.specs.declared.seat.SyncTurn.{SyncTurn};
ghost use Rattle.path_core.specs.Keeper.{HasRisen};
ghost use Rattle.path_core.specs.Parts.{IsIdle, issue_of};
ghost use Rattle.path_rule.specs.declared.lasting.Lasting.{Lasting};
ghost use Rattle.path_rule.specs.declared.view.Progress.{Progress};
ghost use Rattle.path_rule.specs.HandsAfter.{unswept_hands, with_desk};
ghost use Rattle.path_rule.specs.Lasts.{shows_of};
ghost use Rattle.path_rule.specs.TurnTold.{CarriesDesk, TookDesk};
ghost use Rattle.path_table.specs.Members.{
  part_of,
  hands_of,
  boxes_of,
  IsOf,
  IsSame,
  KeepsBoxes,
  PutsBack,
  Stepped,
  SteppedAs,
};

use crate::table::{Member, PathTable};
use crate::words::{STOPPED, SYNC_TURN};
use path_core::Keeper;
use path_rule::{GiveSync, LookAt, TakeSync};
use std::alloc::Allocator;
use std::sync::Wait;
use std::time::Duration;

// The longest that a seat sleeps which waits for the turn, in milliseconds: it may have missed that
// the turn was given back and taken again.
const SLEEP_MILLIS: u64 = 1;

impl<K: Keeper, A: Allocator> PathTable<K, A> {
    /// Takes the Sync turn, with the desk, where nobody has it. Returns what it found: where that
    /// is not 0, another seat has the turn: it is 1, and this was a look.
    pub fn take_sync(&self, member: &mut Member<K>) -> u64
        requires table { IsOf self.now.table.shared.table_id self.now.size member.old }
        requires idle { IsIdle (part_of member.old) × ((part_of member.old).sync ≡ None) }
        ensures same { IsSame member.old member.new }
        ensures empty { (hands_of member.new).box_taken ≡ None }
        ensures hit { result ≡ 0
            → ((lasting : Lasting) × (pending : List EntryNote) × (progress : Progress)
            × SteppedAs member.old (TakeTurn member.old.number Sync) 1
            (with_desk lasting pending progress (hands_of member.old)) member.new
            × (lasting.at_open ≡ self.now.size.at_open))
            × TookDesk (shows_of K.holds) member.old.seat.me member.new.seat.me }
        ensures miss { result ≢ 0
            → Stepped member.old (Look member.old.number (TurnWord Sync)) result member.new
            × (boxes_of member.new ≡ boxes_of member.old) × (result ≡ 1) }
    {
        self.table
            .shared
            .compare_exchange::<TakeSync<K>>(&mut member.seat, SYNC_TURN, 0, 1)
    }

    /// Gives the Sync turn back, and the desk with what the member knows to be on it, while no
    /// barrier is under way; and wakes all who sleep until then.
    pub fn give_sync(&self, member: &mut Member<K>)
        requires table { IsOf self.now.table.shared.table_id self.now.size member.old }
        requires rest { IsTrue (is_some (part_of member.old).sync)
            × (issue_of (part_of member.old) ≡ Rest)
            × ((hands_of member.old).box_taken ≡ None) }
        requires desk { CarriesDesk (shows_of K.holds) member.old.seat.me }
        ensures same { PutsBack member.old member.new }
        ensures step { SteppedAs member.old (GiveTurn member.old.number Sync) 0
            (unswept_hands (hands_of member.old)) member.new }
    {
        self.table
            .shared
            .store::<GiveSync<K>>(&mut member.seat, SYNC_TURN, 0);
        self.table.shared.wake_all(SYNC_TURN);
    }

    /// Sleeps while a seat has the Sync turn, until it is given back, for a millisecond at most. It
    /// may return sooner.
    pub fn sleep_beside_turn<R: Wait>(&self, rt: &R) {
        let longest = Duration::from_millis(SLEEP_MILLIS);
        self.table.shared.park_timeout(rt, SYNC_TURN, 1, longest);
    }

    /// The count of faults with which the keeper stopped, 0 while the log runs. It is exact while
    /// the turn is held, and above the count at the keeper's opening.
    pub fn look_stopped(&self, member: &mut Member<K>) -> u64
        requires table { IsOf self.now.table.shared.table_id self.now.size member.old }
        requires turn { IsTrue (is_some (part_of member.old).sync) }
        ensures same { KeepsBoxes member.old member.new }
        ensures step { Stepped member.old (Look member.old.number (CursorWord Stopped)) result
            member.new }
        ensures turn { (t : SyncTurn) × ((part_of member.new).sync ≡ Some t)
            × (t.stopped ≡ Some result) }
        ensures risen { 0 < result → HasRisen self.now.size.at_open result }
    {
        self.table
            .shared
            .load::<LookAt<K>>(&mut member.seat, STOPPED)
    }
}
