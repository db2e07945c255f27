//! The holder of the Sync turn gathers what others deposited: behind a passed barrier of the append
//! order it takes the boxes of the groups before it one by one, and gives each back empty.
ghost use Rattle.std.specs.Prelude.{◌≡◌, ◌≢◌, suc, ◌<◌, List, [], Some, None};
ghost use Rattle.op_core.specs.declared.count.Order.TheVariants.{Append};
ghost use Rattle.path_core.specs.declared.event.Event.TheVariants.{Look};
ghost use Rattle.path_core.specs.declared.event.Place.TheVariants.{Oldest};
ghost use Rattle.path_core.specs.declared.note.EntryNote.{EntryNote};
ghost use Rattle.path_core.specs.declared.seat.Issue.TheVariants.{Rest};
ghost use Rattle.path_core.specs.Parts.{issue_of};
ghost use Rattle.path_rule.specs.Boxes.{box_of};
ghost use Rattle.path_rule.specs.HandsAfter.{with_swept, with_taken};
ghost use Rattle.path_rule.specs.Told.{CarriesNotes};
ghost use Rattle.path_rule.specs.TurnTold.{TookBox};
ghost use Rattle.path_rule.specs.Turns.{TurnSaw};
ghost use Rattle.path_table.specs.Members.{
  view_of,
  part_of,
  hands_of,
  boxes_of,
  IsOf,
  IsSame,
  PutsBack,
  Stepped,
  SteppedAs,
};

use crate::table::{Member, PathTable};
use crate::words::OLDEST_APPEND;
use path_core::Keeper;
use path_rule::{GatherBox, GiveBack};
use std::alloc::Allocator;

impl<K: Keeper, A: Allocator> PathTable<K, A> {
    /// Takes the next box of the groups behind the barrier, if the oldest group is found to be the
    /// current one, so that the barrier is passed. Returns the oldest group: where that is another,
    /// this was a look.
    pub fn gather(&self, member: &mut Member<K>, current: u64) -> u64
        requires table { IsOf self.now.table.shared.table_id self.now.size member.old }
        requires turn { TurnSaw Append (part_of member.old) current
            × (issue_of (part_of member.old) ≡ Rest) × ((hands_of member.old).box_taken ≡ None) }
        requires more { (hands_of member.old).swept < self.now.size.seats }
        ensures same { IsSame member.old member.new }
        ensures hit { result ≡ current
            → ((taken : List EntryNote) × SteppedAs member.old
            (Look member.old.number (Oldest Append)) result
            (with_taken (Some (box_of (hands_of member.old).swept (suc current))) taken
            (hands_of member.old)) member.new)
            × TookBox (box_of (hands_of member.old).swept (suc current)) member.old.seat.me
            member.new.seat.me }
        ensures miss { result ≢ current
            → Stepped member.old (Look member.old.number (Oldest Append)) result member.new
            × (boxes_of member.new ≡ boxes_of member.old) }
    {
        self.table
            .shared
            .load::<GatherBox<K>>(&mut member.seat, OLDEST_APPEND)
    }

    /// Gives that box back, empty: what was in it is pending. With the box of the last seat all are
    /// gathered.
    pub fn give_back(&self, member: &mut Member<K>, current: u64) -> u64
        requires table { IsOf self.now.table.shared.table_id self.now.size member.old }
        requires turn { TurnSaw Append (part_of member.old) current
            × ((hands_of member.old).box_taken
            ≡ Some (box_of (hands_of member.old).swept (suc current))) }
        requires box_kept { CarriesNotes (box_of (hands_of member.old).swept (suc current)) []
            member.old.seat.me }
        ensures same { PutsBack member.old member.new }
        ensures step { SteppedAs member.old (Look member.old.number (Oldest Append)) result
            (with_swept (view_of member.old).size.seats (hands_of member.old)) member.new }
    {
        self.table
            .shared
            .load::<GiveBack<K>>(&mut member.seat, OLDEST_APPEND)
    }
}
