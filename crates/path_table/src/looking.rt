//! What a seat that waits looks at, without the Sync turn: how far the log is lasting, which group
//! of the write order is the oldest one, and whether the turn is free. The synced key only grows,
//! so what is lasting when a seat looks stays so: a sync made by another seat serves all that wait
//! for a key at or below it (`CommitLogSegment.waitForSync`).
ghost use Rattle.std.specs.Prelude.{◌≡◌, ℕ, Some};
ghost use Rattle.op_core.specs.declared.count.Order.TheVariants.{Write};
ghost use Rattle.path_core.specs.declared.event.Cursor.TheVariants.{Synced};
ghost use Rattle.path_core.specs.declared.event.Event.TheVariants.{Look};
ghost use Rattle.path_core.specs.declared.event.Place.TheVariants.{CursorWord, Oldest};
ghost use Rattle.path_core.specs.declared.event.Place.TheVariants.{TurnWord};
ghost use Rattle.path_core.specs.declared.event.Turn.TheVariants.{Sync};
ghost use Rattle.path_core.specs.Parts.{found_of};
ghost use Rattle.path_rule.specs.Rounds.{WroteBelow};
ghost use Rattle.path_rule.specs.Rule.{Was};
ghost use Rattle.path_rule.specs.SyncAnswers.{IsDoneBy, MayAnswer};
ghost use Rattle.path_table.specs.Members.{view_of, part_of, IsOf, KeepsBoxes, KeepsSizes, Stepped};

use crate::table::{Member, PathTable};
use crate::words::{OLDEST_WRITE, SYNC_TURN, SYNCED};
use path_core::Keeper;
use path_rule::{LookAt, SyncAnswer};
use std::alloc::Allocator;

impl<K: Keeper, A: Allocator> PathTable<K, A> {
    /// The synced key: when the member looked, the log was lasting up to there.
    pub fn look_synced(&self, member: &mut Member<K>) -> u64
        requires { IsOf self.now.table.shared.table_id self.now.size member.old }
        ensures same { KeepsBoxes member.old member.new }
        ensures step { Stepped member.old (Look member.old.number (CursorWord Synced)) result
            member.new }
        ensures found { (was : Was (view_of member.old) member.old.number
            (Look member.old.number (CursorWord Synced))) × (was.core.synced ≡ result) }
    {
        self.table
            .shared
            .load::<LookAt<K>>(&mut member.seat, SYNCED)
    }

    /// The oldest group of the write order that was not moved over: the barriers of those before it
    /// are passed.
    pub fn look_passed(&self, member: &mut Member<K>) -> u64
        requires { IsOf self.now.table.shared.table_id self.now.size member.old }
        ensures same { KeepsBoxes member.old member.new }
        ensures step { Stepped member.old (Look member.old.number (Oldest Write)) result
            member.new }
        ensures found { (found_of Write (part_of member.new)).oldest ≡ Some result }
    {
        self.table
            .shared
            .load::<LookAt<K>>(&mut member.seat, OLDEST_WRITE)
    }

    /// The word of the Sync turn, which is 0 where nobody has it: who waits for the turn tries to
    /// take it only then.
    pub fn look_turn(&self, member: &mut Member<K>) -> u64
        requires { IsOf self.now.table.shared.table_id self.now.size member.old }
        ensures same { KeepsBoxes member.old member.new }
        ensures step { Stepped member.old (Look member.old.number (TurnWord Sync)) result
            member.new }
    {
        self.table
            .shared
            .load::<LookAt<K>>(&mut member.seat, SYNC_TURN)
    }

    /// Whether the log is lasting up to a key: the answer of a sync by a member that wrote nothing
    /// above it, `None` where the synced key lies below.
    pub fn look_done(&self, member: &mut Member<K>, upto: u64) -> Option<SyncAnswer>
        requires { IsOf self.now.table.shared.table_id self.now.size member.old }
        ensures same { KeepsSizes member.old member.new }
        ensures looked { (found : ℕ)
            × Stepped member.old (Look member.old.number (CursorWord Synced)) found member.new
            × IsDoneBy upto found result }
        ensures answer { WroteBelow upto (view_of member.old).trail
            → MayAnswer member.old.number 0 self.now.size.at_open (view_of member.old) result
            (view_of member.new) }
    {
        let synced = self.look_synced(member);
        if synced >= upto {
            Some(SyncAnswer::Done(synced))
        } else {
            None
        }
    }
}
