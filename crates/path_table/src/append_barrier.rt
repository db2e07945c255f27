//! The steps of a barrier of the append order, which the last marker waits for. The next group is
//! made and becomes the current one, the one before expires, and the oldest group moves over those
//! whose counts are finished.
ghost use Rattle.std.specs.Prelude.{◌*◌, ◌≡◌, ℕ, suc, ◌+◌, ◌<◌, ◌≤◌, true};
ghost use Rattle.op_core.specs.declared.count.Order.TheVariants.{Append};
ghost use Rattle.path_core.specs.declared.event.Event.TheVariants.{OpenGroup, MoveCurrent, Expire};
ghost use Rattle.path_core.specs.declared.event.Event.TheVariants.{Advance};
ghost use Rattle.path_core.specs.declared.seat.Issue.TheVariants.{Rest, Opened, Moved};
ghost use Rattle.path_core.specs.Allowed.{IsAllowed};
ghost use Rattle.path_core.specs.Parts.{marker_of, stage_of};
ghost use Rattle.path_rule.specs.Calls.{Holds};
ghost use Rattle.path_rule.specs.HandsAfter.{issued_hands};
ghost use Rattle.path_rule.specs.Issued.{issued_in, most_issued};
ghost use Rattle.path_rule.specs.Layout.{numbers_end};
ghost use Rattle.path_rule.specs.Rule.{Was};
ghost use Rattle.path_rule.specs.Turns.{FoundRunning, MarkerWaits, TurnSaw, TurnOld, TurnGone};
ghost use Rattle.path_rule.specs.Turns.{KeepsCurrent};
ghost use Rattle.path_table.specs.Members.{view_of, part_of, hands_of, IsOf, KeepsSizes, Stepped};
ghost use Rattle.path_table.specs.Members.{SteppedAs};

use crate::table::{Member, PathTable};
use crate::words::{APPEND_COUNTS, CURRENT_APPEND, EXPIRED, OLDEST_APPEND, ONE_GROUP};
use path_core::Keeper;
use path_rule::{AdvanceAppend, ExpireAppend, MoveAppend, OpenAppend};
use std::alloc::Allocator;

impl<K: Keeper, A: Allocator> PathTable<K, A> {
    /// Makes the next group, where the member's own marker, the last one, has no barrier, and the
    /// log was found running.
    pub fn open_append(&self, member: &mut Member<K>, group: u64, current: u64)
        requires table { IsOf self.now.table.shared.table_id self.now.size member.old }
        requires turn { Holds Rest (view_of member.old)
            × TurnSaw Append (part_of member.old) current × (group ≡ suc current)
            × (issued_in (view_of member.old).trail < most_issued) }
        requires small { current < numbers_end }
        requires marker { (start : ℕ) × MarkerWaits member.old.number (part_of member.old) start }
        requires runs { FoundRunning (part_of member.old) }
        requires free { (oldest : ℕ) × TurnOld Append (part_of member.old) oldest
            × (group ≤ oldest + 31) }
        ensures same { KeepsSizes member.old member.new }
        ensures step { Stepped member.old (OpenGroup member.old.number Append group) (65536 * group)
            member.new }
        ensures allowed { (was : Was (view_of member.old) member.old.number
            (OpenGroup member.old.number Append group))
            × IsAllowed was.core (OpenGroup member.old.number Append group) }
        ensures turn { Holds (Opened Append) (view_of member.new)
            × KeepsCurrent Append (part_of member.old) (part_of member.new) }
        ensures marker { marker_of (part_of member.new) ≡ marker_of (part_of member.old) }
        ensures hands { hands_of member.new ≡ hands_of member.old }
    {
        self.table.shared.store::<OpenAppend<K>>(
            &mut member.seat,
            APPEND_COUNTS + 16 * (group % 32) as usize,
            ONE_GROUP * group,
        );
        member.issued += 1;
    }

    /// Makes that group the current one: the one before it is the barrier of the marker. The boxes
    /// of the last barrier have to be gathered, so no two barriers have notes in boxes at once.
    pub fn move_append(&self, member: &mut Member<K>, group: u64, current: u64)
        requires table { IsOf self.now.table.shared.table_id self.now.size member.old }
        requires turn { Holds (Opened Append) (view_of member.old)
            × TurnSaw Append (part_of member.old) current × (group ≡ suc current) }
        requires marker { (start : ℕ) × MarkerWaits member.old.number (part_of member.old) start }
        requires gathered { (hands_of member.old).progress.gathered ≡ true }
        ensures same { KeepsSizes member.old member.new }
        ensures step { SteppedAs member.old (MoveCurrent member.old.number Append group) current
            (issued_hands current (hands_of member.old)) member.new }
        ensures turn { Holds (Moved Append) (view_of member.new)
            × TurnSaw Append (part_of member.new) group }
        ensures hands { hands_of member.new ≡ issued_hands current (hands_of member.old) }
    {
        self.table
            .shared
            .store::<MoveAppend<K>>(&mut member.seat, CURRENT_APPEND, group);
    }

    /// Expires the group before the current one: nobody joins it any more. Returns the count that
    /// it found.
    pub fn expire_append(&self, member: &mut Member<K>, group: u64, current: u64) -> u64
        requires table { IsOf self.now.table.shared.table_id self.now.size member.old }
        requires turn { Holds (Moved Append) (view_of member.old)
            × TurnSaw Append (part_of member.old) current × (suc group ≡ current)
            × (group < numbers_end) }
        ensures same { KeepsSizes member.old member.new }
        ensures step { Stepped member.old (Expire member.old.number Append group) result
            member.new }
        ensures turn { Holds Rest (view_of member.new)
            × KeepsCurrent Append (part_of member.old) (part_of member.new) }
        ensures hands { hands_of member.new ≡ hands_of member.old }
    {
        self.table.shared.fetch_add::<ExpireAppend<K>>(
            &mut member.seat,
            APPEND_COUNTS + 16 * (group % 32) as usize,
            EXPIRED,
        )
    }

    /// Moves the oldest group over one whose count the member found finished.
    pub fn advance_append(&self, member: &mut Member<K>, group: u64, oldest: u64, current: u64)
        requires table { IsOf self.now.table.shared.table_id self.now.size member.old }
        requires turn { Holds Rest (view_of member.old)
            × TurnSaw Append (part_of member.old) current
            × TurnOld Append (part_of member.old) oldest
            × TurnGone Append (part_of member.old) oldest }
        requires group { (group ≡ suc oldest) × (group ≤ current) }
        ensures same { KeepsSizes member.old member.new }
        ensures step { Stepped member.old (Advance member.old.number Append group) group
            member.new }
        ensures turn { Holds Rest (view_of member.new)
            × KeepsCurrent Append (part_of member.old) (part_of member.new) }
        ensures marker { marker_of (part_of member.new) ≡ marker_of (part_of member.old) }
        ensures runs { FoundRunning (part_of member.old) → FoundRunning (part_of member.new) }
        ensures hands { hands_of member.new ≡ hands_of member.old }
        ensures stages { (t : ℕ) → stage_of (part_of member.new) t
            ≡ stage_of (part_of member.old) t }
    {
        self.table
            .shared
            .store::<AdvanceAppend<K>>(&mut member.seat, OLDEST_APPEND, group);
    }
}
