//! The steps of a barrier of the write order, each with what its holder knows since: how far the
//! issue has got (`Holds`), and the current group (`TurnSaw`).
ghost use Rattle.std.specs.Prelude.{◌*◌, ◌≡◌, ℕ, suc, ◌+◌, ◌<◌, ◌≤◌, Some};
ghost use Rattle.op_core.specs.declared.count.Order.TheVariants.{Write};
ghost use Rattle.path_core.specs.declared.event.Event.TheVariants.{OpenGroup, MoveCurrent, Expire};
ghost use Rattle.path_core.specs.declared.event.Event.TheVariants.{Advance};
ghost use Rattle.path_core.specs.declared.seat.Issue.TheVariants.{Rest, Opened, Moved};
ghost use Rattle.path_core.specs.declared.seat.Switching.TheVariants.{Waiting, WithBarrier};
ghost use Rattle.path_core.specs.Allowed.{IsAllowed};
ghost use Rattle.path_core.specs.Holders.{HasWaiting};
ghost use Rattle.path_core.specs.Parts.{marker_of, stage_of};
ghost use Rattle.path_rule.specs.Calls.{Holds};
ghost use Rattle.path_rule.specs.Issued.{issued_in, most_issued};
ghost use Rattle.path_rule.specs.Layout.{numbers_end};
ghost use Rattle.path_rule.specs.Rule.{Was};
ghost use Rattle.path_rule.specs.Turns.{FoundRunning, TurnSaw, TurnOld, TurnGone, KeepsCurrent};
ghost use Rattle.path_table.specs.Members.{view_of, part_of, hands_of, IsOf, KeepsSizes, Stepped};

use crate::table::{Member, PathTable};
use crate::words::{CURRENT_WRITE, EXPIRED, OLDEST_WRITE, ONE_GROUP, WRITE_COUNTS};
use path_core::Keeper;
use path_rule::{AdvanceWrite, ExpireWrite, MoveWrite, OpenWrite};
use std::alloc::Allocator;

impl<K: Keeper, A: Allocator> PathTable<K, A> {
    /// Makes the next group of the write order, for a barrier behind the current one. A switched
    /// memtable of a table whose turn the member has waits for its barrier: the barrier is for it.
    pub fn open_write(&self, member: &mut Member<K>, group: u64, current: u64)
        requires table { IsOf self.now.table.shared.table_id self.now.size member.old }
        requires turn { Holds Rest (view_of member.old)
            × TurnSaw Write (part_of member.old) current × (group ≡ suc current)
            × (issued_in (view_of member.old).trail < most_issued) }
        requires small { current < numbers_end }
        requires waiting { HasWaiting (part_of member.old) }
        requires free { (oldest : ℕ) × TurnOld Write (part_of member.old) oldest
            × (group ≤ oldest + 31) }
        ensures same { KeepsSizes member.old member.new }
        ensures step { Stepped member.old (OpenGroup member.old.number Write group) (65536 * group)
            member.new }
        ensures turn { Holds (Opened Write) (view_of member.new)
            × KeepsCurrent Write (part_of member.old) (part_of member.new) }
        ensures allowed { (was : Was (view_of member.old) member.old.number
            (OpenGroup member.old.number Write group))
            × IsAllowed was.core (OpenGroup member.old.number Write group) }
        ensures stages { (t : ℕ) → stage_of (part_of member.new) t
            ≡ stage_of (part_of member.old) t }
    {
        self.table.shared.store::<OpenWrite<K>>(
            &mut member.seat,
            WRITE_COUNTS + 16 * (group % 32) as usize,
            ONE_GROUP * group,
        );
        member.issued += 1;
    }

    /// Makes that group the current one. What waited for its barrier has it: the group that was
    /// current.
    pub fn move_write(&self, member: &mut Member<K>, group: u64, current: u64)
        requires table { IsOf self.now.table.shared.table_id self.now.size member.old }
        requires turn { Holds (Opened Write) (view_of member.old)
            × TurnSaw Write (part_of member.old) current × (group ≡ suc current) }
        ensures same { KeepsSizes member.old member.new }
        ensures step { Stepped member.old (MoveCurrent member.old.number Write group) current
            member.new }
        ensures turn { Holds (Moved Write) (view_of member.new)
            × TurnSaw Write (part_of member.new) group }
        ensures issued { (t memtable : ℕ)
            → stage_of (part_of member.old) t ≡ Some (Waiting memtable)
            → stage_of (part_of member.new) t ≡ Some (WithBarrier memtable current) }
    {
        self.table
            .shared
            .store::<MoveWrite<K>>(&mut member.seat, CURRENT_WRITE, group);
    }

    /// Expires the group before the current one: nobody joins it any more. Returns the count of its
    /// operations, as it was found.
    pub fn expire_write(&self, member: &mut Member<K>, group: u64, current: u64) -> u64
        requires table { IsOf self.now.table.shared.table_id self.now.size member.old }
        requires turn { Holds (Moved Write) (view_of member.old)
            × TurnSaw Write (part_of member.old) current × (suc group ≡ current)
            × (group < numbers_end) }
        ensures same { KeepsSizes member.old member.new }
        ensures step { Stepped member.old (Expire member.old.number Write group) result
            member.new }
        ensures turn { Holds Rest (view_of member.new)
            × KeepsCurrent Write (part_of member.old) (part_of member.new) }
        ensures stages { (t : ℕ) → stage_of (part_of member.new) t
            ≡ stage_of (part_of member.old) t }
    {
        self.table.shared.fetch_add::<ExpireWrite<K>>(
            &mut member.seat,
            WRITE_COUNTS + 16 * (group % 32) as usize,
            EXPIRED,
        )
    }

    /// Moves the oldest group over one whose count was found finished.
    pub fn advance_write(&self, member: &mut Member<K>, group: u64, oldest: u64, current: u64)
        requires table { IsOf self.now.table.shared.table_id self.now.size member.old }
        requires turn { Holds Rest (view_of member.old)
            × TurnSaw Write (part_of member.old) current
            × TurnOld Write (part_of member.old) oldest
            × TurnGone Write (part_of member.old) oldest }
        requires group { (group ≡ suc oldest) × (group ≤ current) }
        ensures same { KeepsSizes member.old member.new }
        ensures step { Stepped member.old (Advance member.old.number Write group) group
            member.new }
        ensures turn { Holds Rest (view_of member.new)
            × KeepsCurrent Write (part_of member.old) (part_of member.new) }
        ensures marker { marker_of (part_of member.new) ≡ marker_of (part_of member.old) }
        ensures runs { FoundRunning (part_of member.old) → FoundRunning (part_of member.new) }
        ensures hands { hands_of member.new ≡ hands_of member.old }
        ensures stages { (t : ℕ) → stage_of (part_of member.new) t
            ≡ stage_of (part_of member.old) t }
    {
        self.table
            .shared
            .store::<AdvanceWrite<K>>(&mut member.seat, OLDEST_WRITE, group);
    }
}
