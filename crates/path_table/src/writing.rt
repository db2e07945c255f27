//! The steps of a writer on the write order: it looks, is in a group, and leaves it.
ghost use Rattle.op_core.specs.CountWords.{number_in};
ghost use Rattle.std.specs.Prelude.{◌≡◌, ◌≢◌, ◌+◌, ◌<◌, ◌^◌, Some, None};
ghost use Rattle.op_core.specs.declared.count.Order.TheVariants.{Write};
ghost use Rattle.path_core.specs.declared.event.Carried.TheVariants.{Nothing};
ghost use Rattle.path_core.specs.declared.event.Event.TheVariants.{Look, Register, Close};
ghost use Rattle.path_core.specs.declared.event.Place.TheVariants.{Count, Current};
ghost use Rattle.path_core.specs.Parts.{HoldsNoTurn, IsIdle, found_of};
ghost use Rattle.path_rule.specs.Layout.{numbers_end};
ghost use Rattle.path_rule.specs.Turns.{Sighted};
ghost use Rattle.path_table.specs.Members.{view_of, part_of, IsOf, KeepsBoxes, Stepped};

use crate::table::{Member, PathTable};
use crate::words::{CURRENT_WRITE, WRITE_COUNTS};
use path_core::Keeper;
use path_rule::{LookAt, RegisterIn, StopIn};
use std::alloc::Allocator;

impl<K: Keeper, A: Allocator> PathTable<K, A> {
    /// The current group of the write order.
    pub fn look_write(&self, member: &mut Member<K>) -> u64
        requires { IsOf self.now.table.shared.table_id self.now.size member.old }
        ensures same { KeepsBoxes member.old member.new }
        ensures step { Stepped member.old (Look member.old.number (Current Write)) result
            member.new }
        ensures below { result < numbers_end }
    {
        self.table
            .shared
            .load::<LookAt<K>>(&mut member.seat, CURRENT_WRITE)
    }

    /// The word of a group of the write order, which tells the number and the count of the last
    /// group that took it. The member knows that the group was made: it found it as the current or
    /// as the oldest one.
    pub fn look_writers(&self, member: &mut Member<K>, group: u64) -> u64
        requires table { IsOf self.now.table.shared.table_id self.now.size member.old }
        requires group { (group < numbers_end) × Sighted (view_of member.old) (Count Write group) }
        ensures same { KeepsBoxes member.old member.new }
        ensures step { Stepped member.old (Look member.old.number (Count Write (number_in result)))
            result
            member.new }
    {
        self.table.shared.load::<LookAt<K>>(
            &mut member.seat,
            WRITE_COUNTS + 16 * (group % 32) as usize,
        )
    }

    /// Joins the group that the member last found current, if its word is still the one that was
    /// looked at (`OpOrder.Group.register`). Returns the word that it found: where that is
    /// another, this was a look.
    pub fn register(&self, member: &mut Member<K>, group: u64, looked: u64) -> u64
        requires table { IsOf self.now.table.shared.table_id self.now.size member.old }
        requires group { (group < numbers_end)
            × ((found_of Write (part_of member.old)).current ≡ Some group)
            × (number_in looked ≡ group) × (looked < 2 ^ 63) }
        requires idle { IsIdle (part_of member.old) × HoldsNoTurn (part_of member.old) }
        ensures same { KeepsBoxes member.old member.new }
        ensures hit { result ≡ looked
            → Stepped member.old (Register member.old.number Write group) (looked + 1) member.new }
        ensures miss { result ≢ looked
            → Stepped member.old (Look member.old.number (Count Write (number_in result))) result
            member.new }
    {
        self.table.shared.compare_exchange::<RegisterIn<K>>(
            &mut member.seat,
            WRITE_COUNTS + 16 * (group % 32) as usize,
            looked,
            looked + 1,
        )
    }

    /// Leaves the write order, before a claim. Returns the count that it found.
    pub fn leave(&self, member: &mut Member<K>, group: u64) -> u64
        requires table { IsOf self.now.table.shared.table_id self.now.size member.old }
        requires group { (group < numbers_end) × ((part_of member.old).write ≡ Some group) }
        requires unclaimed { ((part_of member.old).append ≡ None)
            × ((part_of member.old).claim ≡ None) }
        ensures same { KeepsBoxes member.old member.new }
        ensures step { Stepped member.old (Close member.old.number Write group Nothing) result
            member.new }
    {
        self.table.shared.fetch_sub::<StopIn<K>>(
            &mut member.seat,
            WRITE_COUNTS + 16 * (group % 32) as usize,
            1,
        )
    }
}
