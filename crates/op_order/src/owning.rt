//! Each single step of the owner on the table.
ghost use Rattle.std.specs.Prelude.{◌≡◌, ◌≢◌, ◌+◌, ◌<◌, ◌≤◌, suc, true};
ghost use Rattle.op_core.specs.declared.count.Tally.TheVariants as tallies;
ghost use Rattle.op_core.specs.CountWords.{count_word};
ghost use Rattle.op_order.specs.declared.view.Stage.TheVariants as stages;
ghost use Rattle.op_order.specs.Parts.{part_of, IsOwner, OwnerSteps};
ghost use Rattle.op_order.specs.Rule.{count_at};
ghost use Rattle.op_order.specs.Told.{with_store, with_root, with_open, with_move, with_rest};
ghost use Rattle.op_order.specs.Told.{with_found, with_gone, with_oldest, HasLeft};

use crate::fact::Fact;
use crate::plays::{
    AdvanceOldest, ExpireGroup, LookOldest, MoveCurrent, OpenGroup, StorePlace, StoreRoot,
};
use crate::spots::{count_at, value_at};
use crate::table::OpOrder;
use crate::view::View;
use crate::word::{EXPIRED, GROUP};
use atomic_table::Seat;

impl<F: Fact> OpOrder<F> {
    /// The owner puts a value into the next place.
    pub(crate) fn store_place(&self, seat: &mut Seat<u64, View>, next: u64, value: u64)
        requires seat { IsOwner self.now.table.shared.table_id seat.old }
        requires rests { (part_of seat.old).stage ≡ stages.Rest }
        requires next { (next ≡ suc (part_of seat.old).sequence)
            × (next < (part_of seat.old).oldest + self.now.places)
            × (next ≤ 1099511627776) }
        requires fits { F.fits next value }
        ensures { OwnerSteps seat.old seat.new (with_store value (part_of seat.old)) }
    {
        self.table
            .shared
            .store::<StorePlace>(seat, value_at(self.places, next), value);
    }

    /// That place becomes the root.
    pub(crate) fn store_root(&self, seat: &mut Seat<u64, View>, next: u64)
        requires seat { IsOwner self.now.table.shared.table_id seat.old }
        requires stage { (part_of seat.old).stage ≡ stages.Stored }
        requires next { (next ≡ suc (part_of seat.old).sequence) × (next ≤ 1099511627776) }
        ensures { OwnerSteps seat.old seat.new (with_root (part_of seat.old)) }
    {
        self.table
            .shared
            .store::<StoreRoot>(seat, 0, 1024 * next + next % self.places);
    }

    /// The owner makes the next group.
    pub(crate) fn open_group(&self, seat: &mut Seat<u64, View>, group: u64)
        requires seat { IsOwner self.now.table.shared.table_id seat.old }
        requires stage { (part_of seat.old).stage ≡ stages.Rooted }
        requires group { (group ≡ suc (part_of seat.old).current) × (group ≤ 1099511627776) }
        ensures { OwnerSteps seat.old seat.new (with_open (part_of seat.old)) }
    {
        self.table
            .shared
            .store::<OpenGroup>(seat, count_at(self.places, group), GROUP * group);
    }

    /// That group becomes the current one.
    pub(crate) fn move_current(&self, seat: &mut Seat<u64, View>, group: u64)
        requires seat { IsOwner self.now.table.shared.table_id seat.old }
        requires stage { (part_of seat.old).stage ≡ stages.Opened }
        requires group { group ≡ suc (part_of seat.old).current }
        ensures { OwnerSteps seat.old seat.new (with_move (part_of seat.old)) }
    {
        self.table.shared.store::<MoveCurrent>(seat, 1, group);
    }

    /// The group before the current one is expired.
    pub(crate) fn expire(&self, seat: &mut Seat<u64, View>, group: u64)
        requires seat { IsOwner self.now.table.shared.table_id seat.old }
        requires stage { (part_of seat.old).stage ≡ stages.Moved }
        requires group { suc group ≡ (part_of seat.old).current }
        ensures { OwnerSteps seat.old seat.new (with_rest (part_of seat.old)) }
    {
        self.table
            .shared
            .fetch_add::<ExpireGroup>(seat, count_at(self.places, group), EXPIRED);
    }

    /// The owner looks at the count of the oldest group. Returns the word found: the group is
    /// finished where it is the mark and the group's number alone.
    pub(crate) fn look_oldest(&self, seat: &mut Seat<u64, View>, oldest: u64) -> u64
        requires seat { IsOwner self.now.table.shared.table_id seat.old }
        requires oldest { (part_of seat.old).oldest ≡ oldest }
        ensures hit { result ≡ count_word oldest (tallies.Expired 0)
            → OwnerSteps seat.old seat.new (with_gone
            (with_found (count_at self.now.places oldest) result (part_of seat.old))) }
        ensures miss { result ≢ count_word oldest (tallies.Expired 0)
            → OwnerSteps seat.old seat.new
            (with_found (count_at self.now.places oldest) result (part_of seat.old)) }
        ensures left { (part_of seat.old).stage ≡ stages.Rest
            → oldest < (part_of seat.old).current
            → result ≢ count_word oldest (tallies.Expired 0) → HasLeft oldest result }
    {
        self.table
            .shared
            .load::<LookOldest>(seat, count_at(self.places, oldest))
    }

    /// The oldest group moves on.
    pub(crate) fn advance(&self, seat: &mut Seat<u64, View>, group: u64)
        requires seat { IsOwner self.now.table.shared.table_id seat.old }
        requires stage { ((part_of seat.old).stage ≡ stages.Rest)
            × ((part_of seat.old).gone ≡ true) }
        requires group { (group ≡ suc (part_of seat.old).oldest)
            × ((part_of seat.old).oldest < (part_of seat.old).current) }
        ensures { OwnerSteps seat.old seat.new (with_oldest (part_of seat.old)) }
    {
        self.table.shared.store::<AdvanceOldest>(seat, 2, group);
    }
}
