//! The calls of the owner: it publishes values, and takes places back behind their barriers.
//!
//! A place is free, the root, or retired. The root is the place of the last sequence, and the place
//! of each earlier one from the oldest group's number on is retired: its barrier is the group of
//! that number. So three numbers tell how many places there are of each kind.
ghost use Rattle.std.specs.Prelude.{◌≡◌, ◌≢◌, ◌+◌, ◌<◌, ◌∷◌, suc};
ghost use Rattle.op_core.specs.declared.count.Tally.TheVariants as tallies;
ghost use Rattle.op_core.specs.CountWords.{count_word};
ghost use Rattle.op_order.specs.Owners.{IsOwnerOf, values_of, looks_of, Publishes, Reclaims};
ghost use Rattle.op_order.specs.Parts.{part_of, IsOwner, OwnerSteps, RestsAt, published};
ghost use Rattle.op_order.specs.Rule.{count_at};
ghost use Rattle.op_order.specs.Told.{looked_at, HasLeft};

use crate::fact::Fact;
use crate::seats::Owner;
use crate::table::OpOrder;
use crate::view::View;
use crate::word::{EXPIRED, GROUP, count_in};
use atomic_table::Seat;

/// What a call of `publish` did.
#[derive(Clone, Copy, Debug, PartialEq, Eq)]
pub enum Publish {
    /// The value was published under this sequence.
    Published(u64),
    /// No place was free, and nothing changed.
    Full {
        /// How many places are retired.
        retired: u16,
    },
}

/// What a call of `reclaim` did.
#[derive(Clone, Copy, Debug, PartialEq, Eq)]
pub struct Reclaim {
    /// How many places were freed.
    pub freed: u16,
    /// The oldest group and its count, where that stopped below the current one. The group has
    /// expired, so its count is -1 less the operations that were found in it.
    pub running: Option<(u64, i64)>,
}

impl Owner {
    /// How many values were published after the first: the sequence of the root.
    pub fn published(&self) -> u64
        ensures { result ≡ self.now.sequence }
    {
        self.sequence
    }

    /// How many places are retired.
    pub fn retired(&self) -> u16
        ensures { self.now.oldest + result ≡ self.now.sequence }
    {
        (self.sequence - self.oldest) as u16
    }

    /// How many places are free: with the root and the retired ones these are all.
    pub fn free(&self) -> u16
        ensures { self.now.sequence + result + 1 ≡ self.now.oldest + self.now.places }
    {
        (self.places - 1 - (self.sequence - self.oldest)) as u16
    }
}

impl<F: Fact> OpOrder<F> {
    #[tactic(auto, using(crate::proofs::Windows::publication_moves))]
    /// Publishes a value under the next sequence: it writes a free place, makes that the root, and
    /// issues a barrier for the place before (`Barrier.issue`). Full where no place is free.
    pub fn publish(&self, owner: &mut Owner, value: u64) -> Publish
        requires owner { IsOwnerOf self.now.table.shared.table_id self.now.places owner.old }
        requires fits { F.fits (suc owner.old.sequence) value }
        requires few { owner.old.sequence < 1099511627776 }
        ensures owner { IsOwnerOf self.now.table.shared.table_id self.now.places owner.new }
        ensures published { Publishes result value owner.old owner.new }
    {
        if owner.sequence + 1 >= owner.oldest + owner.places {
            let retired = owner.retired();
            return Publish::Full { retired };
        }
        self.issue(&mut owner.seat, owner.sequence, owner.oldest, value);
        owner.sequence += 1;
        Publish::Published(owner.sequence)
    }

    #[tactic(auto, using(crate::proofs::Windows::advance_frees))]
    /// Frees each retired place whose barrier is passed: the oldest group moves on while its count
    /// is found to be -1 and it is below the current one.
    pub fn reclaim(&self, owner: &mut Owner) -> Reclaim
        requires { IsOwnerOf self.now.table.shared.table_id self.now.places owner.old }
        ensures owner { IsOwnerOf self.now.table.shared.table_id self.now.places owner.new }
        ensures reclaimed { Reclaims result owner.old owner.new }
    {
        let mut freed = 0;
        while owner.oldest < owner.sequence {
            let group = owner.oldest;
            let found = self.advance_once(owner);
            if owner.oldest == group {
                let running = Some((group, count_in(found)));
                return Reclaim { freed, running };
            }
            freed += 1;
        }
        let running = None;
        Reclaim { freed, running }
    }

    // The five steps of a publication.
    fn issue(&self, seat: &mut Seat<u64, View>, sequence: u64, oldest: u64, value: u64)
        requires seat { IsOwner self.now.table.shared.table_id seat.old }
        requires rests { RestsAt (part_of seat.old) sequence oldest self.now.places }
        requires room { (suc sequence < oldest + self.now.places) × (sequence < 1099511627776) }
        requires fits { F.fits (suc sequence) value }
        ensures { OwnerSteps seat.old seat.new (published value (part_of seat.old)) }
    {
        let next = sequence + 1;
        self.store_place(seat, next, value);
        self.store_root(seat, next);
        self.open_group(seat, next);
        self.move_current(seat, next);
        self.expire(seat, sequence);
    }

    // Moves the oldest group on where its count is found finished. Returns the word found.
    fn advance_once(&self, owner: &mut Owner) -> u64
        requires owner { IsOwnerOf self.now.table.shared.table_id self.now.places owner.old }
        requires below { owner.old.oldest < owner.old.sequence }
        ensures owner { IsOwnerOf self.now.table.shared.table_id self.now.places owner.new
            × (owner.new.sequence ≡ owner.old.sequence)
            × (values_of owner.new ≡ values_of owner.old) }
        ensures moved { owner.new.oldest ≢ owner.old.oldest
            → (owner.new.oldest ≡ suc owner.old.oldest)
            × (result ≡ count_word owner.old.oldest (tallies.Expired 0)) }
        ensures stays { owner.new.oldest ≡ owner.old.oldest → HasLeft owner.old.oldest result }
        ensures look { looks_of owner.new
            ≡ looked_at (count_at self.now.places owner.old.oldest) result ∷ looks_of owner.old }
    {
        let oldest = owner.oldest;
        let found = self.look_oldest(&mut owner.seat, oldest);
        if found == GROUP * oldest + EXPIRED {
            self.advance(&mut owner.seat, oldest + 1);
            owner.oldest = oldest + 1;
        }
        found
    }
}
