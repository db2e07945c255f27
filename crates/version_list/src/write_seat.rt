//! A seat that writes: it reads too, and keeps what it was told of its own entries.
ghost use Rattle.std.specs.Prelude.{◌≡◌, ◌+◌, ◌<◌, IfOk, OnErr};
ghost use mathlib.Core.List.{IsPrefix};

use crate::history::{Front, Naming};
use crate::seat::ReadSeat;
use crate::side::Gathers;
use std::alloc::AllocError;
use std::sync::ledger::{Ledger, Share};

/// A seat that writes. Entries that it added stand in the list from then on, also those that are
/// not shown yet, which it has not seen.
#[derive(Drop)]
pub struct WriteSeat<T: Gathers<E> + Drop, E: Drop, J: Naming, L: Ledger> {
    /// What it reads by.
    pub view: ReadSeat<T, E, J>,
    /// The list up to the last entry that it added.
    pub added: Front<E, J>,
    /// How many entries it added.
    pub share: Share<L>,
}

impl<T: Gathers<E> + Drop, E: Drop, J: Naming, L: Ledger> WriteSeat<T, E, J, L> {
    /// A further seat, which has seen as much and counts anew. `Err` where there is no room for one
    /// more seat, or for want of memory.
    pub fn split(&mut self) -> Result<WriteSeat<T, E, J, L>, AllocError>
        requires { 1 < self.old.share.parts }
        ensures seat { IfOk result (λ s. (s.view ≡ self.old.view) × (s.share.parts ≡ 1)
            × (s.share.amount ≡ 0) × (self.new.share.parts + 1 ≡ self.old.share.parts)) }
        ensures same { (self.new.view ≡ self.old.view) × (self.new.added ≡ self.old.added)
            × (self.new.share.amount ≡ self.old.share.amount) }
        ensures refused { OnErr result (self.new.share.parts ≡ self.old.share.parts) }
    {
        let view = self.view.again()?;
        let added = self.added.again();
        let share = self.share.split_off(1, 0);
        Ok(WriteSeat { view, added, share })
    }

    /// Takes another seat in. It has seen what both had seen, and added what both had added.
    pub fn merge(&mut self, other: WriteSeat<T, E, J, L>)
        ensures view { IsPrefix self.old.view self.new.view × IsPrefix other.view self.new.view }
        ensures added { IsPrefix self.old.added self.new.added
            × IsPrefix other.added self.new.added }
        ensures share { (self.new.share.parts ≡ self.old.share.parts + other.share.parts)
            × (self.new.share.amount ≡ self.old.share.amount + other.share.amount) }
    {
        let WriteSeat { view, added, share } = other;
        self.view.see(&view.seen);
        self.added = self.added.longer(&added);
        self.share.merge(share);
    }
}
