//! What is published: an entry, with the beginning of the history that it ends.
use crate::history::{Front, Naming};
use std::marker::Model;

/// An entry that was added to the history. Contracts see it as the history up to it.
#[derive(Drop)]
pub struct Record<E: Drop, J: Naming> {
    pub(crate) entry: E,
    pub(crate) front: Front<E, J>,
}

impl<E: Drop, J: Naming> Model for Record<E, J> {
    ghost use Rattle.std.specs.Prelude.{◌≡◌, ◌-◌, ◌++◌, ◌∷◌, List, [], length, take};

    ghost Value = { List E };

    ghost view = { λ r. r.front };

    ghost invariant = { λ r. r.front ≡ take (length r.front - 1) r.front ++ r.entry ∷ [] };
}
