//! The rule of the table: there is a run of the machine, from its opening, that leads to what the
//! words, the boxes and the views show (`specs/Rule.antt`).
use crate::slot::Slot;
use crate::view::{PathKey, View};
use atomic_table::TableRule;
use path_core::Keeper;
use std::marker::PhantomData;

/// The rule, for a keeper of some type.
pub struct PathRule<K> {
    keeper: PhantomData<K>,
}

impl<K: Keeper> TableRule<Slot<K>, View, PathKey<K>> for PathRule<K> {
    ghost use Rattle.path_rule.specs.Lasts.{beside_of, shows_of};
    ghost use Rattle.path_rule.specs.Rule.{Ruled, opener};

    ghost holds = { λ key.
        Ruled (shows_of K.holds) (beside_of (K.holds key.first.value)) key.size };

    ghost first = { λ key. opener 0 key.size };
}
