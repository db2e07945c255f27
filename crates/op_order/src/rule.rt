//! The rule of the table (`specs/Rule.antt`).
use crate::fact::Fact;
use crate::view::View;
use atomic_table::TableRule;
use std::marker::PhantomData;

/// What an order is opened for.
#[derive(Clone, Copy, Drop)]
pub struct OrderKey {
    /// How many places there are.
    pub places: u64,
    /// The value that stands at the first root.
    pub first: u64,
}

/// The rule, for some fact.
pub struct OrderRule<F> {
    fact: PhantomData<F>,
}

impl<F: Fact> TableRule<u64, View, OrderKey> for OrderRule<F> {
    ghost use Rattle.op_order.specs.Rule.{Ruled, first_view};

    ghost holds = { λ key. Ruled F.fits key.places };

    ghost first = { λ key. first_view key.first };
}
