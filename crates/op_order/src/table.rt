//! The table that the owner and the readers share, and what each word of it is.
//!
//! Word 0 is the root (its sequence above its place), word 1 the current group, word 2 the oldest
//! one. Behind them stand the values of the places, then seven words that are not used, and then
//! the counts of the groups: an operation changes a count twice and looks at words before, so no
//! cache line is to have both.
ghost use Rattle.std.specs.Prelude.{◌≡◌, ◌+◌, ◌*◌, ◌≤◌};

use crate::fact::Fact;
use crate::rule::{OrderKey, OrderRule};
use crate::view::View;
use atomic_table::Table;
use std::alloc::Global;

/// An order of groups (`OpOrder`), and the places that its owner publishes. Threads share it.
#[derive(Drop)]
pub struct OpOrder<F: Fact> {
    pub(crate) table: Table<u64, View, OrderKey, OrderRule<F>, Global>,
    /// How many places there are.
    pub(crate) places: u64,
    pub ghost keyed: { table.shared.key.places ≡ places },
    pub ghost wide: { table.shared.table_id.words ≡ 11 + 2 * places },
    pub ghost sized: { (2 ≤ places) × (places ≤ 1024) },
}
