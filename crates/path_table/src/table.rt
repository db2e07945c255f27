//! The table, and the seats that step on it.
ghost use Rattle.std.specs.Prelude.{◌≡◌, []};
ghost use Rattle.path_rule.specs.declared.view.Role.TheVariants as roles;
ghost use Rattle.path_rule.specs.Boxes.{all_boxes};
ghost use Rattle.path_rule.specs.Issued.{issued_in};
ghost use Rattle.path_rule.specs.Rule.{IsFit};
ghost use Rattle.path_table.specs.LastEnds.{last_end_in};

use atomic_table::{Seat, Table};
use path_core::Keeper;
use path_rule::{PathKey, PathRule, PathSize, Slot, View};
use std::alloc::Allocator;

/// The words and the boxes. Threads share it.
#[derive(Drop)]
pub struct PathTable<K: Keeper, A: Allocator> {
    pub(crate) table: Table<Slot<K>, View, PathKey<K>, PathRule<K>, A>,
    /// The sizes of the path.
    pub(crate) size: PathSize,
    pub ghost keyed: { table.shared.key.size ≡ size },
    pub ghost wide: { table.shared.table_id.words ≡ 704 },
    pub ghost deep: { table.shared.table_id.slots ≡ all_boxes size.seats },
    pub ghost fits: { IsFit size },
}

/// A seat of the table that makes the steps of one seat of the machine. It may have boxes. It goes
/// from thread to thread.
#[derive(Drop)]
pub struct Member<K> {
    pub(crate) seat: Seat<Slot<K>, View>,
    /// The number of its seat.
    pub(crate) number: u8,
    /// How many barriers it has issued, of both orders.
    pub(crate) issued: u64,
    /// The log key at which its last write ends, 0 before the first.
    pub(crate) last_end: u64,
    pub ghost role: { seat.me.0.role ≡ roles.Steps number },
    pub ghost counted: { issued ≡ issued_in seat.me.0.trail },
    pub ghost ended: { last_end ≡ last_end_in seat.me.0.trail },
}

/// The seat of the table that hands out the others.
#[derive(Drop)]
pub struct Opener<K> {
    pub(crate) seat: Seat<Slot<K>, View>,
    pub(crate) made: u8,
    pub ghost role: { seat.me.0.role ≡ roles.Opener made },
    pub ghost bare: { seat.me.1 ≡ [] },
}

impl<K: Keeper, A: Allocator> PathTable<K, A> {
    /// The sizes of the path.
    pub fn size(&self) -> PathSize
        ensures { result ≡ self.now.size }
    {
        self.size
    }
}

impl<K> Member<K> {
    /// The number of its seat.
    pub fn number(&self) -> u8
        ensures { result ≡ self.now.number }
    {
        self.number
    }
}
