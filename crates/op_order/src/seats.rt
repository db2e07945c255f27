//! The seats of an order: the owner's, that of each reader, and that of an operation that runs.
//! Each has the seat of the table, whose view is what it knows, and the numbers that it acts by.
ghost use Rattle.std.specs.Prelude.{◌≡◌, ◌+◌, ◌*◌, ◌≤◌, Some, None};
ghost use Rattle.op_order.specs.Parts.{part_of, read_of, OwnsAs, ReadsAs, RestsAt};

use crate::spots::Spots;
use crate::view::View;
use atomic_table::Seat;

/// The one seat that publishes, and takes places back.
#[derive(Drop)]
pub struct Owner {
    pub(crate) seat: Seat<u64, View>,
    /// The sequence of the root.
    pub(crate) sequence: u64,
    /// The oldest group.
    pub(crate) oldest: u64,
    /// How many places the order has.
    pub(crate) places: u64,
    pub ghost owns: { OwnsAs seat (part_of seat) },
    pub ghost rests: { RestsAt (part_of seat) sequence oldest places },
    pub ghost sized: { (2 ≤ places) × (places ≤ 1024) },
}

/// A reader that runs no operation.
#[derive(Drop)]
pub struct Reader {
    pub(crate) seat: Seat<u64, View>,
    /// The words that it used last.
    pub(crate) spots: Spots,
    pub ghost wide: { seat.table_id.words ≡ 11 + 2 * spots.places },
    pub ghost reads: { ReadsAs seat (read_of seat) },
    pub ghost idle: { (read_of seat).group ≡ None },
}

/// An operation of a reader. It is to be handed to `end`: one that is dropped stays in its group
/// for good, and with it each place that is the root then or is published later.
#[derive(Drop)]
pub struct Running {
    pub(crate) seat: Seat<u64, View>,
    /// The words that it used last, with the group in which it is counted.
    pub(crate) spots: Spots,
    /// The sequence of the root at which it looked last.
    pub(crate) sequence: Option<u64>,
    pub ghost wide: { seat.table_id.words ≡ 11 + 2 * spots.places },
    pub ghost reads: { ReadsAs seat (read_of seat) },
    pub ghost own: { ((read_of seat).group ≡ Some spots.group)
        × ((read_of seat).looked ≡ sequence) },
}

/// What a refused start found in the word of the group that it had found as the current one. In
/// such a word bits 0 to 15 are the operations in a group, and bits 16 to 62 its number. Bit 63 is
/// set once the group has expired.
#[derive(Clone, Copy, Debug, PartialEq, Eq)]
pub struct Seen {
    /// The word as it was looked at.
    pub looked: u64,
    /// The word as it was found then, or when the start wanted to register.
    pub found: u64,
}
