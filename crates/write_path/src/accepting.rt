//! A memtable is asked to take a write: by its bound it does, or it does once that is raised, or it
//! is final below the write's end and the next one is asked.
ghost use Rattle.std.specs.Prelude.{◌≡◌, ◌≢◌, ℕ, ◌^◌, ◌<◌, Some};
ghost use Rattle.path_core.specs.declared.state.Bound.{Bound as BoundKind};
ghost use Rattle.path_core.specs.declared.state.Bound.TheVariants.{Live};
ghost use Rattle.path_core.specs.LawfulSeats.{BoundStays};
ghost use Rattle.path_core.specs.Parts.{seat_table};
ghost use Rattle.path_rule.specs.Accepted.{RaisesBound, TriesBound};
ghost use Rattle.path_rule.specs.Layout.{numbers_end};
ghost use Rattle.path_table.specs.Members.{part_of, IsOf};
ghost use Rattle.write_path.specs.Ends.{answered, HasTried, IsSameWrite};

use crate::deposited::Deposited;
use crate::seats::WritePath;
use clog_base::{Key, Table};
use path_core::{Bound as BoundOf, Keeper};
use std::alloc::Allocator;

/// What a memtable answers to a write.
#[derive(Clone, Copy, Drop)]
pub enum Accept {
    /// It takes the write.
    Yes,
    /// It is final at this key, below the write's end: the write goes on to the next memtable.
    Later(Key),
}

// What a bound that is not raising answers to a write with this end.
fn answer_of(bound: BoundOf, end: Key) -> Accept
    ensures { result ≡ answered end.0 bound }
{
    match bound {
        BoundOf::Live | BoundOf::Raising(_) => Accept::Yes,
        BoundOf::Final(key) => {
            if end.0 <= key.0 {
                Accept::Yes
            } else {
                Accept::Later(key)
            }
        }
    }
}

impl<K: Keeper, A: Allocator> WritePath<K, A> {
    // Looks at the bound of the memtable that the write tries.
    fn look_at(&self, seat: &mut Deposited<K>, table: Table, memtable: u64) -> BoundOf
        requires table { IsOf self.now.table.table.shared.table_id self.now.table.size
            seat.old.member }
        requires there { table.0 < self.now.table.size.tables }
        requires tried { (memtable < numbers_end)
            × ((seat_table (part_of seat.old.member) table.0).trying ≡ Some memtable) }
        ensures same { IsSameWrite self.now.table.table.shared.table_id self.now.table.size
            seat.old seat.new }
        ensures tries { TriesBound seat.old.end.0 memtable result
            (seat_table (part_of seat.new.member) table.0) }
        ensures small { seat.old.end.0 < 2 ^ 62 }
        ensures stays { (b : BoundKind) → (seat_table (part_of seat.old.member) table.0).bound
            ≡ Some (record { memtable = memtable; bound = b }) → BoundStays b result }
        ensures others { (t : ℕ) → t ≢ table.0 → seat_table (part_of seat.new.member) t
            ≡ seat_table (part_of seat.old.member) t }
    {
        self.table.look_bound(&mut seat.member, table, memtable)
    }

    // Raises that bound to the write's end, where it was found raising.
    fn raise_at(&self, seat: &mut Deposited<K>, table: Table, memtable: u64) -> BoundOf
        requires table { IsOf self.now.table.table.shared.table_id self.now.table.size
            seat.old.member }
        requires there { (table.0 < self.now.table.size.tables) × (seat.old.end.0 < 2 ^ 62) }
        requires tried { (memtable < numbers_end)
            × ((seat_table (part_of seat.old.member) table.0).trying ≡ Some memtable) }
        requires found { (b : BoundKind) × ((seat_table (part_of seat.old.member) table.0).bound
            ≡ Some (record { memtable = memtable; bound = b })) × (b ≢ Live) }
        ensures same { IsSameWrite self.now.table.table.shared.table_id self.now.table.size
            seat.old seat.new }
        ensures raises { RaisesBound memtable result
            (seat_table (part_of seat.new.member) table.0) }
        ensures others { (t : ℕ) → t ≢ table.0 → seat_table (part_of seat.new.member) t
            ≡ seat_table (part_of seat.old.member) t }
    {
        self.table
            .raise_bound(&mut seat.member, table, memtable, seat.end)
    }

    // Asks a memtable that was found raising: it takes the write once it is raised, unless it was
    // made final before.
    fn accept_raising(&self, seat: &mut Deposited<K>, table: Table, memtable: u64) -> Accept
        requires table { IsOf self.now.table.table.shared.table_id self.now.table.size
            seat.old.member }
        requires there { (table.0 < self.now.table.size.tables) × (seat.old.end.0 < 2 ^ 62) }
        requires tried { (memtable < numbers_end)
            × ((seat_table (part_of seat.old.member) table.0).trying ≡ Some memtable) }
        requires found { (b : BoundKind) × ((seat_table (part_of seat.old.member) table.0).bound
            ≡ Some (record { memtable = memtable; bound = b })) × (b ≢ Live) }
        ensures same { IsSameWrite self.now.table.table.shared.table_id self.now.table.size
            seat.old seat.new }
        ensures answer { HasTried seat.old.end.0 memtable result
            (seat_table (part_of seat.new.member) table.0) }
        ensures others { (t : ℕ) → t ≢ table.0 → seat_table (part_of seat.new.member) t
            ≡ seat_table (part_of seat.old.member) t }
    {
        if let BoundOf::Final(_) = self.raise_at(seat, table, memtable) {
            let bound = self.look_at(seat, table, memtable);
            return answer_of(bound, seat.end);
        }
        Accept::Yes
    }

    /// Asks the memtable that the write tries to take it. One that is live, or final at or above
    /// the write's end, does; one that is raising does once it is raised to that end. One that is
    /// final below the end does not, and the write tries the next one.
    pub fn accept(&self, seat: &mut Deposited<K>, table: Table, memtable: u64) -> Accept
        requires table { IsOf self.now.table.table.shared.table_id self.now.table.size
            seat.old.member }
        requires there { table.0 < self.now.table.size.tables }
        requires tried { (memtable < numbers_end)
            × ((seat_table (part_of seat.old.member) table.0).trying ≡ Some memtable) }
        ensures same { IsSameWrite self.now.table.table.shared.table_id self.now.table.size
            seat.old seat.new }
        ensures answer { HasTried seat.old.end.0 memtable result
            (seat_table (part_of seat.new.member) table.0) }
        ensures others { (t : ℕ) → t ≢ table.0 → seat_table (part_of seat.new.member) t
            ≡ seat_table (part_of seat.old.member) t }
    {
        let bound = self.look_at(seat, table, memtable);
        if let BoundOf::Raising(_) = bound {
            return self.accept_raising(seat, table, memtable);
        }
        answer_of(bound, seat.end)
    }
}
