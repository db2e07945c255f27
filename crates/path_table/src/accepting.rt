//! The steps of a write that has deposited its entry. At each of its tables it looks at the oldest
//! live memtable and at its bound. One that is live, or final at or above the write's end, takes
//! it; one that is raising takes it once it is raised to that end; behind one that is final below
//! it the next is tried. Then it leaves the write order.
ghost use Rattle.std.specs.Prelude.{◌≡◌, ◌≢◌, ℕ, ◌^◌, ◌<◌, Some, None, IsTrue, is_some};
ghost use Rattle.op_core.specs.declared.count.Order.TheVariants.{Write};
ghost use Rattle.path_core.specs.declared.event.Carried.TheVariants.{Applied};
ghost use Rattle.path_core.specs.declared.event.Cursor.TheVariants.{OldestLive};
ghost use Rattle.path_core.specs.declared.event.Event.TheVariants.{Look, Close, Raise};
ghost use Rattle.path_core.specs.declared.event.Place.TheVariants.{Bound, CursorWord};
ghost use Rattle.path_core.specs.declared.state.Bound.{Bound as BoundKind};
ghost use Rattle.path_core.specs.declared.state.Bound.TheVariants.{Live};
ghost use Rattle.path_core.specs.Allowed.{IsItsPlaces, RaisesAsWriter};
ghost use Rattle.path_core.specs.LawfulSeats.{BoundStays};
ghost use Rattle.path_core.specs.Parts.{seat_table};
ghost use Rattle.path_core.specs.SeatParts.{deposited_end, has_note_of};
ghost use Rattle.path_rule.specs.Accepted.{places_of, IsPlaced, RaisesBound, TriesBound};
ghost use Rattle.path_rule.specs.Applying.{AreApplied};
ghost use Rattle.path_rule.specs.Layout.{bound_in, bound_word, numbers_end};
ghost use Rattle.path_rule.specs.Switches.{FlushOldest};
ghost use Rattle.path_rule.specs.Turns.{KnowsMemtable};
ghost use Rattle.path_table.specs.Members.{part_of, hands_of, IsOf, KeepsBoxes, Stepped};

use crate::table::{Member, PathTable};
use crate::words::{BOUNDS, FINAL, OLDEST_LIVE, RAISING, WRITE_COUNTS};
use clog_base::{Key, Table};
use path_core::{Bound as BoundOf, Keeper};
use path_rule::{FinishIn, LookAt, RaiseBound};
use std::alloc::Allocator;

// The bound that a word stands for.
fn bound_of(word: u64) -> BoundOf
    ensures { result ≡ bound_in word }
{
    if word == 0 {
        BoundOf::Live
    } else if word < FINAL {
        BoundOf::Raising(Key(word.saturating_sub(RAISING)))
    } else {
        BoundOf::Final(Key(word - FINAL))
    }
}

impl<K: Keeper, A: Allocator> PathTable<K, A> {
    /// The oldest live memtable of a table. A deposited write of the table that tries none yet
    /// tries this one.
    pub fn look_oldest_live(&self, member: &mut Member<K>, table: Table) -> u64
        requires table { IsOf self.now.table.shared.table_id self.now.size member.old }
        requires there { table.0 < self.now.size.tables }
        ensures same { KeepsBoxes member.old member.new }
        ensures step { Stepped member.old (Look member.old.number (CursorWord (OldestLive table)))
            result member.new }
        ensures below { result < numbers_end }
        ensures tries { IsTrue (has_note_of (part_of member.old) table.0)
            → (seat_table (part_of member.old) table.0).trying ≡ None
            → (seat_table (part_of member.new) table.0).trying ≡ Some result }
        ensures turn { IsTrue (is_some (seat_table (part_of member.old) table.0).flush)
            → FlushOldest table.0 (part_of member.new) result }
        ensures others { (t : ℕ) → t ≢ table.0
            → seat_table (part_of member.new) t ≡ seat_table (part_of member.old) t }
    {
        self.table
            .shared
            .load::<LookAt<K>>(&mut member.seat, OLDEST_LIVE + 4 * table.0 as usize)
    }

    /// The bound of a memtable of a table, the first or one that the member tries. It goes on from
    /// what the member found of it before.
    pub fn look_bound(&self, member: &mut Member<K>, table: Table, memtable: u64) -> BoundOf
        requires table { IsOf self.now.table.shared.table_id self.now.size member.old }
        requires there { table.0 < self.now.size.tables }
        requires known { (memtable < numbers_end)
            × KnowsMemtable (part_of member.old) table.0 memtable }
        ensures same { KeepsBoxes member.old member.new }
        ensures step { Stepped member.old (Look member.old.number (Bound table memtable))
            (bound_word result) member.new }
        ensures tries { (end : ℕ) → deposited_end (part_of member.old) ≡ Some end
            → (seat_table (part_of member.old) table.0).trying ≡ Some memtable
            → TriesBound end memtable result (seat_table (part_of member.new) table.0) }
        ensures small { (end : ℕ) → deposited_end (part_of member.old) ≡ Some end
            → end < 2 ^ 62 }
        ensures stays { (b : BoundKind) → (seat_table (part_of member.old) table.0).bound
            ≡ Some (record { memtable = memtable; bound = b }) → BoundStays b result }
        ensures others { (t : ℕ) → t ≢ table.0
            → seat_table (part_of member.new) t ≡ seat_table (part_of member.old) t }
    {
        let word = self.table.shared.load::<LookAt<K>>(
            &mut member.seat,
            BOUNDS + 16 * (memtable % 4) as usize + table.0 as usize,
        );
        bound_of(word)
    }

    /// Raises the bound of the memtable that a deposited write tries, to the end of its claim,
    /// where it was found not to be live. Returns the bound that it found: a raising one took the
    /// write, a final one stayed as it was, and the write has to look at it again.
    pub fn raise_bound(
        &self,
        member: &mut Member<K>,
        table: Table,
        memtable: u64,
        end: Key,
    ) -> BoundOf
        requires table { IsOf self.now.table.shared.table_id self.now.size member.old }
        requires there { (table.0 < self.now.size.tables) × (memtable < numbers_end)
            × (end.0 < 2 ^ 62) }
        requires writer { RaisesAsWriter (part_of member.old) table.0 memtable end.0 }
        requires found { (b : BoundKind) × ((seat_table (part_of member.old) table.0).bound
            ≡ Some (record { memtable = memtable; bound = b })) × (b ≢ Live) }
        ensures same { KeepsBoxes member.old member.new }
        ensures step { Stepped member.old (Raise member.old.number table memtable end)
            (bound_word result) member.new }
        ensures raises { RaisesBound memtable result
            (seat_table (part_of member.new) table.0) }
        ensures others { (t : ℕ) → t ≢ table.0
            → seat_table (part_of member.new) t ≡ seat_table (part_of member.old) t }
    {
        let word = self.table.shared.fetch_max::<RaiseBound<K>>(
            &mut member.seat,
            BOUNDS + 16 * (memtable % 4) as usize + table.0 as usize,
            end.0 + RAISING,
        );
        bound_of(word)
    }

    /// Leaves the write order once the write has its place at each of its tables, and lies in its
    /// box there (`OpOrder.Group.close`). Returns the count that it found.
    pub fn leave_placed(&self, member: &mut Member<K>, group: u64) -> u64
        requires table { IsOf self.now.table.shared.table_id self.now.size member.old }
        requires group { (group < numbers_end) × ((part_of member.old).write ≡ Some group) }
        requires deposited { (part_of member.old).append ≡ None }
        requires placed { IsPlaced (part_of member.old) }
        requires applied { AreApplied (part_of member.old) (hands_of member.old) }
        requires rests { (hands_of member.old).memtable_box ≡ None }
        ensures same { KeepsBoxes member.old member.new }
        ensures step { Stepped member.old (Close member.old.number Write group
            (Applied (places_of (part_of member.old)))) result member.new }
        ensures places { IsItsPlaces (part_of member.old) (places_of (part_of member.old)) }
    {
        self.table.shared.fetch_sub::<FinishIn<K>>(
            &mut member.seat,
            WRITE_COUNTS + 16 * (group % 32) as usize,
            1,
        )
    }
}
