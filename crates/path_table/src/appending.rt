//! The steps of a writer on the append order, with the box that it has while it is in a group.
ghost use Rattle.op_core.specs.CountWords.{number_in};
ghost use Rattle.std.specs.Prelude.{◌≡◌, ℕ, ◌≢◌, ◌+◌, ◌<◌, ◌^◌, List, ◌∷◌, ◌++◌, Some, None};
ghost use Rattle.std.specs.Prelude.{IsSome, length};
ghost use Rattle.std.specs.List.{Contains};
ghost use Rattle.atomic_table.specs.Table.{rest};
ghost use Rattle.op_core.specs.declared.count.Order.TheVariants.{Append};
ghost use Rattle.path_core.specs.declared.event.Carried.TheVariants.{Nothing, Deposit};
ghost use Rattle.path_core.specs.declared.event.Event.TheVariants.{Look, Register, Close};
ghost use Rattle.path_core.specs.declared.event.Place.TheVariants.{Count, Current};
ghost use Rattle.path_core.specs.declared.note.EntryNote.{EntryNote};
ghost use Rattle.path_core.specs.declared.state.Placed.{Placed};
ghost use Rattle.path_core.specs.Parts.{HoldsNoTurn, found_of, seat_table};
ghost use Rattle.path_core.specs.Whole.{IsWhole};
ghost use Rattle.path_rule.specs.declared.slot.Slot.TheVariants.{Notes};
ghost use Rattle.path_rule.specs.Boxes.{box_of};
ghost use Rattle.path_rule.specs.HandsAfter.{with_notes};
ghost use Rattle.path_rule.specs.Layout.{numbers_end};
ghost use Rattle.path_rule.specs.Told.{Took, CarriesNotes};
ghost use Rattle.path_rule.specs.Turns.{Sighted};
ghost use Rattle.path_table.specs.Members.{view_of, part_of, hands_of, boxes_of, IsOf, IsSame};
ghost use Rattle.path_table.specs.Members.{KeepsBoxes, PutsBack, Stepped, SteppedAs, HasDeposit};

use crate::table::{Member, PathTable};
use crate::words::{APPEND_COUNTS, CURRENT_APPEND};
use path_core::{EntryNote, Keeper};
use path_rule::{DepositIn, JoinIn, LookAt, Slot, WithdrawFrom};
use std::alloc::Allocator;
use std::collections::LinkedList;

impl<K: Keeper, A: Allocator> PathTable<K, A> {
    /// The current group of the append order.
    pub fn look_append(&self, member: &mut Member<K>) -> u64
        requires { IsOf self.now.table.shared.table_id self.now.size member.old }
        ensures same { KeepsBoxes member.old member.new }
        ensures step { Stepped member.old (Look member.old.number (Current Append)) result
            member.new }
        ensures below { result < numbers_end }
    {
        self.table
            .shared
            .load::<LookAt<K>>(&mut member.seat, CURRENT_APPEND)
    }

    /// The word of a group of the append order, which tells the number and the count of the last
    /// group that took it. The member knows that the group was made.
    pub fn look_appenders(&self, member: &mut Member<K>, group: u64) -> u64
        requires table { IsOf self.now.table.shared.table_id self.now.size member.old }
        requires group { (group < numbers_end) × Sighted (view_of member.old) (Count Append group) }
        ensures same { KeepsBoxes member.old member.new }
        ensures step { Stepped member.old (Look member.old.number (Count Append (number_in result)))
            result
            member.new }
    {
        self.table.shared.load::<LookAt<K>>(
            &mut member.seat,
            APPEND_COUNTS + 16 * (group % 32) as usize,
        )
    }

    /// Joins the group that the member last found current, if its word is still the one that was
    /// looked at, and takes the member's box for groups of that parity. Returns the word that it
    /// found: where that is another, this was a look.
    pub fn join(&self, member: &mut Member<K>, group: u64, looked: u64) -> u64
        requires table { IsOf self.now.table.shared.table_id self.now.size member.old }
        requires group { (group < numbers_end)
            × ((found_of Append (part_of member.old)).current ≡ Some group)
            × (number_in looked ≡ group) × (looked < 2 ^ 63) }
        requires ready { IsSome (part_of member.old).write × ((part_of member.old).append ≡ None)
            × ((part_of member.old).claim ≡ None) × HoldsNoTurn (part_of member.old) }
        ensures same { IsSame member.old member.new }
        ensures hit { result ≡ looked
            → ((notes : List EntryNote) × SteppedAs member.old
            (Register member.old.number Append group) (looked + 1)
            (with_notes notes (hands_of member.old)) member.new)
            × Took (box_of member.old.number group) member.old.seat.me member.new.seat.me }
        ensures miss { result ≢ looked
            → Stepped member.old (Look member.old.number (Count Append (number_in result))) result
            member.new
            × (boxes_of member.new ≡ boxes_of member.old) }
    {
        self.table.shared.compare_exchange::<JoinIn<K>>(
            &mut member.seat,
            APPEND_COUNTS + 16 * (group % 32) as usize,
            looked,
            looked + 1,
        )
    }

    /// Leaves the append order, before a claim. The box goes home as it was taken.
    pub fn withdraw(&self, member: &mut Member<K>, group: u64) -> u64
        requires table { IsOf self.now.table.shared.table_id self.now.size member.old }
        requires group { (group < numbers_end) × ((part_of member.old).append ≡ Some group)
            × ((part_of member.old).claim ≡ None) }
        requires box_kept { CarriesNotes (box_of member.old.number group)
            (hands_of member.old).notes member.old.seat.me }
        ensures same { PutsBack member.old member.new }
        ensures step { Stepped member.old (Close member.old.number Append group Nothing) result
            member.new }
    {
        self.table.shared.fetch_sub::<WithdrawFrom<K>>(
            &mut member.seat,
            APPEND_COUNTS + 16 * (group % 32) as usize,
            1,
        )
    }

    /// Puts notes into the member's box, behind those that it holds. It takes no memory.
    pub fn put_notes(
        &self,
        member: Member<K>,
        number: usize,
        more: &mut LinkedList<EntryNote>,
    ) -> Member<K>
        requires table { member.seat.table_id ≡ self.now.table.shared.table_id }
        requires kept { CarriesNotes number (hands_of member).notes member.seat.me }
        requires few { length (hands_of member).notes + length more.old < 2 ^ 63 }
        ensures same { IsSame member result × (view_of result ≡ view_of member) }
        ensures kept { boxes_of result
            ≡ (number, Notes ((hands_of member).notes ++ more.old)) ∷ rest (boxes_of member) }
    {
        let Member {
            mut seat,
            number: by,
            issued,
            last_end,
        } = member;
        let shared = &self.table.shared;
        let done = match seat.slot_mut(shared, number) {
            Slot::Notes(kept) => kept.append(more),
            Slot::Turn(_) => unreachable!(),
        };
        if done.is_err() {
            unreachable!()
        }
        Member {
            seat,
            number: by,
            issued,
            last_end,
        }
    }

    /// Leaves the append order with the note of the claimed entry, which lies in the box behind
    /// what was there (`Allocation.markWritten`). The box goes home. The entry ends at `end`.
    pub fn deposit(&self, member: &mut Member<K>, group: u64, end: u64) -> u64
        requires table { IsOf self.now.table.shared.table_id self.now.size member.old }
        requires group { (group < numbers_end) × ((part_of member.old).append ≡ Some group) }
        requires note { (note : EntryNote)
            × ((part_of member.old).claim
            ≡ Some (record { start = note.start.0; end = note.end.0 }))
            × (note.writer.0 ≡ member.old.number)
            × (note.tables < 2 ^ (view_of member.old).size.tables) × IsWhole note
            × HasDeposit member.old group note × (note.end.0 ≡ end) }
        ensures same { PutsBack member.old member.new }
        ensures step { (note : EntryNote) → HasDeposit member.old group note
            → Stepped member.old (Close member.old.number Append group (Deposit note)) result
            member.new }
        ensures untried { (t : ℕ) → (seat_table (part_of member.new) t).trying ≡ None }
        ensures rests { (hands_of member.new).memtable_box ≡ None }
        ensures unapplied { (note : EntryNote) → HasDeposit member.old group note
            → (a : Placed) → Contains (hands_of member.new).applied a
            → a.entry ≢ note.end.0 }
    {
        member.last_end = end.max(member.last_end);
        self.table.shared.fetch_sub::<DepositIn<K>>(
            &mut member.seat,
            APPEND_COUNTS + 16 * (group % 32) as usize,
            1,
        )
    }
}
