//! A write that has its place at a table puts its entry into its box there. The box is the seat's
//! own: it is taken and given back at looks at the table's newest memtable, a word that hardly ever
//! changes.
ghost use Rattle.std.specs.Prelude.{◌≡◌, ◌+◌, ◌<◌, ◌^◌, List, [], ◌∷◌, ◌++◌, Some, None, length};
ghost use Rattle.atomic_table.specs.Table.{rest};
ghost use Rattle.path_core.specs.declared.event.Event.TheVariants.{Look};
ghost use Rattle.path_core.specs.declared.event.Place.TheVariants.{Newest};
ghost use Rattle.path_core.specs.declared.note.EntryNote.{EntryNote};
ghost use Rattle.path_core.specs.Parts.{HoldsNoTurn, seat_table};
ghost use Rattle.path_rule.specs.declared.slot.Slot.TheVariants.{Notes};
ghost use Rattle.path_rule.specs.Applying.{put_there, MayApply, PutsNote, TookHeld};
ghost use Rattle.path_rule.specs.Boxes.{memtable_box};
ghost use Rattle.path_rule.specs.HandsAfter.{with_applied, with_held};
ghost use Rattle.path_rule.specs.Told.{CarriesNotes};
ghost use Rattle.path_table.specs.Members.{view_of, part_of, hands_of, boxes_of, HoldsNote, IsOf};
ghost use Rattle.path_table.specs.Members.{IsSame, KeepsBoxes, PutsBack, SteppedAs};

use crate::table::{Member, PathTable};
use crate::words::NEWEST;
use clog_base::Table;
use path_core::{EntryNote, Keeper};
use path_rule::{GiveMemtable, Slot, TakeMemtable};
use std::alloc::Allocator;
use std::collections::LinkedList;

impl<K: Keeper, A: Allocator> PathTable<K, A> {
    // Takes the member's box of the place that its write has at a table.
    fn take_memtable(&self, member: &mut Member<K>, table: Table, memtable: u64) -> u64
        requires table { IsOf self.now.table.shared.table_id self.now.size member.old }
        requires there { table.0 < self.now.size.tables }
        requires rests { (hands_of member.old).memtable_box ≡ None }
        requires place { (seat_table (part_of member.old) table.0).place ≡ Some memtable }
        ensures same { IsSame member.old member.new }
        ensures step { (held : List EntryNote) × SteppedAs member.old
            (Look member.old.number (Newest table)) result
            (with_held (memtable_box self.now.size.seats member.old.number table.0 memtable) held
            (hands_of member.old)) member.new }
        ensures took { TookHeld
            (memtable_box self.now.size.seats member.old.number table.0 memtable)
            member.old.seat.me member.new.seat.me }
    {
        self.table
            .shared
            .load::<TakeMemtable<K>>(&mut member.seat, NEWEST + 4 * table.0 as usize)
    }

    // Puts a note into the box that the member took last, behind those that it holds.
    fn put_held(
        &self,
        member: Member<K>,
        number: usize,
        copy: &mut LinkedList<EntryNote>,
    ) -> Member<K>
        requires table { member.seat.table_id ≡ self.now.table.shared.table_id }
        requires kept { CarriesNotes number (hands_of member).held member.seat.me }
        requires few { length (hands_of member).held + length copy.old < 2 ^ 63 }
        ensures same { IsSame member result × (view_of result ≡ view_of member) }
        ensures kept { boxes_of result
            ≡ (number, Notes ((hands_of member).held ++ copy.old)) ∷ rest (boxes_of member) }
    {
        let Member {
            mut seat,
            number: by,
            issued,
            last_end,
        } = member;
        let shared = &self.table.shared;
        let done = match seat.slot_mut(shared, number) {
            Slot::Notes(held) => held.append(copy),
            Slot::Turn(_) => unreachable!(),
        };
        if done.is_err() {
            unreachable!()
        }
        Member {
            seat,
            number: by,
            issued,
            last_end,
        }
    }

    // Gives the box back with the note of the member's write in it, behind what was there.
    fn give_memtable(&self, member: &mut Member<K>, table: Table, memtable: u64) -> u64
        requires table { IsOf self.now.table.shared.table_id self.now.size member.old }
        requires there { table.0 < self.now.size.tables }
        requires place { (seat_table (part_of member.old) table.0).place ≡ Some memtable }
        requires note { (note : EntryNote)
            × MayApply (view_of member.old) member.old.number table.0 note
            × ((hands_of member.old).memtable_box
            ≡ Some (memtable_box self.now.size.seats member.old.number table.0 memtable))
            × HoldsNote self.now.size.seats member.old table memtable note }
        ensures same { PutsBack member.old member.new }
        ensures step { (note : EntryNote)
            → HoldsNote self.now.size.seats member.old table memtable note
            → SteppedAs member.old (Look member.old.number (Newest table)) result
            (with_applied (put_there table memtable note) (hands_of member.old)) member.new }
    {
        self.table
            .shared
            .load::<GiveMemtable<K>>(&mut member.seat, NEWEST + 4 * table.0 as usize)
    }

    /// Puts a copy of the note that the member's write has deposited into its box of the place that
    /// the write has at a table (`Memtable.put`). It takes no memory.
    pub fn apply_note(
        &self,
        member: Member<K>,
        table: Table,
        memtable: u64,
        copy: &mut LinkedList<EntryNote>,
    ) -> Member<K>
        requires table { IsOf self.now.table.shared.table_id self.now.size member }
        requires there { table.0 < self.now.size.tables }
        requires free { HoldsNoTurn (part_of member) }
        requires rests { (hands_of member).memtable_box ≡ None }
        requires place { (seat_table (part_of member) table.0).place ≡ Some memtable }
        requires copy { (note : EntryNote) × (copy.old ≡ note ∷ [])
            × MayApply (view_of member) member.number table.0 note }
        ensures same { KeepsBoxes member result }
        ensures puts { (note : EntryNote) → copy.old ≡ note ∷ []
            → PutsNote (view_of member) member.number table memtable note (view_of result) }
    {
        let own = 1
            + 2 * self.size.seats
            + 64 * u64::from(member.number)
            + 4 * u64::from(table.0)
            + memtable % 4;
        let mut member = member;
        self.take_memtable(&mut member, table, memtable);
        let mut member = self.put_held(member, own as usize, copy);
        self.give_memtable(&mut member, table, memtable);
        member
    }
}
