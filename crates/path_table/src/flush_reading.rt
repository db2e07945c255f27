//! What a memtable holds is read, behind its barrier, by the holder of its table's Flush turn: it
//! takes the boxes of all seats one by one, and gives each back. Before that it empties those of
//! the memtable below, which is retired, in the same way. The looks at which a box moves are at the
//! table's newest memtable, a word that hardly ever changes.
ghost use Rattle.std.specs.Prelude.{◌≡◌, ℕ, suc, ◌+◌, ◌<◌, true, false, List, [], Some};
ghost use Rattle.atomic_table.specs.Table.{rest};
ghost use Rattle.path_core.specs.declared.event.Cursor.TheVariants.{OldestLive};
ghost use Rattle.path_core.specs.declared.event.Event.TheVariants.{Look, Put};
ghost use Rattle.path_core.specs.declared.event.Place.TheVariants.{Newest};
ghost use Rattle.path_core.specs.declared.note.EntryNote.{EntryNote};
ghost use Rattle.path_rule.specs.declared.view.FlushRead.{FlushRead};
ghost use Rattle.path_rule.specs.Flushes.{next_box, HasEmptied, MayRead, SeesNone, TakesNone};
ghost use Rattle.path_rule.specs.Flushes.{TookRead};
ghost use Rattle.path_rule.specs.HandsAfter.{box_read, box_seen, first_read, left_in};
ghost use Rattle.path_rule.specs.HandsAfter.{with_reading};
ghost use Rattle.path_rule.specs.Layout.{numbers_end};
ghost use Rattle.path_rule.specs.Retires.{RetiresEmptyIn};
ghost use Rattle.path_rule.specs.Rule.{Was};
ghost use Rattle.path_rule.specs.Switches.{FlushOldest, MayBeginRead};
ghost use Rattle.path_rule.specs.Told.{CarriesNotes};
ghost use Rattle.path_table.specs.Members.{view_of, part_of, hands_of, boxes_of, IsOf, IsSame};
ghost use Rattle.path_table.specs.Members.{KeepsBoxes, PutsBack, SteppedAs};

use crate::table::{Member, PathTable};
use crate::words::{NEWEST, OLDEST_LIVE};
use clog_base::Table;
use path_core::{EntryNote, Keeper};
use path_rule::{BeginEmptying, BeginRead, EndRead, GiveRead, RetireEmpty, Slot, TakeRead};
use std::alloc::{Allocator, Global};
use std::collections::LinkedList;
use std::mem::replace;

impl<K: Keeper, A: Allocator> PathTable<K, A> {
    /// Begins to empty the boxes of the last retired memtable of a table: what was written to it is
    /// read by nobody any more. The next one is the least that is not retired, and its barrier is
    /// passed: the member issued it, or an earlier holder of the table's Flush turn did, and left
    /// the memtable. Returns the number of the newest memtable.
    pub fn begin_emptying(&self, member: &mut Member<K>, table: Table, memtable: u64) -> u64
        requires table { IsOf self.now.table.shared.table_id self.now.size member.old }
        requires there { table.0 < self.now.size.tables }
        requires stage { MayBeginRead table.0 (view_of member.old) (suc memtable) }
        requires oldest { FlushOldest table.0 (part_of member.old) (suc memtable) }
        requires unread { TakesNone (hands_of member.old) }
        ensures same { KeepsBoxes member.old member.new }
        ensures step { SteppedAs member.old (Look member.old.number (Newest table)) result
            (with_reading (Some (first_read table.0 memtable true)) (hands_of member.old))
            member.new }
    {
        self.table
            .shared
            .load::<BeginEmptying<K>>(&mut member.seat, NEWEST + 4 * table.0 as usize)
    }

    /// Begins to read the least memtable of a table that is not retired, whose barrier is passed:
    /// nothing more is placed in it. The boxes of the one below, where there is one, are emptied.
    /// Returns the number of the newest memtable.
    pub fn begin_read(&self, member: &mut Member<K>, table: Table, memtable: u64) -> u64
        requires table { IsOf self.now.table.shared.table_id self.now.size member.old }
        requires there { table.0 < self.now.size.tables }
        requires oldest { FlushOldest table.0 (part_of member.old) memtable }
        requires emptied { HasEmptied self.now.size.seats (view_of member.old) table.0 memtable }
        ensures same { KeepsBoxes member.old member.new }
        ensures step { SteppedAs member.old (Look member.old.number (Newest table)) result
            (with_reading (Some (first_read table.0 memtable false)) (hands_of member.old))
            member.new }
    {
        self.table
            .shared
            .load::<BeginRead<K>>(&mut member.seat, NEWEST + 4 * table.0 as usize)
    }

    /// Takes the box of the next seat, to look at what is in it: notes, each of which is whole.
    /// Returns the number of the newest memtable.
    pub fn take_read(&self, member: &mut Member<K>, table: Table) -> u64
        requires table { IsOf self.now.table.shared.table_id self.now.size member.old }
        requires there { table.0 < self.now.size.tables }
        requires reads { (q : FlushRead)
            × MayRead self.now.size.seats (hands_of member.old) table.0 q }
        ensures same { IsSame member.old member.new }
        ensures step { (q : FlushRead) → (hands_of member.old).reading ≡ Some q
            → (held : List EntryNote) × SteppedAs member.old
            (Look member.old.number (Newest table)) result
            (with_reading (Some (box_read (next_box self.now.size.seats q) held q))
            (hands_of member.old)) member.new
            × TookRead (next_box self.now.size.seats q) held member.old.seat.me
            member.new.seat.me }
    {
        self.table
            .shared
            .load::<TakeRead<K>>(&mut member.seat, NEWEST + 4 * table.0 as usize)
    }

    /// Lends the notes of the box that the member took last, to look at them. The box is empty
    /// then. It takes no memory.
    pub fn lend_read(
        &self,
        alloc: Global,
        member: Member<K>,
        number: usize,
    ) -> (Member<K>, LinkedList<EntryNote>)
        requires table { member.seat.table_id ≡ self.now.table.shared.table_id }
        requires held { (held : List EntryNote) × CarriesNotes number held member.seat.me }
        ensures same { IsSame member result.0 × (view_of result.0 ≡ view_of member) }
        ensures void { CarriesNotes number [] result.0.seat.me }
        ensures others { rest (boxes_of result.0) ≡ rest (boxes_of member) }
        ensures notes { (held : List EntryNote) → CarriesNotes number held member.seat.me
            → result.1 ≡ held }
    {
        let Member {
            mut seat,
            number: by,
            issued,
            last_end,
        } = member;
        let shared = &self.table.shared;
        let notes = match seat.slot_mut(shared, number) {
            Slot::Notes(held) => replace(held, LinkedList::new(alloc)),
            Slot::Turn(_) => unreachable!(),
        };
        (
            Member {
                seat,
                number: by,
                issued,
                last_end,
            },
            notes,
        )
    }

    /// Puts notes into that box, which is empty.
    pub fn return_read(
        &self,
        member: Member<K>,
        number: usize,
        notes: LinkedList<EntryNote>,
    ) -> Member<K>
        requires table { member.seat.table_id ≡ self.now.table.shared.table_id }
        requires void { CarriesNotes number [] member.seat.me }
        ensures same { IsSame member result × (view_of result ≡ view_of member) }
        ensures notes { CarriesNotes number notes result.seat.me }
        ensures others { rest (boxes_of result) ≡ rest (boxes_of member) }
    {
        let Member {
            mut seat,
            number: by,
            issued,
            last_end,
        } = member;
        let shared = &self.table.shared;
        match seat.slot_mut(shared, number) {
            Slot::Notes(held) => *held = notes,
            Slot::Turn(_) => unreachable!(),
        }
        Member {
            seat,
            number: by,
            issued,
            last_end,
        }
    }

    /// Gives that box back: what lay in it was seen. It lies there still, unless the memtable is
    /// retired: then the box is empty.
    pub fn give_read(&self, member: &mut Member<K>, table: Table) -> u64
        requires table { IsOf self.now.table.shared.table_id self.now.size member.old }
        requires there { table.0 < self.now.size.tables }
        requires reads { (q : FlushRead) × (b : ℕ) × ((hands_of member.old).reading ≡ Some q)
            × (q.taken ≡ Some b) × CarriesNotes b (left_in q) member.old.seat.me }
        ensures same { PutsBack member.old member.new }
        ensures step { (q : FlushRead) → (hands_of member.old).reading ≡ Some q
            → SteppedAs member.old (Look member.old.number (Newest table)) result
            (with_reading (Some (box_seen q)) (hands_of member.old)) member.new }
    {
        self.table
            .shared
            .load::<GiveRead<K>>(&mut member.seat, NEWEST + 4 * table.0 as usize)
    }

    /// Reads no memtable any more, so that the turn may be given back.
    pub fn end_read(&self, member: &mut Member<K>, table: Table) -> u64
        requires table { IsOf self.now.table.shared.table_id self.now.size member.old }
        requires there { table.0 < self.now.size.tables }
        requires unread { TakesNone (hands_of member.old) }
        ensures same { KeepsBoxes member.old member.new }
        ensures step { SteppedAs member.old (Look member.old.number (Newest table)) result
            (with_reading None (hands_of member.old)) member.new }
    {
        self.table
            .shared
            .load::<EndRead<K>>(&mut member.seat, NEWEST + 4 * table.0 as usize)
    }

    /// Retires the least memtable of a table that is not retired, once the boxes of all seats were
    /// seen and nothing was placed in it. It has no table file.
    pub fn retire_empty(&self, member: &mut Member<K>, table: Table, memtable: u64)
        requires table { IsOf self.now.table.shared.table_id self.now.size member.old }
        requires there { (table.0 < self.now.size.tables) × (memtable < numbers_end) }
        requires sees { SeesNone self.now.size.seats (hands_of member.old) table.0 memtable }
        ensures same { KeepsBoxes member.old member.new }
        ensures step { SteppedAs member.old
            (Put member.old.number (OldestLive table) (memtable + 1)) (memtable + 1)
            (with_reading None (hands_of member.old)) member.new }
        ensures was { (was : Was (view_of member.old) member.old.number
            (Put member.old.number (OldestLive table) (memtable + 1)))
            × RetiresEmptyIn was.core table.0 memtable }
    {
        self.table.shared.store::<RetireEmpty<K>>(
            &mut member.seat,
            OLDEST_LIVE + 4 * table.0 as usize,
            memtable + 1,
        );
    }
}
