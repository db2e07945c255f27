//! Seats are taken in by one of them, and that one closes the table.
ghost use Rattle.std.specs.Prelude.{◌≡◌, ℕ, ◌+◌, ◌*◌, ◌<◌, ◌≤◌, None, [], ◌∷◌, ◌++◌};
ghost use Rattle.std.specs.Prelude.{slice_index};
ghost use Rattle.std.specs.Slots.{slots_items, slots_len, IsFull};
ghost use mathlib.Core.Option.{some};
ghost use lib.ListN.{get_elem?};
ghost use Rattle.path_core.specs.Parts.{HoldsNoTurn};
ghost use Rattle.path_rule.specs.FirstBoxes.{HasInFront};
ghost use Rattle.path_rule.specs.Layout.{numbers_end};
ghost use Rattle.path_rule.specs.Lasts.{beside_of};
ghost use Rattle.path_rule.specs.Sharing.{Ended, HasAll};
ghost use Rattle.path_table.specs.ClosedBounds.{TellsBounds, last_key};
ghost use Rattle.path_table.specs.Members.{view_of, part_of, boxes_of, returned_of};

use crate::bounds::{TableBounds, last_bounds};
use crate::table::{Member, PathTable};
use crate::words::LOG;
use atomic_table::Closed;
use clog_base::drop_in_background;
use path_core::{EntryNote, Keeper};
use path_rule::{Desk, Merge, Slot};
use std::alloc::{Allocator, Global};
use std::collections::LinkedList;
use std::thread::Threads;

impl<K: Keeper, A: Allocator> PathTable<K, A> {
    /// A seat takes in another, which runs no write, holds no turn and has no box: it knows all
    /// that the other one did.
    pub fn merge(&self, first: &mut Member<K>, other: Member<K>)
        requires first { first.old.seat.table_id ≡ self.now.table.shared.table_id }
        requires other { (other.seat.table_id ≡ self.now.table.shared.table_id)
            × (boxes_of other ≡ []) }
        requires idle { ((part_of other).append ≡ None) × ((part_of other).sync ≡ None) }
        requires ended { (part_of other).write ≡ None }
        requires free { HoldsNoTurn (part_of other) }
        ensures same { (first.new.seat.table_id ≡ first.old.seat.table_id)
            × (first.new.number ≡ first.old.number)
            × ((view_of first.new).trail ≡ (view_of first.old).trail)
            × (part_of first.new ≡ part_of first.old)
            × (boxes_of first.new ≡ boxes_of first.old)
            × ((view_of first.new).size ≡ (view_of first.old).size) }
        ensures returned { (view_of first.new).returned
            ≡ (view_of first.old).returned ++ returned_of other ∷ [] }
    {
        let Member {
            seat,
            number: _,
            issued: _,
            last_end: _,
        } = other;
        self.table.shared.join_seat::<Merge>(&mut first.seat, seat);
    }
}

// The notes of a box go behind others, which takes no memory; a desk goes at once.
fn put_aside<K: Drop>(notes: &mut LinkedList<EntryNote>, slot: Slot<K>) {
    match slot {
        Slot::Notes(mut more) => drop(notes.append(&mut more)),
        Slot::Turn(desk) => drop(desk),
    }
}

// The keeper on the desk of a closed table, the log key, and the tables' bounds. What memtables
// hold goes behind other notes.
pub(crate) fn keeper_and_log<K: Keeper + Drop>(
    closed: Closed<Slot<K>, Global>,
    notes: &mut LinkedList<EntryNote>,
) -> (K, u64, TableBounds)
    requires full { IsFull closed.words × IsFull closed.slots }
    requires words { 704 ≤ slots_len closed.words }
    requires few { (t : ℕ) → t < 16
        → slice_index (slots_items closed.words) (64 + 4 * t) ≤ numbers_end }
    requires boxes { 0 < slots_len closed.slots }
    requires desk { (keeper : K) × HasInFront keeper (slots_items closed.slots) }
    ensures keeper { (keeper : K) → HasInFront keeper (slots_items closed.slots)
        → result.0 ≡ keeper }
    ensures log { get_elem? (slots_items closed.words) 32 ≡ some result.1 }
    ensures bounds { (t : ℕ) → t < 16
        → slice_index result.2.keys t ≡ last_key (slots_items closed.words) t }
{
    let mut closed = closed;
    let log = closed.word(LOG);
    let bounds = last_bounds(&closed);
    let first = closed.take(0);
    for i in 1..closed.slot_count() {
        put_aside(notes, closed.take(i));
    }
    closed.free();
    match first {
        Slot::Turn(desk) => {
            let Desk {
                keeper,
                lent: _,
                gathered: _,
                progress: _,
                uppers: _,
            } = desk;
            (keeper, log, bounds)
        }
        Slot::Notes(_) => unreachable!(),
    }
}

impl<K: Keeper + Drop> PathTable<K, Global> {
    /// Closes the table by a seat that took in all others and holds no turn. It answers the keeper,
    /// the log key, and of each table its last final bound, that of the memtable below the newest
    /// one; and what the path was: one run of the machine, in which each seat's steps are its own,
    /// and which ends in a lawful state with that log key and these bounds, of which the keeper
    /// holds exactly what is lasting. Beside its log it has what the keeper had for which the table
    /// was opened. What its memtables hold goes, in
    /// a thread for which nobody waits where it is much and one can be started. It needs no memory.
    pub fn finish<R: Threads>(
        self,
        rt: &R,
        alloc: Global,
        member: Member<K>,
    ) -> (K, u64, TableBounds)
        requires table { (member.seat.table_id ≡ self.table.shared.table_id)
            × (boxes_of member ≡ []) }
        requires all { HasAll self.size.seats member.number (view_of member).returned }
        requires idle { (part_of member).append ≡ None }
        requires free { HoldsNoTurn (part_of member) }
        ensures { (ended : Ended (beside_of (K.holds self.table.shared.key.first.value)) self.size
            (returned_of member ∷ (view_of member).returned) result.1 (K.holds result.0))
            × TellsBounds ended.core result.2 }
    {
        let PathTable { table, size: _ } = self;
        let Member {
            seat,
            number: _,
            issued: _,
            last_end: _,
        } = member;
        let mut notes = LinkedList::new(alloc);
        let ended = keeper_and_log(table.close_with(seat), &mut notes);
        drop_in_background(rt, notes.len(), notes);
        ended
    }
}
