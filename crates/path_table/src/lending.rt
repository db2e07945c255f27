//! What the holder of the Sync turn does with the boxes that it has in hand: it puts the notes of a
//! gathered box on the desk, and lends the keeper on the desk what is pending. Neither is a step.
ghost use Rattle.std.specs.Prelude.{◌≡◌, ◌+◌, ◌<◌, ◌^◌, List, [], ◌∷◌, ◌++◌, length, OnOk, OnErr};
ghost use Rattle.std.specs.List.Sorted.{IsNonDecreasingBy, IsPermutation};
ghost use Rattle.atomic_table.specs.Table.{rest, turned};
ghost use Rattle.path_core.specs.declared.note.EntryNote.{EntryNote};
ghost use Rattle.path_core.specs.Keeper.{IsParted, MayWrite, Syncs, SyncRefused};
ghost use Rattle.path_rule.specs.declared.slot.Slot.TheVariants.{Notes};
ghost use Rattle.path_rule.specs.Desks.{pending_on, HasDesk, HasDeskBehind};
ghost use Rattle.path_rule.specs.Lasts.{shows_of, stopped_with};
ghost use Rattle.path_rule.specs.SyncEnd.{stopped_by, TellsFaults};
ghost use Rattle.path_rule.specs.Told.{CarriesNotes};
ghost use Rattle.path_rule.specs.TurnTold.{CarriesDesk, CarriesAs, CarriesSynced, CarriesRefused};
ghost use Rattle.path_rule.specs.TurnTold.{MayLend};
ghost use Rattle.path_table.specs.Members.{view_of, hands_of, boxes_of, IsSame};

use crate::table::{Member, PathTable};
use clog_base::Key;
use path_core::{EntryNote, Keeper, KeeperFault};
use path_rule::{Desk, Slot};
use std::alloc::{AllocError, Allocator, Global};
use std::collections::LinkedList;

// Moves all notes of a list behind others. Where memory is refused none has moved.
fn move_all(
    lent: &mut Vec<EntryNote>,
    gathered: &mut LinkedList<EntryNote>,
) -> Result<(), AllocError>
    ensures all { lent.new.items ++ gathered.new ≡ lent.old.items ++ gathered.old }
    ensures moved { OnOk result (gathered.new ≡ []) }
{
    let count = gathered.len();
    lent.reserve(count)?;
    for _ in 0..count {
        if let Some(note) = gathered.pop_front() {
            let pushed = lent.push(note);
            if pushed.is_err() {
                unreachable!()
            }
        }
    }
    Ok(())
}

// Brings notes into the order of the log. Those of one seat are in it already, so a sort that
// merges runs compares least; where it is refused memory for its buffer, one that takes none does
// it.
fn order_by_end(notes: &mut Vec<EntryNote>)
    ensures same { IsPermutation notes.old.items notes.new.items }
    ensures sorted { IsNonDecreasingBy (λ (n : EntryNote). n.end.0) notes.new.items }
{
    match notes.sort_by_key(|note| note.end.0) {
        Ok(()) => {}
        Err(_) => notes.sort_unstable_by_key(|note| note.end.0),
    }
}

// Lends the keeper of a desk all that is pending on it, in the order of the log.
fn lend_pending<K: Keeper>(desk: &mut Desk<K>, upto: u64) -> Result<(), KeeperFault>
    requires { (run left : List EntryNote) → IsParted upto (pending_on desk.old) run left
        → MayWrite (K.holds desk.old.keeper) upto run }
    ensures progress { desk.new.progress ≡ desk.old.progress }
    ensures uppers { desk.new.uppers ≡ desk.old.uppers }
    ensures syncs { OnOk result (Syncs (K.holds desk.old.keeper) (K.holds desk.new.keeper) upto
        (pending_on desk.old) (pending_on desk.new)) }
    ensures refused { OnErr result (SyncRefused (K.holds desk.old.keeper)
        (K.holds desk.new.keeper) upto (pending_on desk.old) (pending_on desk.new)) }
    ensures counts { TellsFaults (K.holds desk.old.keeper).at_open result }
    ensures stopped { stopped_with (K.holds desk.new.keeper).stopped
        (K.holds desk.new.keeper).faults
        ≡ stopped_by (stopped_with (K.holds desk.old.keeper).stopped
        (K.holds desk.old.keeper).faults) result }
{
    move_all(&mut desk.lent, &mut desk.gathered)?;
    order_by_end(&mut desk.lent);
    desk.keeper.sync(&mut desk.lent, Key(upto))
}

impl<K: Keeper, A: Allocator> PathTable<K, A> {
    /// Lends the keeper on the desk what is pending, in the order of the log, so that it makes
    /// lasting what ends at or below a key. After a refusal all is pending, in whatever order; a
    /// keeper that has stopped tells its counts of faults, the second one the count that it shows.
    pub fn lend(&self, member: Member<K>, upto: u64) -> (Member<K>, Result<(), KeeperFault>)
        requires table { member.seat.table_id ≡ self.now.table.shared.table_id }
        requires desk { CarriesDesk (shows_of K.holds) member.seat.me }
        requires lent { (run left : List EntryNote)
            → IsParted upto (hands_of member).pending run left
            → MayLend (hands_of member).lasting upto run }
        ensures same { IsSame member result.0 × (view_of result.0 ≡ view_of member) }
        ensures synced { OnOk result.1
            (CarriesSynced (shows_of K.holds) upto result.0.seat.me
            × (rest (boxes_of result.0) ≡ rest (boxes_of member))) }
        ensures refused { OnErr result.1
            (CarriesRefused (shows_of K.holds) upto
            (stopped_by (hands_of member).lasting.stopped result.1) result.0.seat.me
            × (rest (boxes_of result.0) ≡ rest (boxes_of member))) }
        ensures counts { TellsFaults (hands_of member).lasting.at_open result.1 }
    {
        let Member {
            mut seat,
            number,
            issued,
            last_end,
        } = member;
        let shared = &self.table.shared;
        let done = match seat.slot_mut(shared, 0) {
            Slot::Turn(desk) => lend_pending(desk, upto),
            Slot::Notes(_) => unreachable!(),
        };
        (
            Member {
                seat,
                number,
                issued,
                last_end,
            },
            done,
        )
    }

    // Takes the notes out of the box that the member took last.
    fn take_out(
        &self,
        member: Member<K>,
        number: usize,
        taken: &mut LinkedList<EntryNote>,
    ) -> Member<K>
        requires table { member.seat.table_id ≡ self.now.table.shared.table_id }
        requires kept { CarriesNotes number (hands_of member).taken member.seat.me }
        requires void { taken.old ≡ [] }
        requires few { length (hands_of member).taken < 2 ^ 63 }
        ensures same { IsSame member result × (view_of result ≡ view_of member) }
        ensures boxes { boxes_of result ≡ (number, Notes []) ∷ rest (boxes_of member) }
        ensures taken { taken.new ≡ (hands_of member).taken }
    {
        let Member {
            mut seat,
            number: by,
            issued,
            last_end,
        } = member;
        let shared = &self.table.shared;
        let done = match seat.slot_mut(shared, number) {
            Slot::Notes(kept) => taken.append(kept),
            Slot::Turn(_) => unreachable!(),
        };
        if done.is_err() {
            unreachable!()
        }
        Member {
            seat,
            number: by,
            issued,
            last_end,
        }
    }

    // Puts notes on the desk, which the member took last, behind what is pending.
    fn put_on_desk(&self, member: Member<K>, taken: &mut LinkedList<EntryNote>) -> Member<K>
        requires table { member.seat.table_id ≡ self.now.table.shared.table_id }
        requires desk { CarriesDesk (shows_of K.holds) member.seat.me }
        requires few { length (hands_of member).pending + length taken.old < 2 ^ 63 }
        ensures same { IsSame member result × (view_of result ≡ view_of member) }
        ensures desk { CarriesAs (shows_of K.holds) (hands_of member).lasting
            ((hands_of member).pending ++ taken.old) (hands_of member).progress result.seat.me }
        ensures others { rest (boxes_of result) ≡ rest (boxes_of member) }
    {
        let Member {
            mut seat,
            number,
            issued,
            last_end,
        } = member;
        let shared = &self.table.shared;
        let done = match seat.slot_mut(shared, 0) {
            Slot::Turn(desk) => desk.gathered.append(taken),
            Slot::Notes(_) => unreachable!(),
        };
        if done.is_err() {
            unreachable!()
        }
        Member {
            seat,
            number,
            issued,
            last_end,
        }
    }

    /// Puts the notes of the gathered box, which the member took last, on the desk, its only other
    /// box, behind what is pending. The box is empty then.
    pub fn keep_taken(&self, alloc: Global, member: Member<K>, number: usize) -> Member<K>
        requires table { member.seat.table_id ≡ self.now.table.shared.table_id }
        requires boxes { HasDeskBehind (shows_of K.holds) number member.seat.me }
        requires few { length (hands_of member).pending + length (hands_of member).taken
            < 2 ^ 63 }
        ensures same { IsSame member result × (view_of result ≡ view_of member) }
        ensures void { CarriesNotes number [] result.seat.me }
        ensures desk { HasDesk (shows_of K.holds) (hands_of member).lasting
            ((hands_of member).pending ++ (hands_of member).taken) (hands_of member).progress
            (rest (boxes_of result)) }
    {
        let mut taken = LinkedList::new(alloc);
        let member = turned_member(self.take_out(member, number, &mut taken));
        turned_member(self.put_on_desk(member, &mut taken))
    }
}

// The box that the member took last goes behind its others.
fn turned_member<K>(member: Member<K>) -> Member<K>
    ensures same { IsSame member result × (view_of result ≡ view_of member) }
    ensures boxes { boxes_of result ≡ turned (boxes_of member) }
{
    let Member {
        mut seat,
        number,
        issued,
        last_end,
    } = member;
    seat.turn();
    Member {
        seat,
        number,
        issued,
        last_end,
    }
}
