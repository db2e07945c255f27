//! Turns: an idle seat takes the Sync turn, or the Flush turn of a table, by one try, and gives it
//! back. With the Sync turn it moves the oldest group of an order on by one try.
ghost use Rattle.std.specs.Prelude.{◌≡◌, ◌<◌, ◌≤◌, [], IfOk, MatchResult};
ghost use Rattle.clog_base.specs.declared.cell.Table.{Table};
ghost use Rattle.path_core.specs.declared.event.Event.TheVariants.{Look};
ghost use Rattle.path_core.specs.declared.event.Place.TheVariants.{TurnWord};
ghost use Rattle.path_core.specs.declared.event.Turn.TheVariants.{Sync, Flush};
ghost use Rattle.path_rule.specs.Issued.{issued_in, opened_in};
ghost use Rattle.path_rule.specs.Lasts.{shows_of};
ghost use Rattle.path_rule.specs.Rounds.{RoundSteps};
ghost use Rattle.path_table.specs.Members.{view_of, IsOf, Stepped};
ghost use Rattle.path_rounds.specs.Passes.{HasMovedOn, MatchAdvance, RunsStill};
ghost use Rattle.path_flush.specs.Seats.{Stays};
ghost use Rattle.path_flush.specs.Turned.{GaveTurn, HoldsDesk, HoldsFlush, HoldsSync, TookTurn};

use crate::seats::WritePath;
use clog_base::Table;
use path_core::{Keeper, Order, Turn};
use path_flush::{give_flush_turn, give_sync_turn};
use path_rounds::{Advance, try_advance};
use path_table::{Member, PathSeat};
use std::alloc::Allocator;

/// A seat that has a turn, of which nothing is left half done: with the Sync turn no barrier is
/// under way, and nothing was filed; with a table's Flush turn no switch was begun. It runs no
/// write.
#[derive(Drop)]
pub struct TurnSeat<K> {
    /// The seat.
    pub member: Member<K>,
    /// The turn that it has.
    pub turn: Turn,
    pub ghost syncs: { turn ≡ Sync → HoldsSync member.seat.me.0 },
    pub ghost flushes: { (t : Table) → turn ≡ Flush t → HoldsFlush t.0 member.seat.me },
    pub ghost paid: { opened_in member.seat.me.0.trail ≤ issued_in member.seat.me.0.trail },
}

impl<K: Keeper, A: Allocator> WritePath<K, A> {
    /// Takes a turn, where nobody has it: the Sync turn comes with the desk, and that of a table is
    /// of one that there is. A refused seat only looked, and found the turn's word 1.
    pub fn try_turn(&self, seat: PathSeat<K>, turn: Turn) -> Result<TurnSeat<K>, (PathSeat<K>, u64)>
        requires table { IsOf self.now.table.table.shared.table_id self.now.table.size seat.member }
        requires there { (t : Table) → turn ≡ Flush t → t.0 < self.now.table.size.tables }
        ensures same { MatchResult result
            (λ t. Stays self.now.table.table.shared.table_id self.now.table.size seat.member
            t.member × (t.turn ≡ turn))
            (λ r. Stays self.now.table.table.shared.table_id self.now.table.size seat.member
            r.0.member) }
        ensures step { MatchResult result
            (λ t. TookTurn self.now.table.size.at_open turn seat.member t.member)
            (λ r. (r.1 ≡ 1) × Stepped seat.member (Look seat.member.number (TurnWord turn)) r.1
            r.0.member) }
        ensures desk { IfOk result (λ t. turn ≡ Sync → HoldsDesk (shows_of K.holds) t.member) }
    {
        match turn {
            Turn::Sync => self.try_sync_turn(seat),
            Turn::Flush(table) => self.try_flush_turn(seat, table),
        }
    }

    // Takes the Sync turn, with the desk, where nobody has it.
    fn try_sync_turn(&self, seat: PathSeat<K>) -> Result<TurnSeat<K>, (PathSeat<K>, u64)>
        requires { IsOf self.now.table.table.shared.table_id self.now.table.size seat.member }
        ensures same { MatchResult result
            (λ t. Stays self.now.table.table.shared.table_id self.now.table.size seat.member
            t.member × (t.turn ≡ Sync))
            (λ r. Stays self.now.table.table.shared.table_id self.now.table.size seat.member
            r.0.member) }
        ensures step { MatchResult result
            (λ t. TookTurn self.now.table.size.at_open Sync seat.member t.member)
            (λ r. (r.1 ≡ 1) × Stepped seat.member (Look seat.member.number (TurnWord Sync)) r.1
            r.0.member) }
        ensures desk { IfOk result (λ t. HoldsDesk (shows_of K.holds) t.member) }
    {
        let PathSeat { mut member } = seat;
        let found = self.table.take_sync(&mut member);
        if found == 0 {
            let turn = Turn::Sync;
            Ok(TurnSeat { member, turn })
        } else {
            Err((PathSeat { member }, found))
        }
    }

    // Takes a table's Flush turn, where nobody has it.
    #[tactic(auto, using(crate::proofs::FlushHeld::nothing_read))]
    fn try_flush_turn(
        &self,
        seat: PathSeat<K>,
        table: Table,
    ) -> Result<TurnSeat<K>, (PathSeat<K>, u64)>
        requires table { IsOf self.now.table.table.shared.table_id self.now.table.size seat.member }
        requires there { table.0 < self.now.table.size.tables }
        ensures same { MatchResult result
            (λ t. Stays self.now.table.table.shared.table_id self.now.table.size seat.member
            t.member × (t.turn ≡ Flush table))
            (λ r. Stays self.now.table.table.shared.table_id self.now.table.size seat.member
            r.0.member) }
        ensures step { MatchResult result
            (λ t. TookTurn self.now.table.size.at_open (Flush table) seat.member t.member)
            (λ r. (r.1 ≡ 1)
            × Stepped seat.member (Look seat.member.number (TurnWord (Flush table))) r.1
            r.0.member) }
    {
        let PathSeat { mut member } = seat;
        let found = self.table.take_flush(&mut member, table);
        if found != 0 {
            return Err((PathSeat { member }, found));
        }
        let turn = Turn::Flush(table);
        Ok(TurnSeat { member, turn })
    }

    /// Gives the turn back, the Sync turn with the desk. The seat is idle again.
    pub fn give(&self, seat: TurnSeat<K>) -> PathSeat<K>
        requires table { IsOf self.now.table.table.shared.table_id self.now.table.size seat.member }
        requires desk { seat.turn ≡ Sync → HoldsDesk (shows_of K.holds) seat.member }
        ensures same { Stays self.now.table.table.shared.table_id self.now.table.size seat.member
            result.member }
        ensures step { GaveTurn seat.turn seat.member result.member }
    {
        let TurnSeat { member, turn } = seat;
        match turn {
            Turn::Sync => give_sync_turn(&self.table, member),
            Turn::Flush(table) => give_flush_turn(&self.table, member, table),
        }
    }

    /// Moves the oldest group of an order on, by its last step, where its count is found finished,
    /// by a seat that has the Sync turn. Where the group runs still, only looks were made, and it
    /// says what it found as its count.
    pub fn try_advance(&self, seat: &mut TurnSeat<K>, order: Order) -> Advance
        requires table { IsOf self.now.table.table.shared.table_id self.now.table.size
            seat.old.member }
        requires turn { seat.old.turn ≡ Sync }
        ensures same { Stays self.now.table.table.shared.table_id self.now.table.size
            seat.old.member seat.new.member × (seat.new.turn ≡ seat.old.turn) }
        ensures steps { RoundSteps seat.old.member.number 0 [] (view_of seat.old.member)
            (view_of seat.new.member) }
        ensures desk { HoldsDesk (shows_of K.holds) seat.old.member
            → HoldsDesk (shows_of K.holds) seat.new.member }
        ensures answer { MatchAdvance result
            (λ group. HasMovedOn order seat.old.member.number group (view_of seat.old.member)
            (view_of seat.new.member))
            (λ group count. RunsStill order group count (view_of seat.old.member)
            (view_of seat.new.member)) }
    {
        try_advance(&self.table, &mut seat.member, order)
    }
}
