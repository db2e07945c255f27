//! What a seat is asked before its step.
ghost use Rattle.std.specs.Prelude.{◌≡◌, ◌↔◌, ◌≤◌, ◌<◌, ◌⊎◌, Some, IsTrue, ℕ};
ghost use Rattle.std.specs.List.{Contains};
ghost use Rattle.path_core.specs.Parts.{
  group_in,
  found_of,
  issue_of,
  cleared_of,
  marked_in,
  marked_of,
  HoldsNoTurn,
  IsIdle,
  touches,
};
ghost use Rattle.path_core.specs.Allowed.{
  IsReadyFor,
  IsOwnNote,
  IsItsPlaces,
  MayCarry,
  RaisesAsWriter,
  RaisesAsHolder,
  HasRaised,
};

use crate::seat_steps::touches;
use clog_base::Table;
use op_core::Order;
use path_core::{Carried, EntryNote, FoundGroups, Issue, Marked, Range, Seat, Switching};

/// The group of an order that it is in.
pub(crate) fn group_in(seat: &Seat, order: Order) -> Option<u64>
    ensures { result ≡ group_in order seat.now }
{
    match order {
        Order::Write => seat.write,
        Order::Append => seat.append,
    }
}

/// What it found of an order's groups.
pub(crate) fn found_of(seat: &Seat, order: Order) -> FoundGroups
    ensures { result ≡ found_of order seat.now }
{
    match order {
        Order::Write => seat.found.write,
        Order::Append => seat.found.append,
    }
}

/// How far it has got with a barrier.
pub(crate) fn issue_of(seat: &Seat) -> Issue
    ensures { result ≡ issue_of seat.now }
{
    match seat.sync {
        Some(turn) => turn.issue,
        None => Issue::Rest,
    }
}

/// The memtable to come of a table, once the seat has cleared its place.
pub(crate) fn cleared_of(seat: &Seat, table: u8) -> Option<u64>
    requires { table < 16 }
    ensures { result ≡ cleared_of seat.now table }
{
    match seat.tables[table as usize].flush {
        Some(turn) => turn.cleared,
        None => None,
    }
}

pub(crate) fn is_idle(seat: &Seat) -> bool
    ensures { IsTrue result ↔ IsIdle seat.now }
{
    seat.write.is_none() && seat.append.is_none()
}

pub(crate) fn holds_no_turn(seat: &Seat) -> bool
    ensures { IsTrue result ↔ HoldsNoTurn seat.now }
{
    seat.sync.is_none() && seat.tables.iter().all(|at| at.flush.is_none())
}

/// An idle seat registers in the write order; one that is in that order only and has claimed
/// nothing, in the append order.
pub(crate) fn is_ready_for(seat: &Seat, order: Order) -> bool
    ensures { IsTrue result ↔ IsReadyFor order seat.now }
{
    match order {
        Order::Write => is_idle(seat),
        Order::Append => { seat.write.is_some() && seat.append.is_none() && seat.claim.is_none() }
    }
}

// The note is of the seat's claim, and of tables that there are.
fn is_own_note(by: u8, tables: u8, seat: &Seat, note: &EntryNote) -> bool
    requires { tables ≤ 16 }
    ensures { IsTrue result ↔ IsOwnNote by tables seat.now note.now }
{
    let range = Range {
        start: note.start.0,
        end: note.end.0,
    };
    seat.claim == Some(range) && note.writer.0 == by && u32::from(note.tables) < 1 << tables
}

// Whether the place at a table is among the carried ones.
fn is_carried(places: &[(Table, u64)], table: u8, memtable: u64) -> bool
    ensures { IsTrue result ↔ Contains places.now (record { 0 = table }, memtable) }
{
    for found in places {
        if found.0.0 == table && found.1 == memtable {
            return true;
        }
    }
    false
}

fn has_place(places: &[(Table, u64)], table: u8, place: Option<u64>) -> bool
    ensures { IsTrue result
        ↔ ((m : ℕ) × (place ≡ Some m) × Contains places.now (record { 0 = table }, m)) }
{
    match place {
        Some(memtable) => is_carried(places, table, memtable),
        None => false,
    }
}

// These are exactly the seat's places, one for each of these tables, which are its note's.
fn are_places_of(seat: &Seat, tables: u16, places: &[(Table, u64)]) -> bool
    requires { seat.now.note ≡ Some tables }
    ensures { IsTrue result ↔ IsItsPlaces seat.now places.now }
{
    if places.len() != tables.count_ones() as usize {
        return false;
    }
    for table in 0..16 {
        if touches(tables, table) && !has_place(places, table, seat.tables[table as usize].place) {
            return false;
        }
    }
    true
}

fn are_its_places(seat: &Seat, places: &[(Table, u64)]) -> bool
    ensures { IsTrue result ↔ IsItsPlaces seat.now places.now }
{
    match seat.note {
        Some(tables) => are_places_of(seat, tables, places),
        None => false,
    }
}

/// Whether it may carry this to the close of a group.
pub(crate) fn may_carry(by: u8, tables: u8, seat: &Seat, order: Order, carried: &Carried) -> bool
    requires { tables ≤ 16 }
    ensures { IsTrue result ↔ MayCarry order by tables seat.now carried.now }
{
    match (order, carried) {
        (Order::Append, Carried::Nothing) => seat.claim.is_none(),
        (Order::Append, Carried::Deposit(note)) => is_own_note(by, tables, seat, note),
        (Order::Write, Carried::Nothing) => seat.append.is_none() && seat.claim.is_none(),
        (Order::Write, Carried::Applied(places)) => {
            seat.append.is_none() && are_its_places(seat, places.as_slice())
        }
        (Order::Append, Carried::Applied(_)) | (Order::Write, Carried::Deposit(_)) => false,
    }
}

fn marked_in(stage: Switching) -> Option<Marked>
    ensures { result ≡ marked_in stage }
{
    match stage {
        Switching::Marked(marked) => Some(marked),
        _ => None,
    }
}

fn marked_of(seat: &Seat, table: u8) -> Option<Marked>
    requires { table < 16 }
    ensures { result ≡ marked_of seat.now table }
{
    match seat.tables[table as usize].flush {
        Some(turn) => marked_in(turn.stage),
        None => None,
    }
}

// A write raises to the end of its claim, at the memtable that it tries.
fn raises_as_writer(seat: &Seat, table: u8, memtable: u64, to: u64) -> bool
    requires { table < 16 }
    ensures { IsTrue result ↔ RaisesAsWriter seat.now table memtable to }
{
    let Some(claim) = seat.claim else {
        return false;
    };
    seat.note.is_some() && claim.end == to && seat.tables[table as usize].trying == Some(memtable)
}

// The holder of the table's turn raises to a log key that it found after it marked the memtable.
fn raises_as_holder(seat: &Seat, table: u8, memtable: u64, to: u64) -> bool
    requires { table < 16 }
    ensures { IsTrue result ↔ RaisesAsHolder seat.now table memtable to }
{
    let Some(marked) = marked_of(seat, table) else {
        return false;
    };
    marked.memtable == memtable && marked.key == Some(to)
}

/// Whether it may raise a memtable's bound to a key.
pub(crate) fn may_raise(seat: &Seat, table: u8, memtable: u64, to: u64) -> bool
    requires { table < 16 }
    ensures { IsTrue result
        ↔ (RaisesAsWriter seat.now table memtable to ⊎ RaisesAsHolder seat.now table memtable to) }
{
    raises_as_writer(seat, table, memtable, to) || raises_as_holder(seat, table, memtable, to)
}

/// The holder of the table's turn has raised the memtable that it marked.
pub(crate) fn has_raised(seat: &Seat, table: u8, memtable: u64) -> bool
    requires { table < 16 }
    ensures { IsTrue result ↔ HasRaised seat.now table memtable }
{
    let Some(marked) = marked_of(seat, table) else {
        return false;
    };
    marked.memtable == memtable && marked.raised
}
