//! What stands at a word.
ghost use Rattle.std.specs.Prelude.{◌≡◌, ◌↔◌, ◌≤◌, ◌<◌, length, IsTrue};
ghost use Rattle.std.specs.List.{list_any};
ghost use Rattle.path_core.specs.declared.seat.Seat.{Seat};
ghost use Rattle.path_core.specs.Parts.{groups_of, holds_turn};
ghost use Rattle.path_core.specs.Words.{reading, IsTurn, IsPlace};
ghost use Rattle.path_machine.specs.SeatSteps.{NamesTable, TurnTable};

use op_core::Order;
use path_core::{Cursor, OrderGroups, PathState, Place, Reading, Seat, Turn};

pub(crate) fn groups(state: &PathState, order: Order) -> &OrderGroups
    ensures { result.now ≡ groups_of state.now order }
{
    match order {
        Order::Write => &state.write,
        Order::Append => &state.append,
    }
}

pub(crate) fn holds(seat: &Seat, turn: Turn) -> bool
    requires { TurnTable turn }
    ensures { result ≡ holds_turn seat.now turn }
{
    match turn {
        Turn::Sync => seat.sync.is_some(),
        Turn::Flush(table) => seat.tables[table.0 as usize].flush.is_some(),
    }
}

/// Whether a seat holds the turn.
pub(crate) fn is_held(state: &PathState, turn: Turn) -> bool
    requires { TurnTable turn }
    ensures { result ≡ list_any (λ (s : Seat). holds_turn s turn) state.now.seats }
{
    state.seats.as_slice().iter().any(|seat| holds(seat, turn))
}

/// Whether there is such a turn.
pub(crate) fn is_turn(state: &PathState, turn: Turn) -> bool
    ensures { IsTrue result ↔ IsTurn state.now turn }
{
    match turn {
        Turn::Sync => true,
        Turn::Flush(table) => (table.0 as usize) < state.tables.as_slice().len(),
    }
}

/// Whether there is such a place.
pub(crate) fn is_place(state: &PathState, at: Place) -> bool
    ensures { IsTrue result ↔ IsPlace state.now at }
{
    let tables = state.tables.as_slice();
    match at {
        Place::Count(order, group) => {
            (group as usize) < groups(state, order).tallies.as_slice().len()
        }
        Place::Bound(table, memtable) => {
            (table.0 as usize) < tables.len()
                && (memtable as usize) < tables[table.0 as usize].memtables.as_slice().len()
        }
        Place::Newest(table) | Place::CursorWord(Cursor::OldestLive(table)) => {
            (table.0 as usize) < tables.len()
        }
        Place::TurnWord(turn) => is_turn(state, turn),
        Place::Current(_) | Place::Oldest(_) | Place::Log => true,
        Place::CursorWord(Cursor::Synced) | Place::CursorWord(Cursor::Stopped) => true,
    }
}

/// What stands at the place.
pub(crate) fn reading(state: &PathState, at: Place) -> Reading
    requires few { length state.now.tables ≤ 16 }
    requires there { IsPlace state.now at }
    ensures found { result ≡ reading state.now at }
    ensures named { NamesTable at }
{
    let tables = state.tables.as_slice();
    match at {
        Place::Count(order, group) => {
            Reading::Operations(groups(state, order).tallies.as_slice()[group as usize])
        }
        Place::Current(order) => Reading::Number(groups(state, order).current),
        Place::Oldest(order) => Reading::Number(groups(state, order).oldest),
        Place::Log => Reading::Number(state.log),
        Place::Newest(table) => Reading::Number(tables[table.0 as usize].newest),
        Place::Bound(table, memtable) => {
            let memtables = tables[table.0 as usize].memtables.as_slice();
            Reading::Limit(memtables[memtable as usize].bound)
        }
        Place::TurnWord(turn) => Reading::Number(u64::from(is_held(state, turn))),
        Place::CursorWord(Cursor::Synced) => Reading::Number(state.synced),
        Place::CursorWord(Cursor::OldestLive(table)) => {
            Reading::Number(tables[table.0 as usize].oldest_live)
        }
        Place::CursorWord(Cursor::Stopped) => Reading::Number(state.stopped),
    }
}
