//! When a turn may be taken, and given back.
ghost use Rattle.std.specs.Prelude.{◌≡◌, ◌↔◌, ◌≤◌, ◌<◌, ℕ, false, length, Some, None, IsTrue};
ghost use Rattle.path_core.specs.declared.event.Turn.{Turn};
ghost use Rattle.path_core.specs.Parts.{
  seat_of,
  holds_turn,
  HoldsTurn,
  IsIdle,
  HasPassedBarrier,
  issue_of,
};
ghost use Rattle.path_core.specs.Allowed.{IsSettled, IsDone};
ghost use Rattle.path_core.specs.Words.{IsTurn};
ghost use Rattle.path_machine.specs.SeatSteps.{TurnTable};

use crate::reading::{holds, is_held};
use crate::seat_asks::{is_idle, issue_of};
use clog_base::Table;
use op_core::is_passed;
use path_core::{Issue, PathState, Seat, Turn};

// Whether the barrier that was issued for a memtable is passed.
pub(crate) fn has_passed_barrier(state: &PathState, table: Table, memtable: u64) -> bool
    requires { table.0 < length state.now.tables }
    ensures { IsTrue result ↔ HasPassedBarrier state.now table.0 memtable }
{
    let memtables = state.tables.as_slice()[table.0 as usize]
        .memtables
        .as_slice();
    if memtable >= memtables.len() as u64 {
        return false;
    }
    match memtables[memtable as usize].barrier {
        Some(group) => is_passed(state.write.tallies.as_slice(), group),
        None => false,
    }
}

// Whether the newest switch of a table is through.
fn is_settled(state: &PathState, table: Table) -> bool
    requires { table.0 < length state.now.tables }
    ensures { IsTrue result ↔ IsSettled state.now table.0 }
{
    let newest = state.tables.as_slice()[table.0 as usize].newest;
    newest == 0 || has_passed_barrier(state, table, newest - 1)
}

pub(crate) fn allows_take(state: &PathState, seat: &Seat, turn: Turn) -> bool
    requires { TurnTable turn }
    ensures { IsTrue result ↔ (IsIdle seat.now
        × ((w : ℕ) → holds_turn (seat_of state.now w) turn ≡ false)) }
{
    is_idle(seat) && !is_held(state, turn)
}

pub(crate) fn allows_give(state: &PathState, by: u8, seat: &Seat, turn: Turn) -> bool
    requires few { length state.now.tables ≤ 16 }
    requires turn { IsTurn state.now turn }
    requires seat { seat.now ≡ seat_of state.now by }
    ensures { IsTrue result ↔ (HoldsTurn seat.now turn × IsDone state.now by turn) }
{
    match turn {
        Turn::Sync => holds(seat, turn) && issue_of(seat) == Issue::Rest,
        Turn::Flush(table) => holds(seat, turn) && is_settled(state, table),
    }
}
