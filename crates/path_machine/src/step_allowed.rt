//! Whether a step is allowed.
ghost use Rattle.std.specs.Prelude.{◌≡◌, ◌↔◌, IsTrue};
ghost use Rattle.path_core.specs.Parts.{seat_of};
ghost use Rattle.path_core.specs.Words.{by_of};
ghost use Rattle.path_core.specs.Allowed.{IsThere, Row, IsAllowed};
ghost use Rattle.path_machine.specs.Steps.{IsWithin};

use crate::claim_allowed::{allows_entry, allows_marker};
use crate::cursor_allowed::{allows_retire, allows_stopped, allows_synced};
use crate::names::{by_of, is_there};
use crate::order_allowed::{
    allows_advance, allows_close, allows_expire, allows_move, allows_open_group, allows_register,
};
use crate::seat_asks::has_raised;
use crate::table_allowed::{allows_clear, allows_mark, allows_open, allows_raise};
use crate::turn_allowed::{allows_give, allows_take};
use path_core::{ClaimKind, Cursor, Event, PathState, Seat, SwitchPart};

// Whether the row of the step's kind holds.
fn row(state: &PathState, by: u8, seat: &Seat, event: &Event) -> bool
    requires within { IsWithin state.now }
    requires by { by ≡ by_of event.now }
    requires seat { seat.now ≡ seat_of state.now by }
    requires there { IsThere state.now event.now }
    ensures { IsTrue result ↔ Row state.now event.now }
{
    match event {
        Event::Look { .. } => true,
        Event::Register { order, group, .. } => allows_register(state, seat, *order, *group),
        Event::Close {
            order,
            group,
            carried,
            ..
        } => {
            let tables = state.tables.as_slice().len() as u8;
            allows_close(by, tables, seat, *order, *group, carried)
        }
        Event::OpenGroup { order, group, .. } => {
            allows_open_group(state, by, seat, *order, *group)
        }
        Event::MoveCurrent { order, group, .. } => allows_move(state, seat, *order, *group),
        Event::Expire { order, group, .. } => allows_expire(state, seat, *order, *group),
        Event::Advance { order, group, .. } => allows_advance(state, seat, *order, *group),
        Event::Claim {
            from,
            to,
            what: ClaimKind::Entry,
            ..
        } => { allows_entry(state, seat, *from, *to) }
        Event::Claim {
            from,
            to,
            what: ClaimKind::Marker,
            ..
        } => { allows_marker(state, seat, *from, *to) }
        Event::Switch {
            table,
            memtable,
            part: SwitchPart::Clear,
            ..
        } => { allows_clear(state, seat, *table, *memtable) }
        Event::Switch {
            table,
            memtable,
            part: SwitchPart::Open,
            ..
        } => { allows_open(state, seat, *table, *memtable) }
        Event::Switch {
            table,
            memtable,
            part: SwitchPart::Mark,
            ..
        } => { allows_mark(state, seat, *table, *memtable) }
        Event::Raise {
            table,
            memtable,
            to,
            ..
        } => { allows_raise(state, seat, *table, *memtable, *to) }
        Event::Finalise {
            table,
            memtable,
            ..
        } => has_raised(seat, table.0, *memtable),
        Event::TakeTurn { turn, .. } => allows_take(state, seat, *turn),
        Event::GiveTurn { turn, .. } => allows_give(state, by, seat, *turn),
        Event::Put {
            cursor: Cursor::Synced,
            value,
            ..
        } => allows_synced(state, seat, *value),
        Event::Put {
            cursor: Cursor::OldestLive(table),
            value,
            ..
        } => { allows_retire(state, by, seat, *table, *value) }
        Event::Put {
            cursor: Cursor::Stopped,
            value,
            ..
        } => allows_stopped(state, seat, *value),
    }
}

/// Whether the step is allowed.
pub(crate) fn allows(state: &PathState, event: &Event) -> bool
    requires { IsWithin state.now }
    ensures { IsTrue result ↔ IsAllowed state.now event.now }
{
    let by = by_of(event);
    let seats = state.seats.as_slice();
    if by as usize >= seats.len() || !is_there(state, event) {
        return false;
    }
    row(state, by, &seats[by as usize], event)
}
