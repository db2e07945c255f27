//! The steps on turns and cursors.
ghost use Rattle.std.specs.Prelude.{◌≡◌, ◌<◌};
ghost use Rattle.path_core.specs.declared.event.Event.{Event};
ghost use Rattle.path_core.specs.Parts.{last_kept};
ghost use Rattle.path_core.specs.SeatAfter.{new_sync};
ghost use Rattle.path_core.specs.Next.{next_of};
ghost use Rattle.path_machine.specs.Steps.{Names};

use crate::seat_steps::find_stopped;
use clog_base::Table;
use path_core::{
    Claim, ClaimKind, Cursor, FlushTurn, FoundGroups, Issue, LastMarker, PathState, Seat,
    SeatTable, Switching, SyncTurn, Turn,
};

const NOTHING_FOUND: FoundGroups = FoundGroups {
    current: None,
    oldest: None,
    finished: None,
};

// Turns that were just taken.

fn new_sync(marker: Option<LastMarker>) -> SyncTurn
    ensures { result ≡ new_sync marker }
{
    SyncTurn {
        issue: Issue::Rest,
        filed: false,
        marker,
        write: NOTHING_FOUND,
        append: NOTHING_FOUND,
        synced: None,
        stopped: None,
    }
}

const NEW_FLUSH: FlushTurn = FlushTurn {
    stage: Switching::Settled,
    newest: None,
    oldest_live: None,
    bound: None,
    cleared: None,
};

fn with_flush(at: SeatTable, flush: Option<FlushTurn>) -> SeatTable
    ensures { result ≡ record at { flush = flush } }
{
    SeatTable { flush, ..at }
}

// The last marker among claims. It mostly stands close to the end, so it is looked for from there.
fn last_kept(claims: &[Claim]) -> Option<LastMarker>
    ensures { result ≡ last_kept claims.now }
{
    let mut rest = claims.len();
    while rest > 0 {
        let claim = claims[rest - 1];
        if claim.what == ClaimKind::Marker {
            return Some(LastMarker {
                by: claim.by,
                start: claim.start,
                barrier: claim.barrier,
            });
        }
        rest -= 1;
    }
    None
}

pub(crate) fn make_take_turn(state: &mut PathState, by: u8, turn: Turn)
    requires { Names state.old (Event.TakeTurn by turn) }
    ensures { state.new ≡ next_of state.old (Event.TakeTurn by turn) }
{
    let marker = last_kept(state.claims.as_slice());
    let seats = &mut state.seats;
    let seat = &mut seats.items[by as usize];
    match turn {
        Turn::Sync => seat.sync = Some(new_sync(marker)),
        Turn::Flush(table) => {
            let i = table.0 as usize;
            seat.tables[i] = with_flush(seat.tables[i], Some(NEW_FLUSH));
        }
    }
}

pub(crate) fn make_give_flush(state: &mut PathState, by: u8, table: Table)
    requires { Names state.old (Event.GiveTurn by (Turn.Flush table)) }
    ensures { state.new ≡ next_of state.old (Event.GiveTurn by (Turn.Flush table)) }
{
    let seats = &mut state.seats;
    let seat = &mut seats.items[by as usize];
    let i = table.0 as usize;
    seat.tables[i] = with_flush(seat.tables[i], None);
}

pub(crate) fn make_stopped(state: &mut PathState, by: u8, faults: u64)
    requires { Names state.old (Event.Put by Cursor.Stopped faults) }
    ensures { state.new ≡ next_of state.old (Event.Put by Cursor.Stopped faults) }
{
    state.stopped = faults;
    let seats = &mut state.seats;
    find_stopped(&mut seats.items[by as usize], faults);
}
