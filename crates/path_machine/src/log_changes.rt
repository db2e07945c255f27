//! The steps on the log: claiming, and making it lasting.
ghost use Rattle.std.specs.Prelude.{◌≡◌, ◌<◌, map, true, IfOk};
ghost use Rattle.std.specs.List.{filter};
ghost use Rattle.path_core.specs.declared.event.Event.{Event};
ghost use Rattle.path_core.specs.declared.note.EntryNote.{EntryNote};
ghost use Rattle.path_core.specs.Keys.{behind_marker};
ghost use Rattle.path_core.specs.SeatAfter.{marker_claimed};
ghost use Rattle.path_core.specs.SeatParts.{in_sync};
ghost use Rattle.path_core.specs.Next.{is_between};
ghost use Rattle.path_machine.specs.Steps.{Names, Makes};

use crate::keys::{claim_end, claim_start};
use crate::seat_steps::find_synced;
use clog_base::{Key, OutOfMemory};
use path_core::{
    Claim, ClaimKind, Cursor, EntryNote, LastMarker, PathState, Range, Seat, SyncTurn,
};
use std::alloc::Global;

// The holder of the Sync turn has claimed a marker.
fn claim_marker(seat: &mut Seat, by: u8, start: u64)
    ensures { seat.new
        ≡ in_sync (marker_claimed by start) (record seat.old { marker_waits = true }) }
{
    seat.marker_waits = true;
    if let Some(turn) = seat.sync {
        seat.sync = Some(SyncTurn {
            marker: Some(LastMarker {
                by,
                start,
                barrier: None,
            }),
            ..turn
        });
    }
}

pub(crate) fn make_claim(
    state: &mut PathState,
    by: u8,
    from: Key,
    to: Key,
    what: ClaimKind,
) -> Result<(), OutOfMemory>
    requires names { Names state.old (Event.Claim by from to what) }
    requires moves { what ≡ ClaimKind.Marker → to.0 ≡ behind_marker state.old.capacity from.0 }
    ensures { Makes result state.old state.new (Event.Claim by from to what) }
{
    let start = claim_start(what, from.0, to.0);
    let claim = Claim {
        by,
        start,
        end: claim_end(what, state.capacity, from.0, to.0),
        what,
        barrier: None,
    };
    let claims = &mut state.claims;
    claims.items.push(claim)?;
    state.log = to.0;
    let seats = &mut state.seats;
    let seat = &mut seats.items[by as usize];
    seat.found.log = Some(to.0);
    match what {
        ClaimKind::Entry => seat.claim = Some(Range { start, end: to.0 }),
        ClaimKind::Marker => claim_marker(seat, by, start),
    }
    Ok(())
}

// The positions of the notes above one key and at or below another.
fn ends_between(
    alloc: Global,
    notes: &[EntryNote],
    lower: u64,
    upper: u64,
) -> Result<Vec<u64>, OutOfMemory>
    ensures { IfOk result (λ v. v.items
        ≡ map (λ (n : EntryNote). n.end.0) (filter (is_between lower upper) notes.now)) }
{
    let mut ends = Vec::new(alloc);
    for note in notes {
        if lower < note.end.0 && note.end.0 <= upper {
            ends.push(note.end.0)?;
        }
    }
    Ok(ends)
}

pub(crate) fn make_synced(
    state: &mut PathState,
    alloc: Global,
    by: u8,
    key: u64,
) -> Result<(), OutOfMemory>
    requires { Names state.old (Event.Put by Cursor.Synced key) }
    ensures { Makes result state.old state.new (Event.Put by Cursor.Synced key) }
{
    let mut ends = ends_between(alloc, state.notes.as_slice(), state.synced, key)?;
    let logged = &mut state.logged;
    logged.items.append(&mut ends)?;
    state.synced = key;
    let seats = &mut state.seats;
    find_synced(&mut seats.items[by as usize], key);
    Ok(())
}
