//! When a claim is allowed: of an entry, and of a marker.
ghost use Rattle.std.specs.Prelude.{◌≡◌, ◌↔◌, ◌≤◌, false, None, IsTrue, IsSome};
ghost use Rattle.clog_spec.specs.Sizes.{greatest_capacity};
ghost use Rattle.path_core.specs.declared.event.Turn.{Turn};
ghost use Rattle.path_core.specs.Keys.{MovesLog};
ghost use Rattle.path_core.specs.Parts.{HoldsTurn, is_empty};
ghost use Rattle.path_core.specs.Allowed.{is_entry_last};

use crate::file_changes::is_empty;
use crate::keys::moves_log;
use clog_base::Key;
use path_core::{ClaimKind, PathState, Seat, Turn};

// Whether an entry was claimed since the last marker.
fn is_entry_last(state: &PathState) -> bool
    ensures { result ≡ is_entry_last state.now }
{
    let claims = state.claims.as_slice();
    if claims.is_empty() {
        return false;
    }
    claims[claims.len() - 1].what == ClaimKind::Entry
}

pub(crate) fn allows_entry(state: &PathState, seat: &Seat, from: Key, to: Key) -> bool
    requires { state.now.capacity ≤ greatest_capacity }
    ensures { IsTrue result ↔ (IsSome seat.now.write × IsSome seat.now.append
        × (seat.now.claim ≡ None) × (from.0 ≡ state.now.log)
        × MovesLog ClaimKind.Entry state.now.capacity state.now.ordinals from.0 to.0) }
{
    seat.write.is_some()
        && seat.append.is_some()
        && seat.claim.is_none()
        && from.0 == state.log
        && moves_log(
            ClaimKind::Entry,
            state.capacity,
            state.ordinals,
            from.0,
            to.0,
        )
}

pub(crate) fn allows_marker(state: &PathState, seat: &Seat, from: Key, to: Key) -> bool
    requires { state.now.capacity ≤ greatest_capacity }
    ensures { IsTrue result ↔ (HoldsTurn seat.now Turn.Sync × IsTrue (is_entry_last state.now)
        × (from.0 ≡ state.now.log)
        × MovesLog ClaimKind.Marker state.now.capacity state.now.ordinals from.0 to.0) }
{
    seat.sync.is_some()
        && is_entry_last(state)
        && from.0 == state.log
        && moves_log(
            ClaimKind::Marker,
            state.capacity,
            state.ordinals,
            from.0,
            to.0,
        )
}
