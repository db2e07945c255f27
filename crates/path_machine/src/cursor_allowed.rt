//! When a cursor may be put: the synced key, the oldest live memtable, and that the log is stopped.
ghost use Rattle.std.specs.Prelude.{
  ◌≡◌,
  ◌↔◌,
  ◌⊎◌,
  ◌≤◌,
  ◌<◌,
  suc,
  false,
  length,
  Some,
  None,
  IsTrue,
};
ghost use Rattle.path_core.specs.declared.event.Turn.{Turn};
ghost use Rattle.path_core.specs.Parts.{seat_of, table_of, HoldsTurn, HasPassedBarrier, is_empty};
ghost use Rattle.path_core.specs.Allowed.{IsSyncPoint, MayFile};
ghost use Rattle.path_core.specs.Markers.{HasMarkerAt, IsPassedMarker, HasPassedMarker};

use crate::file_changes::{is_empty, oldest_bound};
use crate::keys::is_below_after;
use crate::order_allowed::follows;
use crate::reading::holds;
use crate::turn_allowed::has_passed_barrier;
use clog_base::Table;
use op_core::{Tally, is_passed};
use path_core::{Bound, Claim, ClaimKind, PathState, Seat, Turn};

// Whether a marker starts at the key.
fn has_marker_at(claims: &[Claim], key: u64) -> bool
    ensures { IsTrue result ↔ HasMarkerAt claims.now key }
{
    for claim in claims {
        if claim.what == ClaimKind::Marker && claim.start == key {
            return true;
        }
    }
    false
}

fn is_passed_marker(claim: &Claim, tallies: &[Tally], key: u64) -> bool
    ensures { IsTrue result ↔ IsPassedMarker claim.now tallies.now key }
{
    match claim.barrier {
        Some(group) => {
            claim.what == ClaimKind::Marker && key <= claim.start && is_passed(tallies, group)
        }
        None => false,
    }
}

// Whether a marker at or above the key has a passed barrier.
fn has_passed_marker(claims: &[Claim], tallies: &[Tally], key: u64) -> bool
    ensures { IsTrue result ↔ HasPassedMarker claims.now tallies.now key }
{
    for claim in claims {
        if is_passed_marker(claim, tallies, key) {
            return true;
        }
    }
    false
}

fn is_sync_point(state: &PathState, key: u64) -> bool
    ensures { IsTrue result ↔ IsSyncPoint state.now key }
{
    let claims = state.claims.as_slice();
    has_marker_at(claims, key) && has_passed_marker(claims, state.append.tallies.as_slice(), key)
}

// Whether the log runs: no fault has stopped it.
fn runs(state: &PathState) -> bool
    ensures { IsTrue result ↔ (state.now.stopped ≡ 0) }
{
    state.stopped == 0
}

pub(crate) fn allows_synced(state: &PathState, seat: &Seat, key: u64) -> bool
    ensures { IsTrue result ↔ (HoldsTurn seat.now Turn.Sync × (state.now.stopped ≡ 0)
        × (state.now.synced < key) × IsSyncPoint state.now key) }
{
    seat.sync.is_some() && runs(state) && state.synced < key && is_sync_point(state, key)
}

pub(crate) fn allows_stopped(state: &PathState, seat: &Seat, faults: u64) -> bool
    ensures { IsTrue result
        ↔ (HoldsTurn seat.now Turn.Sync × (0 < faults) × (state.now.stopped ≡ 0)) }
{
    seat.sync.is_some() && faults > 0 && runs(state)
}

// Whether the log lasts up to a memtable's bound, and runs.
fn may_file(state: &PathState, by: u8, seat: &Seat, table: Table, memtable: u64) -> bool
    requires table { table.0 < length state.now.tables }
    requires seat { seat.now ≡ seat_of state.now by }
    ensures { IsTrue result ↔ MayFile state.now by table.0 memtable }
{
    if seat.sync.is_none() || !runs(state) {
        return false;
    }
    match oldest_bound(state, table, memtable) {
        Bound::Final(key) => is_below_after(state.capacity, state.synced, key.0),
        Bound::Live | Bound::Raising(_) => false,
    }
}

pub(crate) fn allows_retire(
    state: &PathState,
    by: u8,
    seat: &Seat,
    table: Table,
    oldest: u64,
) -> bool
    requires few { length state.now.tables ≤ 16 }
    requires table { table.0 < length state.now.tables }
    requires seat { seat.now ≡ seat_of state.now by }
    ensures { let m = (table_of state.now table.0).oldest_live in
        IsTrue result ↔ (HoldsTurn seat.now (Turn.Flush table) × (oldest ≡ suc m)
        × HasPassedBarrier state.now table.0 m
        × (IsTrue (is_empty state.now table.0 m) ⊎ MayFile state.now by table.0 m)) }
{
    let memtable = state.tables.as_slice()[table.0 as usize].oldest_live;
    if !holds(seat, Turn::Flush(table)) || !follows(oldest, memtable) {
        return false;
    }
    if !has_passed_barrier(state, table, memtable) {
        return false;
    }
    is_empty(state, table, memtable) || may_file(state, by, seat, table, memtable)
}
