//! When steps on groups are allowed.
ghost use Rattle.std.specs.Prelude.{◌≡◌, ◌↔◌, ◌≤◌, ◌<◌, ◌+◌, suc, length, Some, IsTrue};
ghost use Rattle.std.specs.List.{list_any};
ghost use Rattle.op_core.specs.declared.count.Tally.{Tally};
ghost use Rattle.op_core.specs.Tallies.{IsOpen};
ghost use Rattle.path_core.specs.declared.event.Turn.{Turn};
ghost use Rattle.path_core.specs.Parts.{
  groups_of,
  tally_of,
  seat_of,
  group_in,
  found_of,
  issue_of,
  HoldsTurn,
  HoldsNoTurn,
};
ghost use Rattle.path_core.specs.Allowed.{
  IsReadyFor,
  MayCarry,
  MayOpenGroup,
  WantsBarrier,
  HasUnbarredMemtable,
  is_unbarred,
  is_unbarred_marker,
};

use crate::move_changes::{is_unbarred, is_unbarred_marker};
use crate::reading::groups;
use crate::seat_asks::{found_of, group_in, holds_no_turn, is_ready_for, issue_of, may_carry};
use op_core::{Order, Tally};
use path_core::{Carried, Claim, Issue, Memtable, PathState, Seat};

fn is_open(tally: Tally) -> bool
    ensures { IsTrue result ↔ IsOpen tally }
{
    matches!(tally, Tally::Open(_))
}

fn tally_of(state: &PathState, order: Order, group: u64) -> Tally
    requires { group < length (groups_of state.now order).tallies }
    ensures { result ≡ tally_of state.now order group }
{
    groups(state, order).tallies.as_slice()[group as usize]
}

// Whether a number is the one behind another.
pub(crate) fn follows(number: u64, other: u64) -> bool
    ensures { IsTrue result ↔ (number ≡ suc other) }
{
    number > 0 && number - 1 == other
}

// Whether a group is one of the 32 from the oldest on.
fn is_near(group: u64, oldest: u64) -> bool
    ensures { IsTrue result ↔ (group ≤ oldest + 31) }
{
    group.saturating_sub(31) <= oldest
}

pub(crate) fn allows_register(state: &PathState, seat: &Seat, order: Order, group: u64) -> bool
    requires { group < length (groups_of state.now order).tallies }
    ensures { IsTrue result ↔ (HoldsNoTurn seat.now × IsReadyFor order seat.now
        × ((found_of order seat.now).current ≡ Some group)
        × IsOpen (tally_of state.now order group)) }
{
    holds_no_turn(seat)
        && is_ready_for(seat, order)
        && found_of(seat, order).current == Some(group)
        && is_open(tally_of(state, order, group))
}

pub(crate) fn allows_close(
    by: u8,
    tables: u8,
    seat: &Seat,
    order: Order,
    group: u64,
    carried: &Carried,
) -> bool
    requires { tables ≤ 16 }
    ensures { IsTrue result ↔ ((group_in order seat.now ≡ Some group)
        × MayCarry order by tables seat.now carried.now) }
{
    group_in(seat, order) == Some(group) && may_carry(by, tables, seat, order, carried)
}

fn any_unbarred(memtables: &[Memtable]) -> bool
    ensures { result ≡ list_any is_unbarred memtables.now }
{
    memtables.iter().any(is_unbarred)
}

fn any_unbarred_marker(claims: &[Claim], by: u8) -> bool
    ensures { result ≡ list_any (is_unbarred_marker by) claims.now }
{
    claims.iter().any(|claim| is_unbarred_marker(claim, by))
}

// Whether a final memtable of a table whose turn the seat holds has no barrier.
fn has_unbarred(state: &PathState, by: u8, seat: &Seat) -> bool
    requires few { length state.now.tables ≤ 16 }
    requires seat { seat.now ≡ seat_of state.now by }
    ensures { IsTrue result ↔ HasUnbarredMemtable state.now by }
{
    let tables = state.tables.as_slice();
    for i in 0..tables.len() {
        if seat.tables[i].flush.is_some() && any_unbarred(tables[i].memtables.as_slice()) {
            return true;
        }
    }
    false
}

fn wants_barrier(state: &PathState, by: u8, seat: &Seat, order: Order) -> bool
    requires few { length state.now.tables ≤ 16 }
    requires seat { seat.now ≡ seat_of state.now by }
    ensures { IsTrue result ↔ WantsBarrier order state.now by }
{
    match order {
        Order::Write => has_unbarred(state, by, seat),
        Order::Append => any_unbarred_marker(state.claims.as_slice(), by),
    }
}

pub(crate) fn allows_open_group(
    state: &PathState,
    by: u8,
    seat: &Seat,
    order: Order,
    group: u64,
) -> bool
    requires few { length state.now.tables ≤ 16 }
    requires seat { seat.now ≡ seat_of state.now by }
    ensures { IsTrue result ↔ (MayOpenGroup state.now by order group
        × WantsBarrier order state.now by) }
{
    seat.sync.is_some()
        && issue_of(seat) == Issue::Rest
        && follows(group, groups(state, order).current)
        && is_near(group, groups(state, order).oldest)
        && wants_barrier(state, by, seat, order)
}

pub(crate) fn allows_move(state: &PathState, seat: &Seat, order: Order, group: u64) -> bool
    ensures { IsTrue result ↔ ((issue_of seat.now ≡ Issue.Opened order)
        × (group ≡ suc (groups_of state.now order).current)) }
{
    issue_of(seat) == Issue::Opened(order) && follows(group, groups(state, order).current)
}

pub(crate) fn allows_expire(state: &PathState, seat: &Seat, order: Order, group: u64) -> bool
    requires { group < length (groups_of state.now order).tallies }
    ensures { IsTrue result ↔ ((issue_of seat.now ≡ Issue.Moved order)
        × (suc group ≡ (groups_of state.now order).current)
        × IsOpen (tally_of state.now order group)) }
{
    issue_of(seat) == Issue::Moved(order)
        && follows(groups(state, order).current, group)
        && is_open(tally_of(state, order, group))
}

pub(crate) fn allows_advance(state: &PathState, seat: &Seat, order: Order, group: u64) -> bool
    requires { group < length (groups_of state.now order).tallies }
    ensures { IsTrue result ↔ (HoldsTurn seat.now Turn.Sync
        × (group ≡ suc (groups_of state.now order).oldest)
        × (group ≤ (groups_of state.now order).current)
        × (tally_of state.now order (groups_of state.now order).oldest ≡ Tally.Expired 0)) }
{
    let chain = groups(state, order);
    if !follows(group, chain.oldest) {
        return false;
    }
    seat.sync.is_some()
        && group <= chain.current
        && tally_of(state, order, chain.oldest) == Tally::Expired(0)
}
