//! The step that makes a new group current: what waits for a barrier gets the group before.
ghost use Rattle.std.specs.Prelude.{◌≡◌, ◌≤◌, map, length};
ghost use Rattle.path_core.specs.declared.event.Event.{Event};
ghost use Rattle.path_core.specs.SeatAfter.{marker_barrier, marker_after, moved_turn, moved};
ghost use Rattle.path_core.specs.SeatParts.{barrier_issued};
ghost use Rattle.std.specs.Option.{option_map};
ghost use Rattle.path_core.specs.Allowed.{is_unbarred, is_unbarred_marker};
ghost use Rattle.path_core.specs.Next.{next_of, barred, barred_marker, barred_tables};
ghost use Rattle.path_machine.specs.Steps.{Names};

use crate::groups_known::{GroupWord, in_turn};
use crate::table_steps::barrier_issued;
use op_core::Order;
use path_core::{
    Bound, Claim, ClaimKind, Issue, LastMarker, Memtable, PathState, Seat, SeatTable, SyncTurn,
    TableState,
};

/// Whether a memtable waits for its barrier.
pub(crate) fn is_unbarred(memtable: &Memtable) -> bool
    ensures { result ≡ is_unbarred memtable.now }
{
    matches!(memtable.bound, Bound::Final(_)) && memtable.barrier.is_none()
}

/// Whether this is a marker of the seat that waits for its barrier.
pub(crate) fn is_unbarred_marker(claim: &Claim, by: u8) -> bool
    ensures { result ≡ is_unbarred_marker by claim.now }
{
    claim.what == ClaimKind::Marker && claim.by == by && claim.barrier.is_none()
}

fn barred(memtable: Memtable, group: u64) -> Memtable
    ensures { result ≡ barred group memtable }
{
    if is_unbarred(&memtable) {
        Memtable {
            barrier: Some(group),
            ..memtable
        }
    } else {
        memtable
    }
}

fn barred_marker(claim: Claim, by: u8, group: u64) -> Claim
    ensures { result ≡ barred_marker by group claim }
{
    if is_unbarred_marker(&claim, by) {
        Claim {
            barrier: Some(group),
            ..claim
        }
    } else {
        claim
    }
}

fn bar_markers(claims: &mut [Claim], by: u8, group: u64)
    ensures { claims.new ≡ map (barred_marker by group) claims.old }
{
    for claim in claims.iter_mut() {
        *claim = barred_marker(*claim, by, group);
    }
}

fn bar(memtables: &mut [Memtable], group: u64)
    ensures { memtables.new ≡ map (barred group) memtables.old }
{
    for memtable in memtables.iter_mut() {
        *memtable = barred(*memtable, group);
    }
}

fn bar_table(table: &mut TableState, group: u64)
    ensures { table.new ≡ record table.old { memtables = map (barred group) table.old.memtables } }
{
    let list = &mut table.memtables;
    bar(&mut list.items, group);
}

fn bar_tables(tables: &mut [TableState], seat: &[SeatTable; 16], group: u64)
    requires { length tables.old ≤ 16 }
    ensures { tables.new ≡ barred_tables group seat.now tables.old }
{
    for i in 0..tables.len() {
        if seat[i].flush.is_some() {
            bar_table(&mut tables[i], group);
        }
    }
}

fn barrier_of(marker: LastMarker, by: u8, group: u64) -> LastMarker
    ensures { result ≡ marker_barrier by group marker }
{
    if marker.by == by && marker.barrier.is_none() {
        LastMarker {
            barrier: Some(group),
            ..marker
        }
    } else {
        marker
    }
}

// The last marker after an issue of an order's barrier of a group.
fn issued(marker: Option<LastMarker>, order: Order, by: u8, group: u64) -> Option<LastMarker>
    ensures { result ≡ marker_after order by group marker }
{
    match (order, marker) {
        (Order::Append, Some(marker)) => Some(barrier_of(marker, by, group)),
        _ => marker,
    }
}

fn issue_stages(tables: &mut [SeatTable], group: u64)
    ensures { tables.new ≡ map (barrier_issued group) tables.old }
{
    for at in tables.iter_mut() {
        *at = barrier_issued(*at, group);
    }
}

fn moved_turn(turn: SyncTurn, order: Order, by: u8, before: u64, group: u64) -> SyncTurn
    ensures { result ≡ moved_turn order by before group turn }
{
    let marker = issued(turn.marker, order, by, before);
    let turn = in_turn(turn, order, GroupWord::Current(group));
    SyncTurn {
        issue: Issue::Moved(order),
        marker,
        ..turn
    }
}

// The group before is the barrier of a marker that waited for one.
fn move_turn(seat: &mut Seat, order: Order, by: u8, before: u64, group: u64)
    ensures { seat.new ≡ record seat.old {
      sync = option_map (moved_turn order by before group) seat.old.sync;
    } }
{
    if let Some(turn) = seat.sync {
        seat.sync = Some(moved_turn(turn, order, by, before, group));
    }
}

// All of the seat's markers have their barrier then.
fn move_append(seat: &mut Seat, by: u8, before: u64, group: u64)
    ensures { seat.new ≡ moved Order.Append by before group seat.old }
{
    move_turn(seat, Order::Append, by, before, group);
    seat.marker_waits = false;
}

// It is the barrier of the memtables that waited for one, too.
fn move_write(seat: &mut Seat, by: u8, before: u64, group: u64)
    ensures { seat.new ≡ moved Order.Write by before group seat.old }
{
    move_turn(seat, Order::Write, by, before, group);
    issue_stages(&mut seat.tables, before);
}

pub(crate) fn make_move_append(state: &mut PathState, by: u8, group: u64)
    requires { Names state.old (Event.MoveCurrent by Order.Append group) }
    ensures { state.new ≡ next_of state.old (Event.MoveCurrent by Order.Append group) }
{
    let before = state.append.current;
    let claims = &mut state.claims;
    bar_markers(&mut claims.items, by, before);
    state.append.current = group;
    let seats = &mut state.seats;
    move_append(&mut seats.items[by as usize], by, before, group);
}

pub(crate) fn make_move_write(state: &mut PathState, by: u8, group: u64)
    requires { Names state.old (Event.MoveCurrent by Order.Write group) }
    ensures { state.new ≡ next_of state.old (Event.MoveCurrent by Order.Write group) }
{
    let before = state.write.current;
    let held = state.seats.as_slice()[by as usize].tables;
    let tables = &mut state.tables;
    bar_tables(&mut tables.items, &held, before);
    state.write.current = group;
    let seats = &mut state.seats;
    move_write(&mut seats.items[by as usize], by, before, group);
}
