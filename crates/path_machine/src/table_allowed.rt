//! When steps on memtables are allowed.
ghost use Rattle.std.specs.Prelude.{◌≡◌, ◌≢◌, ◌↔◌, ◌⊎◌, ◌≤◌, ◌<◌, suc, length, Some, IsTrue};
ghost use Rattle.path_core.specs.declared.event.Turn.{Turn};
ghost use Rattle.path_core.specs.Parts.{cleared_of, table_of, memtable_of, HoldsTurn};
ghost use Rattle.path_core.specs.Allowed.{RaisesAsWriter, RaisesAsHolder};

use crate::order_allowed::follows;
use crate::reading::holds;
use crate::seat_asks::{cleared_of, may_raise};
use clog_base::{Key, Table};
use path_core::{Bound, PathState, Seat, Turn};

pub(crate) fn allows_clear(state: &PathState, seat: &Seat, table: Table, memtable: u64) -> bool
    requires few { length state.now.tables ≤ 16 }
    requires table { table.0 < length state.now.tables }
    ensures { let t = table_of state.now table.0 in
        IsTrue result ↔ (HoldsTurn seat.now (Turn.Flush table) × (t.oldest_live ≡ t.newest)
        × (memtable ≡ suc t.newest)) }
{
    let found = &state.tables.as_slice()[table.0 as usize];
    holds(seat, Turn::Flush(table))
        && found.oldest_live == found.newest
        && follows(memtable, found.newest)
}

pub(crate) fn allows_open(state: &PathState, seat: &Seat, table: Table, memtable: u64) -> bool
    requires few { length state.now.tables ≤ 16 }
    requires table { table.0 < length state.now.tables }
    ensures { let t = table_of state.now table.0 in
        IsTrue result ↔ (HoldsTurn seat.now (Turn.Flush table) × (t.oldest_live ≡ t.newest)
        × (memtable ≡ suc t.newest) × (cleared_of seat.now table.0 ≡ Some memtable)) }
{
    let found = &state.tables.as_slice()[table.0 as usize];
    holds(seat, Turn::Flush(table))
        && found.oldest_live == found.newest
        && follows(memtable, found.newest)
        && cleared_of(seat, table.0) == Some(memtable)
}

fn bound_of(state: &PathState, table: Table, memtable: u64) -> Bound
    requires table { table.0 < length state.now.tables }
    requires memtable { memtable < length (table_of state.now table.0).memtables }
    ensures { result ≡ (memtable_of state.now table.0 memtable).bound }
{
    state.tables.as_slice()[table.0 as usize]
        .memtables
        .as_slice()[memtable as usize]
        .bound
}

pub(crate) fn allows_mark(state: &PathState, seat: &Seat, table: Table, memtable: u64) -> bool
    requires few { length state.now.tables ≤ 16 }
    requires table { table.0 < length state.now.tables }
    requires memtable { memtable < length (table_of state.now table.0).memtables }
    ensures { IsTrue result ↔ (HoldsTurn seat.now (Turn.Flush table)
        × (suc memtable ≡ (table_of state.now table.0).newest)
        × ((memtable_of state.now table.0 memtable).bound ≡ Bound.Live)) }
{
    let newest = state.tables.as_slice()[table.0 as usize].newest;
    holds(seat, Turn::Flush(table))
        && follows(newest, memtable)
        && bound_of(state, table, memtable) == Bound::Live
}

pub(crate) fn allows_raise(
    state: &PathState,
    seat: &Seat,
    table: Table,
    memtable: u64,
    to: Key,
) -> bool
    requires few { length state.now.tables ≤ 16 }
    requires table { table.0 < length state.now.tables }
    requires memtable { memtable < length (table_of state.now table.0).memtables }
    ensures { IsTrue result ↔ (((memtable_of state.now table.0 memtable).bound ≢ Bound.Live)
        × (RaisesAsWriter seat.now table.0 memtable to.0
        ⊎ RaisesAsHolder seat.now table.0 memtable to.0)) }
{
    bound_of(state, table, memtable) != Bound::Live && may_raise(seat, table.0, memtable, to.0)
}
