//! The steps that retire memtables and let segments go.
ghost use Rattle.std.specs.Prelude.{◌≡◌, ◌<◌, length, set, None};
ghost use Rattle.std.specs.List.{list_any};
ghost use Rattle.path_core.specs.declared.event.Event.{Event};
ghost use Rattle.path_core.specs.declared.state.PathState.{PathState};
ghost use Rattle.path_core.specs.Parts.{
  table_of,
  memtable_of,
  is_placed_in,
  has_place,
  is_empty,
  key_of_bound,
  last_upper,
};
ghost use Rattle.path_core.specs.declared.event.Reading.{Reading};
ghost use Rattle.path_core.specs.SeatAfter.{seat_after};
ghost use Rattle.path_machine.specs.Steps.{Names, Makes};

use crate::table_steps::oldest_live_found;
use clog_base::{OutOfMemory, Table};
use path_core::{Bound, Cursor, PathState, Placed, Seat, SyncTurn, WrittenFile};

fn is_placed_in(placed: &Placed, table: u64, memtable: u64) -> bool
    ensures { result ≡ is_placed_in table memtable placed.now }
{
    placed.table == table && placed.memtable == memtable
}

fn has_place(seat: &Seat, table: Table, memtable: u64) -> bool
    requires { table.0 < 16 }
    ensures { result ≡ has_place table.0 memtable seat.now }
{
    seat.tables[table.0 as usize].place == Some(memtable)
}

fn is_filled(placed: &[Placed], table: u64, memtable: u64) -> bool
    ensures { result ≡ list_any (is_placed_in table memtable) placed.now }
{
    placed
        .iter()
        .any(|placed| is_placed_in(placed, table, memtable))
}

fn is_being_filled(seats: &[Seat], table: Table, memtable: u64) -> bool
    requires { table.0 < 16 }
    ensures { result ≡ list_any (has_place table.0 memtable) seats.now }
{
    seats.iter().any(|seat| has_place(seat, table, memtable))
}

/// Whether no write was placed in the memtable.
pub(crate) fn is_empty(state: &PathState, table: Table, memtable: u64) -> bool
    requires { table.0 < 16 }
    ensures { result ≡ is_empty state.now table.0 memtable }
{
    !is_filled(state.placed.as_slice(), u64::from(table.0), memtable)
        && !is_being_filled(state.seats.as_slice(), table, memtable)
}

// The upper bound of a table's last file, 0 where there is none.
fn last_upper(files: &[WrittenFile], table: u64) -> u64
    ensures { result ≡ last_upper files.now table }
{
    let mut upper = 0;
    for file in files {
        if file.table == table {
            upper = file.upper;
        }
    }
    upper
}

fn key_of(bound: Bound) -> u64
    ensures { result ≡ key_of_bound bound }
{
    match bound {
        Bound::Live => 0,
        Bound::Raising(key) | Bound::Final(key) => key.0,
    }
}

/// The bound of a table's memtable; live where there is none.
pub(crate) fn oldest_bound(state: &PathState, table: Table, memtable: u64) -> Bound
    requires table { table.0 < length state.now.tables }
    ensures { result ≡ (memtable_of state.now table.0 memtable).bound }
{
    let memtables = state.tables.as_slice()[table.0 as usize]
        .memtables
        .as_slice();
    match memtables.get(memtable as usize) {
        Some(memtable) => memtable.bound,
        None => Bound::Live,
    }
}

fn retire(seat: &mut Seat, table: Table, oldest: u64, files: bool)
    requires { table.0 < 16 }
    ensures { seat.new ≡ seat_after seat.old
        (Event.Put 0 (Cursor.OldestLive table) oldest) (Reading.Number 0)
        (record { files = files; marker = None }) }
{
    let i = table.0 as usize;
    seat.tables[i] = oldest_live_found(seat.tables[i], oldest);
    if let Some(turn) = seat.sync {
        seat.sync = Some(SyncTurn {
            filed: turn.filed || files,
            ..turn
        });
    }
}

fn put_oldest_live(state: &mut PathState, table: Table, oldest: u64)
    requires { table.0 < length state.old.tables }
    ensures { state.new ≡ record state.old {
      tables = set state.old.tables table.0
          (record (table_of state.old table.0) { oldest_live = oldest });
    } }
{
    let tables = &mut state.tables;
    let retired = &mut tables.items[table.0 as usize];
    retired.oldest_live = oldest;
}

pub(crate) fn make_retire(
    state: &mut PathState,
    by: u8,
    table: Table,
    oldest: u64,
) -> Result<(), OutOfMemory>
    requires { Names state.old (Event.Put by (Cursor.OldestLive table) oldest) }
    ensures { Makes result state.old state.new (Event.Put by (Cursor.OldestLive table) oldest) }
{
    let memtable = state.tables.as_slice()[table.0 as usize].oldest_live;
    let empty = is_empty(state, table, memtable);
    if empty {
        put_oldest_live(state, table, oldest);
    } else {
        let number = u64::from(table.0);
        let file = WrittenFile {
            table: number,
            memtable,
            lower: last_upper(state.files.as_slice(), number),
            upper: key_of(oldest_bound(state, table, memtable)),
        };
        let files = &mut state.files;
        files.items.push(file)?;
        put_oldest_live(state, table, oldest);
    }
    let seats = &mut state.seats;
    retire(&mut seats.items[by as usize], table, oldest, !empty);
    Ok(())
}
