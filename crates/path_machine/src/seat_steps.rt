//! How a seat's part changes with its own step.
ghost use Rattle.std.specs.Prelude.{◌≡◌, ◌<◌, map, Some, None};
ghost use Rattle.path_core.specs.declared.seat.SyncTurn.{SyncTurn};
ghost use Rattle.path_core.specs.declared.seat.SeatTable.{SeatTable};
ghost use Rattle.path_core.specs.Parts.{touches};
ghost use Rattle.path_core.specs.SeatParts.{in_sync, log_found, deposited_end, has_note_of};
ghost use Rattle.path_core.specs.SeatAfter.{left_table, looked, registered};
ghost use Rattle.path_machine.specs.SeatSteps.{NamesTable};

use crate::groups_known::{GroupWord, keep};
use crate::table_steps::{
    begins_at, bound_found, left, log_found, newest_found, oldest_live_found, tries,
};
use clog_base::Table;
use op_core::{Order, Tally};
use path_core::{Bound, Cursor, Place, Reading, Seat, SeatTable, SyncTurn};

/// The end of the claim of a seat that has deposited its note, if it has.
pub(crate) fn deposited_end(seat: &Seat) -> Option<u64>
    ensures { result ≡ deposited_end seat.now }
{
    match (seat.note, seat.claim) {
        (Some(_), Some(claim)) => Some(claim.end),
        _ => None,
    }
}

/// Whether the set of tables holds the table.
pub(crate) fn touches(tables: u16, table: u8) -> bool
    requires { table < 16 }
    ensures { result ≡ touches tables table }
{
    tables >> table & 1 == 1
}

fn has_note_of(seat: &Seat, table: Table) -> bool
    requires { table.0 < 16 }
    ensures { result ≡ has_note_of seat.now table.0 }
{
    seat.note.is_some_and(|tables| touches(tables, table.0))
}

fn find_log_at(tables: &mut [SeatTable], key: u64)
    ensures { tables.new ≡ map (log_found key) tables.old }
{
    for at in tables.iter_mut() {
        *at = log_found(*at, key);
    }
}

fn find_log(seat: &mut Seat, key: u64)
    ensures { seat.new ≡ record seat.old {
      found = record seat.old.found { log = Some key };
      tables = map (log_found key) seat.old.tables;
    } }
{
    seat.found.log = Some(key);
    find_log_at(&mut seat.tables, key);
}

pub(crate) fn find_synced(seat: &mut Seat, key: u64)
    ensures { seat.new ≡ in_sync (λ (turn : SyncTurn). record turn { synced = Some key })
        (record seat.old { found = record seat.old.found { synced = Some key } }) }
{
    seat.found.synced = Some(key);
    if let Some(turn) = seat.sync {
        seat.sync = Some(SyncTurn {
            synced: Some(key),
            ..turn
        });
    }
}

pub(crate) fn find_stopped(seat: &mut Seat, faults: u64)
    ensures { seat.new ≡ in_sync (λ (turn : SyncTurn). record turn { stopped = Some faults })
        (record seat.old { found = record seat.old.found { stopped = Some faults } }) }
{
    seat.found.stopped = Some(faults);
    if let Some(turn) = seat.sync {
        seat.sync = Some(SyncTurn {
            stopped: Some(faults),
            ..turn
        });
    }
}

fn find_count(seat: &mut Seat, order: Order, group: u64, tally: Tally)
    ensures { seat.new ≡ looked seat.old (Place.Count order group) (Reading.Operations tally) }
{
    if tally == Tally::Expired(0) {
        keep(seat, order, GroupWord::Finished(group));
    }
}

fn find_bound(seat: &mut Seat, table: Table, memtable: u64, bound: Bound)
    requires table { table.0 < 16 }
    requires memtable { memtable < 18446744073709551615 }
    ensures { seat.new ≡ looked seat.old (Place.Bound table memtable) (Reading.Limit bound) }
{
    let end = deposited_end(seat);
    let at = bound_found(seat.tables[table.0 as usize], memtable, bound);
    seat.tables[table.0 as usize] = tries(at, end, memtable, bound);
}

fn find_oldest_live(seat: &mut Seat, table: Table, oldest: u64)
    requires { table.0 < 16 }
    ensures { seat.new
        ≡ looked seat.old (Place.CursorWord (Cursor.OldestLive table)) (Reading.Number oldest) }
{
    let deposited = has_note_of(seat, table);
    let at = oldest_live_found(seat.tables[table.0 as usize], oldest);
    seat.tables[table.0 as usize] = begins_at(at, deposited, oldest);
}

/// After a Look that found this.
pub(crate) fn look(seat: &mut Seat, at: Place, found: Reading)
    requires { NamesTable at }
    ensures { seat.new ≡ looked seat.old at found }
{
    match (at, found) {
        (Place::Count(order, group), Reading::Operations(tally)) => {
            find_count(seat, order, group, tally)
        }
        (Place::Current(order), Reading::Number(group)) => {
            keep(seat, order, GroupWord::Current(group))
        }
        (Place::Oldest(order), Reading::Number(group)) => {
            keep(seat, order, GroupWord::Oldest(group))
        }
        (Place::Log, Reading::Number(key)) => find_log(seat, key),
        (Place::Newest(table), Reading::Number(newest)) => {
            let i = table.0 as usize;
            seat.tables[i] = newest_found(seat.tables[i], newest);
        }
        (Place::Bound(table, memtable), Reading::Limit(bound)) => {
            find_bound(seat, table, memtable, bound)
        }
        (Place::CursorWord(cursor), Reading::Number(value)) => look_cursor(seat, cursor, value),
        _ => {}
    }
}

fn look_cursor(seat: &mut Seat, cursor: Cursor, value: u64)
    requires { NamesTable (Place.CursorWord cursor) }
    ensures { seat.new ≡ looked seat.old (Place.CursorWord cursor) (Reading.Number value) }
{
    match cursor {
        Cursor::Synced => find_synced(seat, value),
        Cursor::OldestLive(table) => find_oldest_live(seat, table, value),
        Cursor::Stopped => find_stopped(seat, value),
    }
}

pub(crate) fn register(seat: &mut Seat, order: Order, group: u64)
    ensures { seat.new ≡ registered order group seat.old }
{
    match order {
        Order::Write => seat.write = Some(group),
        Order::Append => seat.append = Some(group),
    }
}

fn leave(tables: &mut [SeatTable])
    ensures { tables.new ≡ map left_table tables.old }
{
    for at in tables.iter_mut() {
        *at = left(*at);
    }
}

/// The write is closed: the seat is idle, and keeps its turns and what it found.
pub(crate) fn become_idle(seat: &mut Seat)
    ensures { seat.new ≡ record seat.old {
      write = None;
      claim = None;
      note = None;
      tables = map left_table seat.old.tables;
    } }
{
    seat.write = None;
    seat.claim = None;
    seat.note = None;
    leave(&mut seat.tables);
}
