//! One write by hand, from opening a path to closing it.
ghost use Rattle.std.specs.Prelude.{◌≡◌};
ghost use Rattle.clog_mutation.specs.declared.mutation.Mutation.{Mutation};
ghost use Rattle.path_table.specs.Members.{IsOf};
ghost use Rattle.path_flush.specs.Seats.{Stays};
ghost use Rattle.write_path.specs.Writes.{IsPrepared};

use clog_base::{Key, Sizes, Table};
use clog_io::OpenGate;
use clog_mutation::decode;
use path_core::Keeper;
use path_machine::ListKeeper;
use std::alloc::Global;
use std::test::*;
use sync_core::SyncCore;
use write_path::{PathSeat, Prepared, TryClaim, WritePath};

/// Key `ab`, one update: table 0, column `cd`, timestamp 5, a deletion: 20 bytes.
const DELETION: &[u8] = b"\x00\x02ab\x00\x01\x00\x00\x02cd\x00\x00\x00\x00\x00\x00\x00\x05\x00";

fn is_shared<T: Sync>(_value: &T) {}

// Threads share a path, before and after its seats are handed out.
fn crosses<K: Keeper + Send>(path: &WritePath<K, Global>) {
    is_shared(path);
}

// What a write found: its range, its tables, and the memtable that it tried first.
#[derive(Clone, Copy, Drop)]
struct Written {
    start: Key,
    end: Key,
    tables: u16,
}

// A write by single tries, if none is refused.
fn write_once<K: Keeper>(
    path: &WritePath<K, Global>,
    sizes: Sizes,
    seat: PathSeat<K>,
    prepared: Prepared,
) -> (PathSeat<K>, Option<Written>)
    requires table { IsOf path.now.table.table.shared.table_id path.now.table.size seat.member }
    requires prepared { (m : Mutation) × IsPrepared sizes 1 m prepared }
    requires sizes { (sizes.tables ≡ path.now.table.size.tables)
        × (sizes.capacity ≡ path.now.table.size.capacity) }
    ensures { Stays path.now.table.table.shared.table_id path.now.table.size seat.member
        result.0.member }
{
    let begun = match path.try_start(seat) {
        Ok(begun) => begun,
        Err((seat, _)) => return (seat, None),
    };
    let appending = match path.try_append(begun) {
        Ok(appending) => appending,
        Err((begun, _)) => return (path.stop(begun), None),
    };
    let claimed = match path.try_claim(appending, prepared.size()) {
        TryClaim::Claimed(claimed) => claimed,
        TryClaim::Again(seat, _) => return (path.stop(path.stop_append(seat)), None),
        TryClaim::Spent(seat, _) => return (path.stop(path.stop_append(seat)), None),
    };
    let (deposited, rest) = path.deposit(claimed, prepared);
    let written = Written {
        start: deposited.start,
        end: deposited.end,
        tables: deposited.tables,
    };
    (
        path.end_write(deposited, rest, &OpenGate::new()),
        Some(written),
    )
}

#[test]
fn one_write_is_the_whole_history(rt: HostRuntime) -> Result<(), Fail> {
    let alloc = rt.alloc();
    let Some(sizes) = Sizes::make(16, 1, 4096, 4) else {
        return Err(Fail::new("no sizes"));
    };
    let prepared = Prepared::make(alloc, sizes, 1, decode(alloc, DELETION)?)?;
    assert_eq!(&rt; prepared.size(), 32);
    let keeper = ListKeeper::new(alloc, sizes, 7);
    let Ok(mut path) = WritePath::open(alloc, keeper, sizes, 7, SyncCore::batch()) else {
        return Err(Fail::new("no path"));
    };
    crosses(&path);
    let mut seats = path.seats(alloc)?;
    assert_eq!(&rt; seats.len(), 1);
    let Some(seat) = seats.pop() else {
        return Err(Fail::new("no seat"));
    };
    let (seat, written) = write_once(&path, sizes, seat, prepared);
    let Some(written) = written else {
        return Err(Fail::new("no write"));
    };
    let Written { start, end, tables } = written;
    assert_eq!(&rt; (start, end, tables), (Key(28), Key(60), 1));
    seats.push(seat)?;
    let (_keeper, outcome) = path.close(&rt, alloc, seats);
    // No memtable was switched.
    assert_eq!(&rt;
        (outcome.end, outcome.bounds.of(Table(0))),
        (Key(60), Key(0))
    );
    Ok(())
}
