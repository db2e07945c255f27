//! A write of two tables, call by call.
ghost use Rattle.std.specs.Prelude.{◌≡◌, suc, ◌<◌, IfSome};
ghost use Rattle.clog_mutation.specs.declared.mutation.Mutation.{Mutation};
ghost use Rattle.path_core.specs.Parts.{touches};
ghost use Rattle.path_rule.specs.Layout.{numbers_end};
ghost use Rattle.path_table.specs.Members.{IsOf};
ghost use Rattle.write_path.specs.Applies.{HoldsUpdates, IsAppliedBelow, IsUnappliedFrom};
ghost use Rattle.write_path.specs.Ends.{IsUntriedFrom, IsWriteStill};
ghost use Rattle.path_flush.specs.Seats.{Stays};
ghost use Rattle.write_path.specs.Writes.{IsPrepared};

use crate::commits::{TWO_TABLES, one_seat, place, place_of, prepared};
use clog_base::{Position, Sizes, Table};
use path_core::Keeper;
use std::alloc::Global;
use std::test::*;
use sync_core::SyncCore;
use write_path::{Accept, Deposited, PathSeat, Prepared, TryClaim, WritePath};

fn touches(tables: u16, table: u8) -> bool
    requires { table < 16 }
    ensures { result ≡ touches tables table }
{
    tables >> table & 1 == 1
}

// At one table: the oldest live memtable is asked, and gets the write's updates where it says Yes.
fn apply_at<K: Keeper>(
    path: &WritePath<K, Global>,
    seat: Deposited<K>,
    rest: &mut Prepared,
    table: u8,
) -> Option<(Deposited<K>, u64)>
    requires table { IsOf path.now.table.table.shared.table_id path.now.table.size seat.member }
    requires there { table < path.now.table.size.tables }
    requires untried { IsUntriedFrom table seat }
    requires holds { HoldsUpdates seat rest.old }
    requires unapplied { IsUnappliedFrom table seat }
    ensures same { IfSome result (λ r. IsWriteStill path.now.table.table.shared.table_id
        path.now.table.size seat r.0) }
    ensures applied { IfSome result (λ r. IsAppliedBelow table seat
        → IsAppliedBelow (suc table) r.0) }
    ensures untried { IfSome result (λ r. IsUntriedFrom (suc table) r.0) }
    ensures holds { IfSome result (λ r. HoldsUpdates r.0 rest.new) }
    ensures unapplied { IfSome result (λ r. IsUnappliedFrom (suc table) r.0) }
{
    if !touches(seat.tables, table) {
        return None;
    }
    let mut seat = seat;
    let memtable = path.oldest(&mut seat, Table(table));
    match path.accept(&mut seat, Table(table), memtable) {
        Accept::Yes => {
            let seat = path.apply(seat, Table(table), memtable, rest);
            Some((seat, memtable))
        }
        Accept::Later(_) => None,
    }
}

// What a write found: where it ends, its tables, and the memtables that have its updates of tables
// 0 and 3.
#[derive(Clone, Copy, Debug, PartialEq, Eq)]
struct Applied {
    end: Position,
    tables: u16,
    zero: u64,
    three: u64,
}

// A deposited write of tables 0 and 3 is placed and ended.
fn place_and_end<K: Keeper>(
    path: &WritePath<K, Global>,
    seat: Deposited<K>,
    rest: Prepared,
) -> Option<(PathSeat<K>, u64, u64)>
    requires table { IsOf path.now.table.table.shared.table_id path.now.table.size seat.member }
    requires group { seat.writing < numbers_end }
    requires tables { path.now.table.size.tables ≡ 16 }
    requires untried { IsUntriedFrom 0 seat }
    requires holds { HoldsUpdates seat rest }
    requires unapplied { IsUnappliedFrom 0 seat }
    ensures { IfSome result (λ r. Stays path.now.table.table.shared.table_id path.now.table.size
        seat.member r.0.member) }
{
    if seat.tables != 9 {
        return None;
    }
    let mut rest = rest;
    let Some((seat, zero)) = apply_at(path, seat, &mut rest, 0) else {
        return None;
    };
    let Some((seat, three)) = apply_at(path, seat, &mut rest, 3) else {
        return None;
    };
    Some((path.finish(seat), zero, three))
}

// A write by single tries, if none is refused.
fn write_two_tables<K: Keeper>(
    path: &WritePath<K, Global>,
    sizes: Sizes,
    seat: PathSeat<K>,
    write: Prepared,
) -> Option<(PathSeat<K>, Applied)>
    requires table { IsOf path.now.table.table.shared.table_id path.now.table.size seat.member }
    requires prepared { (m : Mutation) × IsPrepared sizes 1 m write }
    requires tables { (sizes.tables ≡ 16) × (sizes.tables ≡ path.now.table.size.tables) }
    requires capacity { sizes.capacity ≡ path.now.table.size.capacity }
    ensures { IfSome result (λ r. Stays path.now.table.table.shared.table_id path.now.table.size
        seat.member r.0.member) }
{
    let Ok(begun) = path.try_start(seat) else {
        return None;
    };
    let Ok(appending) = path.try_append(begun) else {
        return None;
    };
    let TryClaim::Claimed(claimed) = path.try_claim(appending, write.size()) else {
        return None;
    };
    let (deposited, rest) = path.deposit(claimed, write);
    let end = place_of(deposited.end);
    let tables = deposited.tables;
    let Some((seat, zero, three)) = place_and_end(path, deposited, rest) else {
        return None;
    };
    Some((
        seat,
        Applied {
            end,
            tables,
            zero,
            three,
        },
    ))
}

#[test]
fn a_write_of_two_tables_is_applied_at_both(rt: HostRuntime) -> Result<(), Fail> {
    let alloc = rt.alloc();
    let Some(sizes) = Sizes::make(16, 1, 4096, 4) else {
        return Err(Fail::new("no sizes"));
    };
    let write = prepared(alloc, sizes, 1, TWO_TABLES)?;
    let (path, seat) = one_seat(alloc, sizes, SyncCore::batch())?;
    let Some((_seat, applied)) = write_two_tables(&path, sizes, seat, write) else {
        return Err(Fail::new("no write"));
    };
    let wanted = Applied {
        end: place(74),
        tables: 9,
        zero: 0,
        three: 0,
    };
    assert_eq!(&rt; applied, wanted);
    Ok(())
}
