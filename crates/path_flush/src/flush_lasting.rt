//! The table file of a memtable is put once the log is lasting up to the memtable's bound.
ghost use Rattle.std.specs.Prelude.{◌≡◌, ◌<◌, true, None};
ghost use Rattle.path_rule.specs.Flushes.{TakesNone};
ghost use Rattle.path_rule.specs.Issued.{issued_in, most_issued};
ghost use Rattle.path_rule.specs.Layout.{numbers_end};
ghost use Rattle.path_rule.specs.Lasts.{shows_of};
ghost use Rattle.path_table.specs.Members.{view_of, hands_of, IsOf};
ghost use Rattle.path_flush.specs.FlushFilings.{AwaitsFile, HasBoth, LastsTo, Retired};
ghost use Rattle.path_flush.specs.Seats.{Stays};

use crate::flush_answer::Flush;
use crate::flush_filing::{end_reading, put_file};
use crate::flush_rounds::await_lasting;
use clog_base::{Key, Table};
use clog_cells::CellMap;
use path_core::Keeper;
use path_table::{Member, PathTable};
use std::alloc::{Allocator, Global};
use std::sync::Wait;

// Puts the file of a memtable up to whose bound the log is lasting, if it runs.
fn put_lasting<K: Keeper, A: Allocator>(
    path: &PathTable<K, A>,
    member: Member<K>,
    table: Table,
    memtable: u64,
    bound: Key,
    cells: &CellMap,
) -> (Member<K>, Flush)
    requires table { IsOf path.now.table.shared.table_id path.now.size member }
    requires there { memtable < numbers_end }
    requires files { path.now.size.files ≡ true }
    requires holds { HasBoth (shows_of K.holds) table.0 member.seat.me }
    requires awaits { AwaitsFile path.now.size.seats table.0 memtable bound.0 cells.now
        (view_of member) }
    requires lasts { LastsTo path.now.size.capacity bound.0 (view_of member).trail }
    ensures same { Stays path.now.table.shared.table_id path.now.size member
        result.0 }
    ensures holds { HasBoth (shows_of K.holds) table.0 result.0.seat.me }
    ensures unread { TakesNone (hands_of result.0) }
    ensures retired { Retired member.number table.0 memtable 0 (view_of member) result.1
        (view_of result.0) }
{
    let mut member = member;
    let now = path.look_stopped(&mut member);
    if now > 0 {
        let at_open = path.size().at_open;
        return (member, Flush::Stopped { at_open, now });
    }
    let synced = path.look_filed(&mut member, table, memtable, bound);
    put_file(path, member, table, memtable, bound, cells, synced)
}

// Puts the file of a memtable once the log is lasting up to its bound.
fn file_cells<K: Keeper, A: Allocator, R: Wait>(
    path: &PathTable<K, A>,
    rt: &R,
    alloc: Global,
    member: Member<K>,
    table: Table,
    memtable: u64,
    bound: Key,
    cells: &CellMap,
) -> (Member<K>, Flush)
    requires table { IsOf path.now.table.shared.table_id path.now.size member }
    requires there { memtable < numbers_end }
    requires files { path.now.size.files ≡ true }
    requires holds { HasBoth (shows_of K.holds) table.0 member.seat.me }
    requires awaits { AwaitsFile path.now.size.seats table.0 memtable bound.0 cells.now
        (view_of member) }
    requires spends { issued_in (view_of member).trail < most_issued }
    ensures same { Stays path.now.table.shared.table_id path.now.size member
        result.0 }
    ensures holds { HasBoth (shows_of K.holds) table.0 result.0.seat.me }
    ensures unread { TakesNone (hands_of result.0) }
    ensures retired { Retired member.number table.0 memtable 1 (view_of member) result.1
        (view_of result.0) }
{
    let (member, refused) = await_lasting(path, rt, alloc, member, table, bound);
    match refused {
        None => put_lasting(path, member, table, memtable, bound, cells),
        Some(answer) => (member, answer),
    }
}

// The same, where it reads the memtable no more then.
pub(crate) fn file_memtable<K: Keeper, A: Allocator, R: Wait>(
    path: &PathTable<K, A>,
    rt: &R,
    alloc: Global,
    member: Member<K>,
    table: Table,
    memtable: u64,
    bound: Key,
    cells: CellMap,
) -> (Member<K>, Flush)
    requires table { IsOf path.now.table.shared.table_id path.now.size member }
    requires there { memtable < numbers_end }
    requires files { path.now.size.files ≡ true }
    requires holds { HasBoth (shows_of K.holds) table.0 member.seat.me }
    requires awaits { AwaitsFile path.now.size.seats table.0 memtable bound.0 cells
        (view_of member) }
    requires spends { issued_in (view_of member).trail < most_issued }
    ensures same { Stays path.now.table.shared.table_id path.now.size member
        result.0 }
    ensures holds { HasBoth (shows_of K.holds) table.0 result.0.seat.me }
    ensures unread { (hands_of result.0).reading ≡ None }
    ensures retired { Retired member.number table.0 memtable 1 (view_of member) result.1
        (view_of result.0) }
{
    let (member, answer) = file_cells(path, rt, alloc, member, table, memtable, bound, &cells);
    (end_reading(path, member, table), answer)
}
