//! The file of a memtable that was read whole, with both turns in hand: the keeper puts it, where
//! the log is lasting up to the memtable's bound, and the memtable is retired.
ghost use Rattle.std.specs.Prelude.{◌≡◌, ◌^◌, ◌<◌, ◌≤◌, true, List, None};
ghost use Rattle.clog_base.specs.declared.cell.Cell.{Cell};
ghost use Rattle.clog_base.specs.declared.cell.CellKey.{CellKey};
ghost use Rattle.path_core.specs.Keys.{after};
ghost use Rattle.path_rule.specs.Filing.{MayPut, upper_of};
ghost use Rattle.path_rule.specs.FilingTold.{CarriesFiled, FoundFinal, TurnSynced, next_file};
ghost use Rattle.path_rule.specs.Flushes.{SeesNone, TakesNone};
ghost use Rattle.path_rule.specs.Layout.{numbers_end};
ghost use Rattle.path_rule.specs.Lasts.{shows_of};
ghost use Rattle.path_table.specs.Members.{view_of, part_of, hands_of, boxes_of, IsOf};
ghost use Rattle.path_flush.specs.FlushFilings.{AwaitsFile, HasBoth, HasTurns, Retired};
ghost use Rattle.path_flush.specs.FlushReads.{ReadSteps};
ghost use Rattle.path_flush.specs.FlushTurns.{HoldsBoth};
ghost use Rattle.path_flush.specs.Seats.{Stays};

use crate::flush_answer::Flush;
use crate::flush_noting::{drop_behind, note_fault};
use clog_base::{Key, Table};
use clog_cells::CellMap;
use path_core::Keeper;
use path_table::{Member, PathTable};
use std::alloc::Allocator;

// Reads a memtable no more, of which no box is in hand.
pub(crate) fn end_reading<K: Keeper, A: Allocator>(
    path: &PathTable<K, A>,
    member: Member<K>,
    table: Table,
) -> Member<K>
    requires table { IsOf path.now.table.shared.table_id path.now.size member }
    requires there { table.0 < path.now.size.tables }
    requires unread { TakesNone (hands_of member) }
    ensures same { Stays path.now.table.shared.table_id path.now.size member
        result × (boxes_of result ≡ boxes_of member) }
    ensures steps { ReadSteps member.number table.0 (view_of member) (view_of result) }
    ensures unread { (hands_of result).reading ≡ None }
{
    let mut member = member;
    let _newest = path.end_read(&mut member, table);
    member
}

// Retires a memtable in which nothing was seen, and which was found final at a key.
pub(crate) fn retire_void<K: Keeper, A: Allocator>(
    path: &PathTable<K, A>,
    member: Member<K>,
    table: Table,
    memtable: u64,
    bound: Key,
) -> (Member<K>, Flush)
    requires table { IsOf path.now.table.shared.table_id path.now.size member }
    requires there { memtable < numbers_end }
    requires holds { HoldsBoth (shows_of K.holds) table.0 member.seat.me }
    requires sees { SeesNone path.now.size.seats (hands_of member) table.0 memtable }
    requires bound { FoundFinal table.0 (part_of member) memtable bound.0 }
    ensures same { Stays path.now.table.shared.table_id path.now.size member
        result.0 }
    ensures holds { HasBoth (shows_of K.holds) table.0 result.0.seat.me }
    ensures unread { (hands_of result.0).reading ≡ None }
    ensures retired { Retired member.number table.0 memtable 0 (view_of member) result.1
        (view_of result.0) }
{
    let mut member = member;
    path.retire_empty(&mut member, table, memtable);
    (member, Flush::Empty(bound))
}

// Retires a memtable whose file the keeper on the desk has put, and drops what may go.
fn retire_put<K: Keeper, A: Allocator>(
    path: &PathTable<K, A>,
    member: Member<K>,
    table: Table,
    memtable: u64,
    lower: Key,
    bound: Key,
    synced: u64,
) -> (Member<K>, Flush)
    requires table { IsOf path.now.table.shared.table_id path.now.size member }
    requires there { memtable < numbers_end }
    requires files { path.now.size.files ≡ true }
    requires turns { HasTurns table.0 member.seat.me }
    requires turn { TurnSynced (part_of member) synced × (synced < 2 ^ 62)
        × (bound.0 ≤ after path.now.size.capacity synced) }
    requires file { (cells : List (CellKey × Cell))
        × AwaitsFile path.now.size.seats table.0 memtable bound.0 cells (view_of member)
        × CarriesFiled (shows_of K.holds)
        (next_file (hands_of member).lasting table.0 bound.0 cells) member.seat.me }
    requires lower { lower.0 ≡ upper_of table.0 (hands_of member).lasting.filed.files }
    ensures same { Stays path.now.table.shared.table_id path.now.size member
        result.0 }
    ensures holds { HasBoth (shows_of K.holds) table.0 result.0.seat.me }
    ensures unread { TakesNone (hands_of result.0) }
    ensures retired { Retired member.number table.0 memtable 0 (view_of member) result.1
        (view_of result.0) }
{
    let mut member = member;
    path.retire_filed(&mut member, table, memtable, bound);
    let (member, refused) = drop_behind(path, member, table, synced);
    match refused {
        Some(answer) => (member, answer),
        None => (
            member,
            Flush::Flushed {
                lower,
                upper: bound,
            },
        ),
    }
}

// Puts the file of a memtable up to whose bound the log is lasting, and retires the memtable.
pub(crate) fn put_file<K: Keeper, A: Allocator>(
    path: &PathTable<K, A>,
    member: Member<K>,
    table: Table,
    memtable: u64,
    bound: Key,
    cells: &CellMap,
    synced: u64,
) -> (Member<K>, Flush)
    requires table { IsOf path.now.table.shared.table_id path.now.size member }
    requires there { memtable < numbers_end }
    requires files { path.now.size.files ≡ true }
    requires holds { HasBoth (shows_of K.holds) table.0 member.seat.me }
    requires awaits { AwaitsFile path.now.size.seats table.0 memtable bound.0 cells.now
        (view_of member) }
    requires turn { TurnSynced (part_of member) synced × (synced < 2 ^ 62)
        × (bound.0 ≤ after path.now.size.capacity synced) }
    requires put { MayPut (hands_of member).lasting
        (next_file (hands_of member).lasting table.0 bound.0 cells.now) }
    ensures same { Stays path.now.table.shared.table_id path.now.size member
        result.0 }
    ensures holds { HasBoth (shows_of K.holds) table.0 result.0.seat.me }
    ensures unread { TakesNone (hands_of result.0) }
    ensures retired { Retired member.number table.0 memtable 0 (view_of member) result.1
        (view_of result.0) }
{
    let (member, lower) = path.last_upper(member, table);
    let (member, done) = path.put_table(member, table, lower, bound, cells);
    match done {
        Ok(()) => retire_put(path, member, table, memtable, lower, bound, synced),
        Err(fault) => note_fault(path, member, table, fault),
    }
}
