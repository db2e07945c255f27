//! A memtable is read whole behind its passed barrier, and retired: with a table file where
//! something was seen. For the reading the table's turn is enough, so commits that wait for a sync,
//! and flushes of other tables, go on meanwhile; the Sync turn is taken behind it.
ghost use Rattle.std.specs.Prelude.{◌≡◌, ◌≢◌, ◌<◌, ℕ, true, None, Some};
ghost use Rattle.path_core.specs.declared.seat.Switching.TheVariants.{Settled};
ghost use Rattle.path_core.specs.Parts.{stage_of};
ghost use Rattle.path_rule.specs.Issued.{issued_in, most_issued};
ghost use Rattle.path_rule.specs.Layout.{numbers_end};
ghost use Rattle.path_rule.specs.Lasts.{shows_of};
ghost use Rattle.path_rule.specs.Switches.{FlushNewest, FlushOldest, MayBeginRead};
ghost use Rattle.path_table.specs.Members.{view_of, part_of, hands_of, IsOf};
ghost use Rattle.path_flush.specs.FlushFilings.{FilingSteps, HasBoth, PassesLeft, Retired};
ghost use Rattle.path_flush.specs.FlushFilings.{unless_retired};
ghost use Rattle.path_flush.specs.FlushGathers.{HasGathered};
ghost use Rattle.path_flush.specs.FlushTurns.{HasTable, HoldsBoth, HoldsTable};
ghost use Rattle.path_flush.specs.Seats.{Stays};

use crate::flush_answer::Flush;
use crate::flush_ending::give_sync_beside;
use crate::flush_filing::{end_reading, retire_void};
use crate::flush_gathering::{Gathered, gather_apart};
use crate::flush_lasting::file_memtable;
use crate::flush_reading::start_read;
use crate::flush_turn::take_sync_beside;
use clog_base::Table;
use path_core::Keeper;
use path_table::{Member, PathTable};
use std::alloc::{Allocator, Global};
use std::sync::Wait;

// What is answered behind a memtable that was left, where it was not retired.
fn unless_retired(answer: Flush) -> Option<Flush>
    ensures { result ≡ unless_retired answer }
{
    match answer {
        Flush::Flushed { .. } => None,
        Flush::Empty(_) => None,
        Flush::Busy(_) => Some(answer),
        Flush::Stopped { .. } => Some(answer),
        Flush::OutOfMemory => Some(answer),
    }
}

// Reads a memtable whole, behind its passed barrier, and takes the Sync turn then: nothing more
// comes into the memtable, whoever syncs meanwhile.
fn read_whole<K: Keeper, A: Allocator, R: Wait>(
    path: &PathTable<K, A>,
    rt: &R,
    alloc: Global,
    member: Member<K>,
    table: Table,
    memtable: u64,
) -> (Member<K>, Gathered)
    requires table { IsOf path.now.table.shared.table_id path.now.size member }
    requires there { memtable < numbers_end }
    requires holds { HasTable table.0 member.seat.me }
    requires stage { MayBeginRead table.0 (view_of member) memtable }
    requires oldest { FlushOldest table.0 (part_of member) memtable }
    requires unread { (hands_of member).reading ≡ None }
    ensures same { Stays path.now.table.shared.table_id path.now.size member
        result.0 }
    ensures holds { HoldsBoth (shows_of K.holds) table.0 result.0.seat.me }
    ensures opened { (hands_of result.0).lasting.at_open ≡ path.now.size.at_open }
    ensures steps { FilingSteps member.number table.0 0 (view_of member) (view_of result.0) }
    ensures gathered { HasGathered path.now.size.seats table memtable result.1
        (hands_of result.0) }
{
    let member = start_read(path, alloc, member, table, memtable);
    let (member, read) = gather_apart(path, alloc, member, table, memtable);
    (take_sync_beside(path, rt, member, table), read)
}

// Reads a memtable whole, behind its passed barrier, and retires it: with a file where something
// was seen. The table's turn is held before it, and both behind it.
pub(crate) fn retire_memtable<K: Keeper, A: Allocator, R: Wait>(
    path: &PathTable<K, A>,
    rt: &R,
    alloc: Global,
    member: Member<K>,
    table: Table,
    memtable: u64,
) -> (Member<K>, Flush)
    requires table { IsOf path.now.table.shared.table_id path.now.size member }
    requires there { memtable < numbers_end }
    requires files { path.now.size.files ≡ true }
    requires holds { HasTable table.0 member.seat.me }
    requires stage { MayBeginRead table.0 (view_of member) memtable }
    requires oldest { FlushOldest table.0 (part_of member) memtable }
    requires unread { (hands_of member).reading ≡ None }
    requires spends { issued_in (view_of member).trail < most_issued }
    ensures same { Stays path.now.table.shared.table_id path.now.size member
        result.0 }
    ensures holds { HasBoth (shows_of K.holds) table.0 result.0.seat.me }
    ensures unread { (hands_of result.0).reading ≡ None }
    ensures retired { Retired member.number table.0 memtable 1 (view_of member) result.1
        (view_of result.0) }
{
    let (mut member, read) = read_whole(path, rt, alloc, member, table, memtable);
    let bound = path.look_read_bound(&mut member, table, memtable);
    match read {
        Gathered::Nothing => retire_void(path, member, table, memtable, bound),
        Gathered::Cells(cells) => {
            file_memtable(path, rt, alloc, member, table, memtable, bound, cells)
        }
        Gathered::OutOfMemory => (end_reading(path, member, table), Flush::OutOfMemory),
    }
}

// Retires a memtable that an earlier flush or switch left. Where it cannot be, or the keeper
// stops behind its file, that is answered.
pub(crate) fn flush_left<K: Keeper, A: Allocator, R: Wait>(
    path: &PathTable<K, A>,
    rt: &R,
    alloc: Global,
    member: Member<K>,
    table: Table,
    memtable: u64,
) -> (Member<K>, Option<Flush>)
    requires table { IsOf path.now.table.shared.table_id path.now.size member }
    requires files { path.now.size.files ≡ true }
    requires there { memtable < numbers_end }
    requires holds { HoldsTable table.0 member.seat.me }
    requires settled { stage_of (part_of member) table.0 ≡ Some Settled }
    requires left { FlushOldest table.0 (part_of member) memtable
        × ((n : ℕ) × FlushNewest table.0 (part_of member) n × (memtable ≢ n)) }
    requires spends { issued_in (view_of member).trail < most_issued }
    ensures same { Stays path.now.table.shared.table_id path.now.size member
        result.0 }
    ensures holds { HoldsTable table.0 result.0.seat.me }
    ensures settled { stage_of (part_of result.0) table.0 ≡ Some Settled }
    ensures passed { PassesLeft member.number table.0 memtable (view_of member) result.1
        (view_of result.0) }
{
    let mut member = member;
    // A look behind those that found it: it lies below the newest.
    let _turn = path.look_turn(&mut member);
    let (member, answer) = retire_memtable(path, rt, alloc, member, table, memtable);
    (
        give_sync_beside(path, member, table),
        unless_retired(answer),
    )
}
