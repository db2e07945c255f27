//! A flush of a table's memtable (`ColumnFamilyStore.Flush`). The seat takes the table's Flush
//! turn, which it holds until it is idle again. A memtable that an earlier flush or switch left
//! goes first. With the Sync turn beside it the newest one is switched, and a barrier issued. That
//! turn is given back while the barrier is waited for and what lies in the boxes of all seats is
//! gathered, and taken anew behind that. Where something lay there the log is made lasting up to
//! the memtable's bound, by at most one round of a sync, in front of which and behind which that
//! turn is given up and taken, and the keeper puts a table file; the memtable is retired, and
//! segments that files hold go. Then the seat gives both turns back.
ghost use Rattle.std.specs.Prelude.{◌^◌, ◌≡◌, ◌+◌, ◌<◌, ◌≤◌, ℕ, true, Some};
ghost use Rattle.path_core.specs.declared.seat.Switching.TheVariants.{Settled};
ghost use Rattle.path_core.specs.Parts.{stage_of};
ghost use Rattle.path_rule.specs.declared.view.View.{View};
ghost use Rattle.path_rule.specs.Issued.{issued_in, most_issued, opened_in};
ghost use Rattle.path_rule.specs.Layout.{numbers_end};
ghost use Rattle.path_rule.specs.Switches.{FlushNewest, FlushOldest};
ghost use Rattle.path_table.specs.Members.{view_of, part_of, IsOf};
ghost use Rattle.path_flush.specs.Flushed.{Flushes, FlushesBy, GotTurn};
ghost use Rattle.path_flush.specs.FlushSteps.{FindsAlone, QuietSteps};
ghost use Rattle.path_flush.specs.FlushTurns.{HoldsTable};
ghost use Rattle.path_flush.specs.Seats.{Stays};

use crate::flush_answer::Flush;
use crate::flush_ending::end_flush;
use crate::flush_retiring::{flush_left, retire_memtable};
use crate::flush_switch::switch_table;
use crate::flush_turn::{Memtables, look_memtables, take_sync_beside, take_table};
use crate::switching::leave_table;
use clog_base::Table;
use path_core::Keeper;
use path_table::{Member, PathSeat, PathTable};
use std::alloc::{Allocator, Global};
use std::sync::Wait;
use std::thread::yield_now;

// Switches the newest memtable, which was found to be the only one in use, and retires it.
fn flush_newest<K: Keeper, A: Allocator, R: Wait>(
    path: &PathTable<K, A>,
    rt: &R,
    alloc: Global,
    member: Member<K>,
    table: Table,
    newest: u64,
) -> (PathSeat<K>, Flush)
    requires table { IsOf path.now.table.shared.table_id path.now.size member }
    requires files { path.now.size.files ≡ true }
    requires holds { HoldsTable table.0 member.seat.me }
    requires settled { stage_of (part_of member) table.0 ≡ Some Settled }
    requires turn { FlushNewest table.0 (part_of member) newest
        × FlushOldest table.0 (part_of member) newest × (newest < numbers_end) }
    requires numbers { (opened_in (view_of member).trail ≤ issued_in (view_of member).trail)
        × (issued_in (view_of member).trail + 1 < most_issued) }
    ensures same { Stays path.now.table.shared.table_id path.now.size member
        result.0.member }
    ensures had { GotTurn result.1 }
    ensures flushes { (w : ℕ) (v : View) (q : QuietSteps w table.0 0 v (view_of member))
        → member.number ≡ w → FindsAlone table.0 newest q.made.steps
        → FlushesBy w table.0 2 v result.1 (view_of result.0.member) }
{
    let member = take_sync_beside(path, rt, member, table);
    let (member, _bound, group) = switch_table(path, rt, member, table, newest);
    let (member, answer) = retire_memtable(path, rt, alloc, member, table, newest);
    (end_flush(path, rt, member, table, group), answer)
}

// The same behind a memtable that was left. It looks until it finds the newest as the only one in
// use; no clause says that it does at its first look, nor that it returns.
fn flush_alone<K: Keeper, A: Allocator, R: Wait>(
    path: &PathTable<K, A>,
    rt: &R,
    alloc: Global,
    member: Member<K>,
    table: Table,
) -> (PathSeat<K>, Flush)
    requires table { IsOf path.now.table.shared.table_id path.now.size member }
    requires files { path.now.size.files ≡ true }
    requires holds { HoldsTable table.0 member.seat.me }
    requires settled { stage_of (part_of member) table.0 ≡ Some Settled }
    requires numbers { (opened_in (view_of member).trail ≤ issued_in (view_of member).trail)
        × (issued_in (view_of member).trail + 1 < most_issued) }
    ensures same { Stays path.now.table.shared.table_id path.now.size member
        result.0.member }
    ensures had { GotTurn result.1 }
    ensures flushes { FlushesBy member.number table.0 2 (view_of member) result.1
        (view_of result.0.member) }
{
    let mut member = member;
    for _ in rt.forever() {
        match look_memtables(path, &mut member, table) {
            Memtables::Free(newest) => return flush_newest(path, rt, alloc, member, table, newest),
            Memtables::Left(_) => yield_now(),
        }
    }
    unreachable!()
}

// A flush with the table's turn in hand. A memtable that was left goes first.
fn flush_taken<K: Keeper, A: Allocator, R: Wait>(
    path: &PathTable<K, A>,
    rt: &R,
    alloc: Global,
    member: Member<K>,
    table: Table,
) -> (PathSeat<K>, Flush)
    requires table { IsOf path.now.table.shared.table_id path.now.size member }
    requires files { path.now.size.files ≡ true }
    requires holds { HoldsTable table.0 member.seat.me }
    requires settled { stage_of (part_of member) table.0 ≡ Some Settled }
    requires numbers { (opened_in (view_of member).trail ≤ issued_in (view_of member).trail)
        × (issued_in (view_of member).trail ≤ 2 ^ 40) }
    ensures same { Stays path.now.table.shared.table_id path.now.size member
        result.0.member }
    ensures had { GotTurn result.1 }
    ensures flushes { FlushesBy member.number table.0 3 (view_of member) result.1
        (view_of result.0.member) }
{
    let mut member = member;
    let memtable = match look_memtables(path, &mut member, table) {
        Memtables::Left(memtable) => memtable,
        Memtables::Free(newest) => return flush_newest(path, rt, alloc, member, table, newest),
    };
    let (member, refused) = flush_left(path, rt, alloc, member, table, memtable);
    match refused {
        None => flush_alone(path, rt, alloc, member, table),
        Some(answer) => (leave_table(path, member, table), answer),
    }
}

/// Flushes a table's memtable (`ColumnFamilyStore.Flush`), over a path that is opened for table
/// files: what was live until then takes no write that begins later, and goes to a table file, if
/// something was written to it. The seat's list is as it was.
///
/// By `Flushed` and `Empty` the upper key was set in this call as the memtable's final bound, at or
/// above each write of that list, and a step of this call retired the memtable. `Empty`: the seat
/// saw nothing in the boxes of all seats, and nothing is placed in the memtable. `Flushed` has the
/// interval of the table file: the step gave the lower key, something was seen, and something is
/// placed in the memtable. `Stopped` has the keeper's count of faults at its opening and the one
/// that the log tells, as it was found or put in this call. `Busy` has what was found in the
/// table's turn word; the seat only looked. Behind `OutOfMemory` a memtable that the call had made
/// final waits for the next flush, which begins with it; behind `Stopped` it does, or the keeper
/// stopped behind its table file. What it switches it had found as the only one in use: a memtable
/// that an earlier call left has gone before. The call opens at most one memtable, which is of the
/// table, and issues at most three barriers: that of this one, and one of a sync for its table file
/// and for that of one that was left. By `Busy` it does neither.
///
/// Others sync, and flush other tables, while the barrier is waited for, and while the cells of the
/// table file are gathered; while the file is put they wait. No clause says that it returns.
pub fn flush_memtable<K: Keeper, A: Allocator, R: Wait>(
    path: &PathTable<K, A>,
    rt: &R,
    alloc: Global,
    seat: PathSeat<K>,
    table: Table,
) -> (PathSeat<K>, Flush)
    requires table { IsOf path.now.table.shared.table_id path.now.size seat.member }
    requires there { table.0 < path.now.size.tables }
    requires files { path.now.size.files ≡ true }
    requires spends { issued_in (view_of seat.member).trail ≤ 2 ^ 40 }
    ensures same { Stays path.now.table.shared.table_id path.now.size seat.member
        result.0.member }
    ensures flushes { Flushes seat.member.number table.0 (view_of seat.member) result.1
        (view_of result.0.member) }
{
    match take_table(path, seat, table) {
        Ok(member) => flush_taken(path, rt, alloc, member, table),
        Err((seat, found)) => (seat, Flush::Busy(found)),
    }
}
