//! A writer flushes each table of which it has logged so many updates since its last finished flush
//! of it (Cassandra's memtable cleaner, which flushes once a limit is reached). Where another
//! writer has the table's turn, the count stays, and the flush stays due. So each memtable that is
//! opened is paid for by as many updates of its table.
ghost use Rattle.std.specs.Prelude.{◌≡◌, ◌≢◌, ◌+◌, ◌*◌, ◌^◌, ◌<◌, ◌≤◌, ℕ, IsSome, Some, None};
ghost use Rattle.std.specs.Prelude.{false, length, slice_index, slice_set, true};
ghost use Rattle.clog_spec.specs.Sizes.{most_tables};
ghost use Rattle.clog_shares.specs.Crews.{KnowsWhy};
ghost use Rattle.clog_shares.specs.Shares.{is_finished};
ghost use Rattle.clog_shares.specs.Tallied.{ArePaid};
ghost use Rattle.clog_shares.specs.Tallies.{AreNotDue, AreTried, IsNotDue, IsTried, MayTally};
ghost use Rattle.clog_shares.specs.Tallies.{MayTry, Tallies, due_at, due_below, limit_of};
ghost use Rattle.path_rule.specs.Issued.{issued_in};
ghost use Rattle.path_table.specs.Members.{IsOf, view_of};
ghost use Rattle.write_path.specs.Commits.{KeepsList};

use crate::fault::{WriteFault, refusal_by};
use crate::tally::UpdateTally;
use clog_base::{MOST_TABLES, Table};
use path_core::Keeper;
use std::alloc::Global;
use std::sync::Wait;
use write_path::{Flush, PathSeat, WritePath};

// The tally behind a flush of a table: none is left of it where the flush is finished.
fn tally_behind(tally: UpdateTally, table: Table, answer: Flush) -> UpdateTally
    requires { table.0 < most_tables }
    ensures most { result.most ≡ tally.most }
    ensures finished { is_finished answer ≡ true
        → result.counts ≡ slice_set tally.counts table.0 0 }
    ensures other { is_finished answer ≡ false → result ≡ tally }
{
    match answer {
        Flush::Flushed { .. } | Flush::Empty(_) => tally.without(table),
        Flush::Busy(_) | Flush::Stopped { .. } | Flush::OutOfMemory => tally,
    }
}

// Flushes a table where that is due. It tells why that was refused, if it was.
fn flush_table<R: Wait, K: Keeper>(
    rt: &R,
    alloc: Global,
    path: &WritePath<K, Global>,
    seat: PathSeat<K>,
    tally: UpdateTally,
    table: Table,
) -> (PathSeat<K>, UpdateTally, Option<WriteFault>)
    requires table { IsOf path.now.table.table.shared.table_id path.now.table.size seat.member }
    requires files { path.now.table.size.files ≡ true }
    requires tables { path.now.table.size.tables ≡ most_tables }
    requires there { table.0 < most_tables }
    requires spends { issued_in (view_of seat.member).trail ≤ 2 ^ 40 }
    ensures keeps { KeepsList path.now.table.table.shared.table_id path.now.table.size seat.member
        result.0.member }
    ensures why { KnowsWhy path.now.table.size result.2 result.0 }
    ensures most { result.1.most ≡ tally.most }
    ensures tallies { result.2 ≡ None
        → Tallies seat.member.number tally (view_of seat.member).trail
        → Tallies seat.member.number result.1 (view_of result.0.member).trail }
    ensures paid { Tallies seat.member.number tally (view_of seat.member).trail
        → ArePaid (Some tally.most) seat.member.number (view_of result.0.member).trail }
    ensures issued { issued_in (view_of result.0.member).trail
        ≤ 4 + issued_in (view_of seat.member).trail }
    ensures spends { result.2 ≡ None → 1 ≤ tally.most
        → issued_in (view_of result.0.member).trail + 4 * due_at result.1 table.0
        ≤ issued_in (view_of seat.member).trail + 4 * due_at tally table.0 }
    ensures idle { IsNotDue tally table.0 → (result.0 ≡ seat) × (result.1 ≡ tally) }
    ensures others { (t : ℕ) → t ≢ table.0
        → slice_index result.1.counts t ≡ slice_index tally.counts t }
    ensures tried { result.2 ≡ None → 1 ≤ tally.most
        → IsTried (length (view_of seat.member).trail) result.1 (view_of result.0.member).trail
        table.0 }
{
    if !tally.is_due(table) {
        return (seat, tally, None);
    }
    let (seat, answer) = path.flush(rt, alloc, seat, table);
    (seat, tally_behind(tally, table, answer), refusal_by(answer))
}

/// Flushes each table for which that is due, in ascending order, until one flush is refused.
pub(crate) fn flush_tables<R: Wait, K: Keeper>(
    rt: &R,
    alloc: Global,
    path: &WritePath<K, Global>,
    seat: PathSeat<K>,
    tally: UpdateTally,
) -> (PathSeat<K>, UpdateTally, Option<WriteFault>)
    requires table { IsOf path.now.table.table.shared.table_id path.now.table.size seat.member }
    requires files { path.now.table.size.files ≡ true }
    requires tables { path.now.table.size.tables ≡ most_tables }
    requires spends { issued_in (view_of seat.member).trail + 64 ≤ 2 ^ 40 }
    ensures keeps { KeepsList path.now.table.table.shared.table_id path.now.table.size seat.member
        result.0.member }
    ensures why { KnowsWhy path.now.table.size result.2 result.0 }
    ensures most { result.1.most ≡ tally.most }
    ensures tallies { result.2 ≡ None
        → Tallies seat.member.number tally (view_of seat.member).trail
        → Tallies seat.member.number result.1 (view_of result.0.member).trail }
    ensures paid { Tallies seat.member.number tally (view_of seat.member).trail
        → ArePaid (Some tally.most) seat.member.number (view_of result.0.member).trail }
    ensures issued { issued_in (view_of result.0.member).trail
        ≤ 64 + issued_in (view_of seat.member).trail }
    ensures spends { result.2 ≡ None → 1 ≤ tally.most
        → issued_in (view_of result.0.member).trail + 4 * due_below most_tables result.1
        ≤ issued_in (view_of seat.member).trail + 4 * due_below most_tables tally }
    ensures idle { ((t : ℕ) → t < most_tables → IsNotDue tally t)
        → (result.0 ≡ seat) × (result.1 ≡ tally) }
    ensures tried { result.2 ≡ None → AreTried (length (view_of seat.member).trail) result.1
        (view_of result.0.member).trail }
{
    let mut seat = seat;
    let mut tally = tally;
    for number in 0..MOST_TABLES {
        let (next, left, fault) = flush_table(rt, alloc, path, seat, tally, Table(number));
        seat = next;
        tally = left;
        match fault {
            None => {}
            Some(fault) => return (seat, tally, Some(fault)),
        }
    }
    (seat, tally, None)
}

/// Flushes each table for which that is due, in ascending order, where the writer flushes. It tells
/// why a flush was refused, if one was.
pub(crate) fn flush_due<R: Wait, K: Keeper>(
    rt: &R,
    alloc: Global,
    path: &WritePath<K, Global>,
    seat: PathSeat<K>,
    tally: Option<UpdateTally>,
) -> (PathSeat<K>, Option<UpdateTally>, Option<WriteFault>)
    requires table { IsOf path.now.table.table.shared.table_id path.now.table.size seat.member }
    requires files { IsSome (limit_of tally) → path.now.table.size.files ≡ true }
    requires tables { path.now.table.size.tables ≡ most_tables }
    requires spends { issued_in (view_of seat.member).trail + 64 ≤ 2 ^ 40 }
    ensures keeps { KeepsList path.now.table.table.shared.table_id path.now.table.size seat.member
        result.0.member }
    ensures why { KnowsWhy path.now.table.size result.2 result.0 }
    ensures issued { issued_in (view_of result.0.member).trail
        ≤ 64 + issued_in (view_of seat.member).trail }
    ensures limit { limit_of result.1 ≡ limit_of tally }
    ensures tallies { result.2 ≡ None
        → MayTally seat.member.number tally (view_of seat.member).trail
        → MayTally seat.member.number result.1 (view_of result.0.member).trail }
    ensures paid { MayTally seat.member.number tally (view_of seat.member).trail
        → ArePaid (limit_of tally) seat.member.number (view_of result.0.member).trail }
    ensures idle { AreNotDue tally → (result.0 ≡ seat) × (result.1 ≡ tally) }
    ensures tried { result.2 ≡ None → MayTry (length (view_of seat.member).trail) result.1
        (view_of result.0.member).trail }
{
    match tally {
        Some(counted) => {
            if !counted.is_any_due() {
                return (seat, tally, None);
            }
            let (seat, left, fault) = flush_tables(rt, alloc, path, seat, counted);
            (seat, Some(left), fault)
        }
        None => (seat, None, None),
    }
}
