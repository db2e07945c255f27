//! At the end of its share a writer flushes until no table is due: where another writer has a
//! table's turn, it tries again, unless a writer has had a fault.
ghost use Rattle.std.specs.Prelude.{◌≡◌, ℕ, ◌+◌, ◌≤◌, ◌^◌, IsSome, Some, None, true};
ghost use Rattle.clog_spec.specs.Sizes.{most_tables};
ghost use Rattle.clog_shares.specs.Crews.{KnowsWhy};
ghost use Rattle.clog_shares.specs.Tallied.{ArePaid, HasFlushedAll};
ghost use Rattle.clog_shares.specs.Tallies.{MayTally, Tallies, limit_of};
ghost use Rattle.path_rule.specs.Issued.{issued_in};
ghost use Rattle.path_table.specs.Members.{IsOf, view_of};
ghost use Rattle.write_path.specs.Commits.{KeepsList};

use crate::fault::WriteFault;
use crate::flushing::flush_tables;
use crate::stop_flag::{StopFlag, stopped_for_another};
use crate::tally::UpdateTally;
use path_core::Keeper;
use std::alloc::Global;
use std::sync::Wait;
use std::thread::yield_now;
use write_path::{PathSeat, WritePath};

// Flushes tables until no flush is due, or until one is refused or a writer has had a fault. No
// clause says that it returns.
fn flush_until_none<R: Wait, K: Keeper>(
    rt: &R,
    alloc: Global,
    path: &WritePath<K, Global>,
    stop_flag: &StopFlag,
    seat: PathSeat<K>,
    tally: UpdateTally,
) -> (PathSeat<K>, Option<WriteFault>)
    requires table { IsOf path.now.table.table.shared.table_id path.now.table.size seat.member }
    requires files { path.now.table.size.files ≡ true }
    requires tables { path.now.table.size.tables ≡ most_tables }
    requires some { 1 ≤ tally.most }
    requires spends { issued_in (view_of seat.member).trail + 128 ≤ 2 ^ 40 }
    ensures keeps { KeepsList path.now.table.table.shared.table_id path.now.table.size seat.member
        result.0.member }
    ensures why { KnowsWhy path.now.table.size result.1 result.0 }
    ensures issued { issued_in (view_of result.0.member).trail
        ≤ 128 + issued_in (view_of seat.member).trail }
    ensures flushed { result.1 ≡ None
        → Tallies seat.member.number tally (view_of seat.member).trail
        → HasFlushedAll (Some tally.most) result.0 }
    ensures paid { Tallies seat.member.number tally (view_of seat.member).trail
        → ArePaid (Some tally.most) seat.member.number (view_of result.0.member).trail }
{
    let mut seat = seat;
    let mut tally = tally;
    for _ in rt.forever() {
        if !tally.is_any_due() {
            return (seat, None);
        }
        if stop_flag.is_set() {
            return (seat, Some(stopped_for_another()));
        }
        let (next, left, fault) = flush_tables(rt, alloc, path, seat, tally);
        seat = next;
        tally = left;
        match fault {
            Some(fault) => return (seat, Some(fault)),
            None => {}
        }
        yield_now();
    }
    unreachable!()
}

/// Flushes tables until no flush is due, where the writer flushes: by `Busy` another writer has the
/// turn, and the flush is tried again, unless a writer has had a fault. It tells why one was
/// refused, if one was.
pub(crate) fn flush_rest<R: Wait, K: Keeper>(
    rt: &R,
    alloc: Global,
    path: &WritePath<K, Global>,
    stop_flag: &StopFlag,
    seat: PathSeat<K>,
    tally: Option<UpdateTally>,
) -> (PathSeat<K>, Option<WriteFault>)
    requires table { IsOf path.now.table.table.shared.table_id path.now.table.size seat.member }
    requires files { IsSome (limit_of tally) → path.now.table.size.files ≡ true }
    requires tables { path.now.table.size.tables ≡ most_tables }
    requires some { (most : ℕ) → limit_of tally ≡ Some most → 1 ≤ most }
    requires spends { issued_in (view_of seat.member).trail + 128 ≤ 2 ^ 40 }
    ensures keeps { KeepsList path.now.table.table.shared.table_id path.now.table.size seat.member
        result.0.member }
    ensures why { KnowsWhy path.now.table.size result.1 result.0 }
    ensures issued { issued_in (view_of result.0.member).trail
        ≤ 128 + issued_in (view_of seat.member).trail }
    ensures flushed { result.1 ≡ None
        → MayTally seat.member.number tally (view_of seat.member).trail
        → HasFlushedAll (limit_of tally) result.0 }
    ensures paid { MayTally seat.member.number tally (view_of seat.member).trail
        → ArePaid (limit_of tally) seat.member.number (view_of result.0.member).trail }
{
    match tally {
        Some(tally) => flush_until_none(rt, alloc, path, stop_flag, seat, tally),
        None => (seat, None),
    }
}
