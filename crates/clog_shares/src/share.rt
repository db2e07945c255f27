//! A writer in its thread: it commits the writes of its share, one after another, and flushes at
//! the end each table for which that is due still. It stops behind its commit in hand once a writer
//! has had a fault.
ghost use Rattle.std.specs.Prelude.{◌≡◌, ℕ, ◌*◌, ◌<◌, ◌≤◌, ◌^◌, List, [], length, None};
ghost use Rattle.clog_applied.specs.History.{Line};
ghost use Rattle.clog_shares.specs.Committed.{HasCommitted};
ghost use Rattle.clog_shares.specs.Crews.{HasLogged, IsReady};
ghost use Rattle.clog_shares.specs.Sealing.{HasSealed, WaitsShare};
ghost use Rattle.clog_shares.specs.Shares.{ArePrepared};
ghost use Rattle.clog_shares.specs.Tallied.{AreCountedFor, HasFlushedAll};
ghost use Rattle.clog_shares.specs.Tallies.{MayTally, limit_of};
ghost use Rattle.clog_shares.specs.Timed.{TimesShare};
ghost use Rattle.path_rule.specs.Issued.{issued_in};
ghost use Rattle.path_table.specs.Members.{IsOf, view_of};
ghost use Rattle.sync_core.specs.declared.SyncCore.TheVariants.{Batch, Periodic};

use crate::fault::WriteFault;
use crate::finishing::flush_rest;
use crate::run::Run;
use crate::tally::{LineCounts, UpdateTally, new_tally};
use crate::worker::{Worker, commit_next};
use clog_io::{Clock, Gate};
use path_core::Keeper;
use std::alloc::Global;
use std::mem;
use std::sync::Wait;
use write_path::{PathSeat, Prepared};

// Commits writes one after another, by a seat that has made no step, until one is refused, or a
// sync or a flush behind it, or until a writer has had a fault. In periodic mode the first period
// runs from the opening. It tells what the writer has logged since its last finished flush of each
// table, where it flushes.
fn commit_lines<R: Wait, K: Keeper, G: Gate, C: Clock>(
    rt: &R,
    alloc: Global,
    run: &Run<'_, K, G, C>,
    seat: PathSeat<K>,
    writes: Vec<Prepared>,
    counts: Vec<LineCounts>,
) -> (PathSeat<K>, Option<UpdateTally>, Option<WriteFault>)
    requires table { let t = run.now.path.now.table in
        IsOf t.table.shared.table_id t.size seat.member }
    requires prepared { (lines : List Line) × ArePrepared run.now.sizes lines writes.items
        × AreCountedFor run.now.flush_at lines counts.items }
    requires few { length writes.items < 2 ^ 32 }
    requires unused { (view_of seat.member).trail ≡ [] }
    ensures committed { let t = run.now.path.now.table in let s = run.now.syncing in
        HasCommitted t.table.shared.table_id t.size run.now.sizes run.now.flush_at
        (C.tells run.now.clock.now) s.mode s.since_ms writes.items seat result.0 result.2 }
    ensures sealed { run.now.syncing.mode ≡ Batch → result.2 ≡ None → HasSealed result.0 }
    ensures issued { issued_in (view_of result.0.member).trail ≤ 66 * length writes.items }
    ensures limit { limit_of result.1 ≡ run.now.flush_at }
    ensures tallies { result.2 ≡ None
        → MayTally seat.member.number result.1 (view_of result.0.member).trail }
{
    let mut seat = seat;
    let mut last_ms = run.syncing.since_ms;
    let mut tally = new_tally(run.flush_at);
    let mut counts = counts.into_iter();
    for prepared in writes {
        let (next, synced_ms, left, fault) = commit_next(
            rt,
            alloc,
            run,
            last_ms,
            tally,
            seat,
            prepared,
            counts.next(),
        );
        seat = next;
        last_ms = synced_ms;
        tally = left;
        match fault {
            None => {}
            Some(fault) => return (seat, tally, Some(fault)),
        }
    }
    (seat, tally, None)
}

// Commits writes as `commit_lines` does, and flushes at their end each table for which that is due
// still.
fn commit_writes<R: Wait, K: Keeper, G: Gate, C: Clock>(
    rt: &R,
    alloc: Global,
    run: &Run<'_, K, G, C>,
    seat: PathSeat<K>,
    writes: Vec<Prepared>,
    counts: Vec<LineCounts>,
) -> (PathSeat<K>, Option<WriteFault>)
    requires table { let t = run.now.path.now.table in
        IsOf t.table.shared.table_id t.size seat.member }
    requires prepared { (lines : List Line) × ArePrepared run.now.sizes lines writes.items
        × AreCountedFor run.now.flush_at lines counts.items }
    requires few { length writes.items < 2 ^ 32 }
    requires unused { (view_of seat.member).trail ≡ [] }
    ensures committed { let t = run.now.path.now.table in let s = run.now.syncing in
        HasCommitted t.table.shared.table_id t.size run.now.sizes run.now.flush_at
        (C.tells run.now.clock.now) s.mode s.since_ms writes.items seat result.0 result.1 }
    ensures flushed { result.1 ≡ None → HasFlushedAll run.now.flush_at result.0 }
{
    let (seat, tally, fault) = commit_lines(rt, alloc, run, seat, writes, counts);
    match fault {
        None => flush_rest(rt, alloc, run.path, &run.stop_flag, seat, tally),
        Some(fault) => (seat, Some(fault)),
    }
}

/// Commits the writes of a worker's share, until one is refused, which the other workers are told,
/// or until a writer has had a fault. Where there was none, in periodic mode the log was synced
/// behind each at which the clock told that the period had passed, before the next one. With
/// `flush_at` each table is flushed of which the writer has logged so many updates since its last
/// finished flush of it, behind each write, and at the end until none is left.
pub(crate) fn commit_share<R: Wait, K: Keeper, G: Gate, C: Clock>(
    rt: &R,
    alloc: Global,
    run: &Run<'_, K, G, C>,
    worker: &mut Worker<K>,
)
    requires ready { let t = run.now.path.now.table in (number : ℕ) × (lines : List Line)
        × IsReady t.table.shared.table_id t.size run.now.sizes run.now.flush_at number lines
        worker.old }
    ensures logged { let t = run.now.path.now.table in (number : ℕ) (lines : List Line)
        → IsReady t.table.shared.table_id t.size run.now.sizes run.now.flush_at number lines
        worker.old
        → HasLogged t.table.shared.table_id t.size run.now.flush_at number lines worker.new }
    ensures waited { run.now.syncing.mode ≡ Batch → WaitsShare worker.new }
    ensures timed { (period : ℕ) → run.now.syncing.mode ≡ Periodic period
        → TimesShare (C.tells run.now.clock.now) run.now.syncing.mode run.now.syncing.since_ms
        worker.new }
{
    let writes = mem::replace(&mut worker.writes, Vec::new(alloc));
    let counts = mem::replace(&mut worker.counts, Vec::new(alloc));
    match worker.seat.take() {
        Some(seat) => {
            let (seat, fault) = commit_writes(rt, alloc, run, seat, writes, counts);
            run.stop_flag.tell(fault);
            worker.seat = Some(seat);
            worker.fault = fault;
        }
        None => unreachable!(),
    }
}
