//! A writer, and how it commits one write. In batch mode the commit waits for the sync of its
//! entry; in periodic mode the writer has the log synced behind it where the period has passed.
//! Then it flushes the tables of which it has logged so many updates, where it flushes.
ghost use Rattle.std.specs.Prelude.{◌≡◌, ℕ, ◌+◌, ◌<◌, ◌≤◌, ◌^◌, None, length};
ghost use Rattle.clog_mutation.specs.declared.mutation.Mutation.{Mutation};
ghost use Rattle.clog_applied.specs.History.{Line};
ghost use Rattle.clog_shares.specs.Crews.{KnowsWhy};
ghost use Rattle.clog_shares.specs.Sealing.{HasSealed, HasWaited};
ghost use Rattle.clog_shares.specs.Tallied.{ArePaid, IsCountedFor, OpensNone};
ghost use Rattle.clog_shares.specs.Tallies.{MayTally, MayTry, limit_of};
ghost use Rattle.clog_shares.specs.Timed.{TimesWrite};
ghost use Rattle.clog_shares.specs.Shares.{AddsWrite, MayAddWrite, fault_of, refusal_in};
ghost use Rattle.path_rule.specs.Issued.{issued_in};
ghost use Rattle.path_table.specs.Members.{IsOf, view_of};
ghost use Rattle.sync_core.specs.declared.SyncCore.TheVariants.{Batch, Periodic};
ghost use Rattle.path_flush.specs.Grown.{HasGrown};
ghost use Rattle.path_flush.specs.Seats.{Stays};
ghost use Rattle.write_path.specs.Writes.{IsPrepared};

use crate::fault::WriteFault;
use crate::flushing::flush_due;
use crate::run::Run;
use crate::stop_flag::stopped_for_another;
use crate::syncing::sync_when_due;
use crate::tally::{LineCounts, UpdateTally, tally_with};
use clog_io::{Clock, Gate};
use path_core::Keeper;
use std::alloc::Global;
use std::sync::Wait;
use write_path::{Commit, PathSeat, Prepared, SyncFault};

/// A writer: its seat of the path, and the writes of its share.
#[derive(Drop)]
pub struct Worker<K> {
    /// Its seat, once it was handed out. It has it but while it commits.
    pub seat: Option<PathSeat<K>>,
    /// The writes of its lines that are to come, in order.
    pub writes: Vec<Prepared>,
    /// How many updates of each table they have, where writers flush; else nothing.
    pub counts: Vec<LineCounts>,
    /// Why it has not logged all of its lines.
    pub fault: Option<WriteFault>,
}

// Why the sync that a write waited for was refused.
fn fault_of(fault: SyncFault) -> WriteFault
    ensures { result ≡ fault_of fault }
{
    match fault {
        SyncFault::Stopped { at_open, now } => WriteFault::Stopped { at_open, now },
        SyncFault::OutOfMemory => WriteFault::OutOfMemory,
    }
}

// Why a write was not logged, or not made lasting where it waited for that, if it was not.
fn refusal_in(commit: Commit) -> Option<WriteFault>
    ensures { result ≡ refusal_in commit }
{
    match commit {
        Commit::Logged(_) | Commit::Durable(_) => None,
        Commit::Unsynced(_, fault) => Some(fault_of(fault)),
        Commit::Spent(_, _) => Some(WriteFault::Spent),
    }
}

// Commits a write, and behind it has the log synced where that is due, since `last_ms` in periodic
// mode. It tells from when on the next period runs, in ms, and why the write was not logged, or a
// sync was refused.
fn commit_one<R: Wait, K: Keeper, G: Gate, C: Clock>(
    rt: &R,
    alloc: Global,
    run: &Run<'_, K, G, C>,
    last_ms: u64,
    seat: PathSeat<K>,
    prepared: Prepared,
) -> (PathSeat<K>, u64, Option<WriteFault>)
    requires table { let t = run.now.path.now.table in
        IsOf t.table.shared.table_id t.size seat.member }
    requires prepared { (line : ℕ) × (m : Mutation) × IsPrepared run.now.sizes line m prepared }
    requires spends { issued_in (view_of seat.member).trail < 2 ^ 40 }
    ensures same { let t = run.now.path.now.table in
        Stays t.table.shared.table_id t.size seat.member result.0.member }
    ensures grown { HasGrown (view_of seat.member).trail (view_of result.0.member).trail }
    ensures logged { result.2 ≡ None → AddsWrite seat.member.number prepared
        (view_of seat.member).trail (view_of result.0.member).trail }
    ensures may { MayAddWrite seat.member.number prepared (view_of seat.member).trail
        (view_of result.0.member).trail }
    ensures why { KnowsWhy run.now.path.now.table.size result.2 result.0 }
    ensures issued { issued_in (view_of result.0.member).trail
        ≤ 2 + issued_in (view_of seat.member).trail }
    ensures opened { OpensNone (view_of seat.member).trail (view_of result.0.member).trail }
    ensures sealed { run.now.syncing.mode ≡ Batch → HasSealed seat → result.2 ≡ None
        → HasSealed result.0 }
    ensures waited { run.now.syncing.mode ≡ Batch → HasSealed seat → HasWaited result.0 }
    ensures timed { (period : ℕ) → run.now.syncing.mode ≡ Periodic period → result.2 ≡ None
        → TimesWrite (C.tells run.now.clock.now) run.now.syncing.mode last_ms
        (view_of seat.member).trail (view_of result.0.member).trail result.1 }
{
    let (seat, commit) = run.path.commit(rt, alloc, seat, prepared, run.gate);
    match refusal_in(commit) {
        None => sync_when_due(
            rt,
            alloc,
            run.path,
            run.syncing.mode,
            run.clock,
            last_ms,
            seat,
        ),
        Some(fault) => (seat, last_ms, Some(fault)),
    }
}

/// Commits a write as `commit_one` does, unless a writer has had a fault, and behind it flushes
/// each table for which that is due then. It tells the tally, and why a flush was refused, if one
/// was.
pub(crate) fn commit_next<R: Wait, K: Keeper, G: Gate, C: Clock>(
    rt: &R,
    alloc: Global,
    run: &Run<'_, K, G, C>,
    last_ms: u64,
    tally: Option<UpdateTally>,
    seat: PathSeat<K>,
    prepared: Prepared,
    counts: Option<LineCounts>,
) -> (PathSeat<K>, u64, Option<UpdateTally>, Option<WriteFault>)
    requires table { let t = run.now.path.now.table in
        IsOf t.table.shared.table_id t.size seat.member }
    requires prepared { (line : ℕ) × (m : Mutation) × IsPrepared run.now.sizes line m prepared }
    requires limit { limit_of tally ≡ run.now.flush_at }
    requires spends { issued_in (view_of seat.member).trail + 66 ≤ 2 ^ 40 }
    ensures same { let t = run.now.path.now.table in
        Stays t.table.shared.table_id t.size seat.member result.0.member }
    ensures logged { result.3 ≡ None → AddsWrite seat.member.number prepared
        (view_of seat.member).trail (view_of result.0.member).trail }
    ensures may { MayAddWrite seat.member.number prepared (view_of seat.member).trail
        (view_of result.0.member).trail }
    ensures why { KnowsWhy run.now.path.now.table.size result.3 result.0 }
    ensures issued { issued_in (view_of result.0.member).trail
        ≤ 66 + issued_in (view_of seat.member).trail }
    ensures sealed { run.now.syncing.mode ≡ Batch → HasSealed seat → result.3 ≡ None
        → HasSealed result.0 }
    ensures waited { run.now.syncing.mode ≡ Batch → HasSealed seat → HasWaited result.0 }
    ensures timed { (period : ℕ) → run.now.syncing.mode ≡ Periodic period → result.3 ≡ None
        → TimesWrite (C.tells run.now.clock.now) run.now.syncing.mode last_ms
        (view_of seat.member).trail (view_of result.0.member).trail result.1 }
    ensures limit { limit_of result.2 ≡ limit_of tally }
    ensures tallies { result.3 ≡ None → (line : Line)
        → IsPrepared run.now.sizes line.number line.mutation prepared
        → IsCountedFor (limit_of tally) line.mutation counts
        → MayTally seat.member.number tally (view_of seat.member).trail
        → MayTally seat.member.number result.2 (view_of result.0.member).trail }
    ensures paid { (line : Line)
        → IsPrepared run.now.sizes line.number line.mutation prepared
        → IsCountedFor (limit_of tally) line.mutation counts
        → MayTally seat.member.number tally (view_of seat.member).trail
        → ArePaid (limit_of tally) seat.member.number (view_of result.0.member).trail }
    ensures tried { result.3 ≡ None → MayTry (length (view_of seat.member).trail) result.2
        (view_of result.0.member).trail }
{
    if run.stop_flag.is_set() {
        return (seat, last_ms, tally, Some(stopped_for_another()));
    }
    let (seat, synced_ms, fault) = commit_one(rt, alloc, run, last_ms, seat, prepared);
    match fault {
        None => {
            let tally = tally_with(tally, counts);
            let (seat, tally, fault) = flush_due(rt, alloc, run.path, seat, tally);
            (seat, synced_ms, tally, fault)
        }
        Some(fault) => (seat, synced_ms, tally, Some(fault)),
    }
}
