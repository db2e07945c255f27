//! When a writer has the log synced while it logs, and why that was refused. In batch mode each
//! commit has the log synced; in periodic mode a writer asks the clock behind each of its commits
//! whether the period has passed since it last had the log synced (`CommitLog.sync` at each period
//! of `PeriodicCommitLogService`).
ghost use Rattle.std.specs.Prelude.{◌≡◌, ℕ, ◌+◌, ◌≤◌, ◌^◌, MatchOption, None};
ghost use Rattle.clog_shares.specs.Crews.{KnowsWhy};
ghost use Rattle.clog_shares.specs.Tallied.{OpensNone};
ghost use Rattle.clog_shares.specs.Timed.{HasNotSynced, KnowsSynced, SealsLast, SyncsWhenDue};
ghost use Rattle.path_rule.specs.Issued.{issued_in};
ghost use Rattle.path_table.specs.Members.{IsOf, view_of};
ghost use Rattle.sync_core.specs.Due.{IsDue};
ghost use Rattle.sync_core.specs.declared.SyncCore.TheVariants.{Batch, Periodic};
ghost use Rattle.write_path.specs.Commits.{KeepsList};

use crate::fault::{WriteFault, refusal_of};
use clog_io::Clock;
use path_core::Keeper;
use std::alloc::Global;
use std::sync::Wait;
use sync_core::{Decision, SyncCore};
use write_path::{PathSeat, WritePath};

/// How the log is synced while lines are logged.
#[derive(Clone, Copy)]
pub struct Syncing {
    /// In which mode.
    pub mode: SyncCore,
    /// The moment from which each writer's first period runs, in ms since the start of 1970.
    pub since_ms: u64,
}

// The moment, where a mode asks for a sync at it and no write waits for one.
fn due_at<C: Clock>(mode: SyncCore, clock: &C, last_ms: u64) -> Option<u64>
    ensures { MatchOption result
        ((period : ℕ) → mode ≡ Periodic period → (moment : ℕ) × C.tells clock.now moment
        × (IsDue mode moment last_ms 0 → ⊥))
        (λ moment. C.tells clock.now moment × IsDue mode moment last_ms 0) }
{
    if mode == SyncCore::Batch {
        return None;
    }
    let now_ms = clock.now_ms();
    match mode.decide(now_ms, last_ms, 0) {
        Decision::Sync => Some(now_ms),
        Decision::Not => None,
    }
}

// Syncs the log by a seat, and tells why that was refused, if it was.
fn sync_seat<R: Wait, K: Keeper>(
    rt: &R,
    alloc: Global,
    path: &WritePath<K, Global>,
    seat: PathSeat<K>,
) -> (PathSeat<K>, Option<WriteFault>)
    requires table { IsOf path.now.table.table.shared.table_id path.now.table.size seat.member }
    requires spends { issued_in (view_of seat.member).trail ≤ 2 ^ 40 }
    ensures keeps { KeepsList path.now.table.table.shared.table_id path.now.table.size seat.member
        result.0.member }
    ensures why { KnowsWhy path.now.table.size result.1 result.0 }
    ensures issued { issued_in (view_of result.0.member).trail
        ≤ 1 + issued_in (view_of seat.member).trail }
    ensures opened { OpensNone (view_of seat.member).trail (view_of result.0.member).trail }
    ensures synced { result.1 ≡ None → KnowsSynced result.0 }
    ensures seals { result.1 ≡ None → SealsLast seat result.0 }
{
    let (seat, answer) = path.sync(rt, alloc, seat);
    (seat, refusal_of(answer))
}

/// Syncs the log by a seat that has committed, where by the clock the period has passed since it
/// last had the log synced, at `last_ms`, in ms since the start of 1970. It tells when that was,
/// and why a sync was refused, if one was. In batch mode it does nothing.
pub(crate) fn sync_when_due<R: Wait, K: Keeper, C: Clock>(
    rt: &R,
    alloc: Global,
    path: &WritePath<K, Global>,
    mode: SyncCore,
    clock: &C,
    last_ms: u64,
    seat: PathSeat<K>,
) -> (PathSeat<K>, u64, Option<WriteFault>)
    requires table { IsOf path.now.table.table.shared.table_id path.now.table.size seat.member }
    requires spends { issued_in (view_of seat.member).trail ≤ 2 ^ 40 }
    ensures keeps { KeepsList path.now.table.table.shared.table_id path.now.table.size seat.member
        result.0.member }
    ensures why { KnowsWhy path.now.table.size result.2 result.0 }
    ensures issued { issued_in (view_of result.0.member).trail
        ≤ 1 + issued_in (view_of seat.member).trail }
    ensures opened { OpensNone (view_of seat.member).trail (view_of result.0.member).trail }
    ensures due { (period : ℕ) → mode ≡ Periodic period
        → SyncsWhenDue (C.tells clock.now) mode last_ms seat result.0 result.1 result.2 }
    ensures batch { mode ≡ Batch → HasNotSynced last_ms seat result.0 result.1 result.2 }
{
    match due_at(mode, clock, last_ms) {
        Some(now_ms) => {
            let (seat, fault) = sync_seat(rt, alloc, path, seat);
            (seat, now_ms, fault)
        }
        None => (seat, last_ms, None),
    }
}
