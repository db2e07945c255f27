//! How a seat's part at one table changes with what it finds and does there.
ghost use Rattle.std.specs.Prelude.{◌≡◌, ◌+◌, ◌<◌, ◌^◌, Some};
ghost use Rattle.path_core.specs.declared.seat.FlushTurn.{FlushTurn};
ghost use Rattle.path_core.specs.SeatParts.{
  in_flush,
  bound_found,
  log_found,
  tries_bound,
  begins_at,
  key_found,
  reaches,
  with_barrier,
  barrier_issued,
};
ghost use Rattle.path_core.specs.SeatAfter.{
  left_table,
  raised_as_writer,
  raised_stage,
  raised_as_holder,
  place_cleared,
  newest_made,
};

use crate::bound::{ends_below, rises, takes};
use path_core::{Bound, FlushTurn, FoundBound, Marked, SeatTable, Switching};

/// The holder of the table's turn found the newest memtable.
pub(crate) fn newest_found(at: SeatTable, newest: u64) -> SeatTable
    ensures { result ≡ in_flush (λ (turn : FlushTurn). record turn { newest = Some newest }) at }
{
    match at.flush {
        Some(turn) => SeatTable {
            flush: Some(FlushTurn {
                newest: Some(newest),
                ..turn
            }),
            ..at
        },
        None => at,
    }
}

/// It cleared the place of the memtable to come.
pub(crate) fn place_cleared(at: SeatTable, memtable: u64) -> SeatTable
    ensures { result ≡ place_cleared memtable at }
{
    match at.flush {
        Some(turn) => SeatTable {
            flush: Some(FlushTurn {
                cleared: Some(memtable),
                ..turn
            }),
            ..at
        },
        None => at,
    }
}

/// It made that memtable, which is the newest.
pub(crate) fn newest_made(at: SeatTable, newest: u64) -> SeatTable
    ensures { result ≡ newest_made newest at }
{
    match at.flush {
        Some(turn) => SeatTable {
            flush: Some(FlushTurn {
                newest: Some(newest),
                cleared: None,
                ..turn
            }),
            ..at
        },
        None => at,
    }
}

/// The holder of the table's turn found the oldest live memtable, or put it.
pub(crate) fn oldest_live_found(at: SeatTable, oldest: u64) -> SeatTable
    ensures { result
        ≡ in_flush (λ (turn : FlushTurn). record turn { oldest_live = Some oldest }) at }
{
    match at.flush {
        Some(turn) => SeatTable {
            flush: Some(FlushTurn {
                oldest_live: Some(oldest),
                ..turn
            }),
            ..at
        },
        None => at,
    }
}

/// The bound of a memtable was found, or put.
pub(crate) fn bound_found(at: SeatTable, memtable: u64, bound: Bound) -> SeatTable
    ensures { result ≡ bound_found memtable bound at }
{
    let found = Some(FoundBound { memtable, bound });
    let flush = match at.flush {
        Some(turn) => Some(FlushTurn {
            bound: found,
            ..turn
        }),
        None => None,
    };
    SeatTable {
        bound: found,
        flush,
        ..at
    }
}

/// A switch has got to a stage.
pub(crate) fn reaches(at: SeatTable, stage: Switching) -> SeatTable
    ensures { result ≡ reaches stage at }
{
    match at.flush {
        Some(turn) => SeatTable {
            flush: Some(FlushTurn { stage, ..turn }),
            ..at
        },
        None => at,
    }
}

fn key_found(stage: Switching, key: u64) -> Switching
    ensures { result ≡ key_found key stage }
{
    match stage {
        Switching::Marked(marked) => Switching::Marked(Marked {
            key: Some(key),
            ..marked
        }),
        _ => stage,
    }
}

/// The log key was found; it counts for the memtable that is marked.
pub(crate) fn log_found(at: SeatTable, key: u64) -> SeatTable
    ensures { result ≡ log_found key at }
{
    match at.flush {
        Some(turn) => reaches(at, key_found(turn.stage, key)),
        None => at,
    }
}

/// The bound of a memtable was found by a write that ends at `end`, if it is deposited: one that
/// takes the write is its place, after one that is final below it the next is tried.
pub(crate) fn tries(at: SeatTable, end: Option<u64>, memtable: u64, bound: Bound) -> SeatTable
    requires { memtable + 1 < 2 ^ 64 }
    ensures { result ≡ tries_bound end memtable bound at }
{
    let Some(end) = end else {
        return at;
    };
    if at.trying != Some(memtable) {
        at
    } else if takes(bound, end) {
        SeatTable {
            place: Some(memtable),
            ..at
        }
    } else if ends_below(bound, end) {
        SeatTable {
            trying: Some(memtable + 1),
            ..at
        }
    } else {
        at
    }
}

/// The oldest live memtable is the first that a deposited write of the table tries.
pub(crate) fn begins_at(at: SeatTable, deposited: bool, oldest: u64) -> SeatTable
    ensures { result ≡ begins_at deposited oldest at }
{
    if deposited && at.trying.is_none() {
        SeatTable {
            trying: Some(oldest),
            ..at
        }
    } else {
        at
    }
}

/// The write is closed.
pub(crate) fn left(at: SeatTable) -> SeatTable
    ensures { result ≡ left_table at }
{
    SeatTable {
        trying: None,
        place: None,
        ..at
    }
}

/// A write that found the bound of its try raising has its place there.
pub(crate) fn raised_as_writer(
    at: SeatTable,
    deposited: bool,
    memtable: u64,
    bound: Bound,
) -> SeatTable
    ensures { result ≡ raised_as_writer deposited memtable bound at }
{
    if deposited && at.trying == Some(memtable) && rises(bound) {
        SeatTable {
            place: Some(memtable),
            ..at
        }
    } else {
        at
    }
}

fn raised_stage(stage: Switching, memtable: u64, to: u64) -> Switching
    ensures { result ≡ raised_stage memtable to stage }
{
    match stage {
        Switching::Marked(marked) => {
            let raises = marked.memtable == memtable && marked.key == Some(to);
            Switching::Marked(Marked {
                raised: marked.raised || raises,
                ..marked
            })
        }
        _ => stage,
    }
}

/// The holder of the table's turn has raised the memtable that it marked.
pub(crate) fn raised_as_holder(at: SeatTable, memtable: u64, to: u64) -> SeatTable
    ensures { result ≡ raised_as_holder memtable to at }
{
    match at.flush {
        Some(turn) => reaches(at, raised_stage(turn.stage, memtable, to)),
        None => at,
    }
}

fn with_barrier(stage: Switching, group: u64) -> Switching
    ensures { result ≡ with_barrier group stage }
{
    match stage {
        Switching::Waiting(memtable) => Switching::WithBarrier { memtable, group },
        _ => stage,
    }
}

/// Barriers were issued for the memtables that wait for one.
pub(crate) fn barrier_issued(at: SeatTable, group: u64) -> SeatTable
    ensures { result ≡ barrier_issued group at }
{
    match at.flush {
        Some(turn) => reaches(at, with_barrier(turn.stage, group)),
        None => at,
    }
}
