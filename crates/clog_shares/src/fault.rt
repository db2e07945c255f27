//! Why lines were not all logged by their writers.
ghost use Rattle.std.specs.Prelude.{◌≡◌, ◌⊎◌, ℕ, None};
ghost use Rattle.clog_shares.specs.Shares.{LacksMemoryAtMost, refusal_by, refusal_of};
ghost use Rattle.path_rule.specs.declared.answer.SyncAnswer.TheVariants.{Done};

use std::alloc::{AllocError, AllocFailed};
use write_path::{Flush, SyncAnswer};

/// Why lines were not all logged by their writers.
#[derive(Clone, Copy, Debug, PartialEq, Eq)]
pub enum WriteFault {
    /// Memory was refused. A writer that has stopped for another one's fault tells this too; the
    /// run then tells that other fault.
    OutOfMemory,
    /// The log has no further segment for a line. Other lines may be logged.
    Spent,
    /// The disk has failed.
    Stopped {
        /// Its count of faults when the store was opened.
        at_open: u64,
        /// The count now.
        now: u64,
    },
}

/// Why no line is written: what is taken before the first of them was refused.
#[derive(Clone, Copy, Debug, PartialEq, Eq)]
pub enum PlanFault {
    /// An entry is larger than half a segment's capacity.
    TooLarge {
        /// The first line whose entry is, from 1.
        line: u32,
        /// Its size in bytes, or the greatest `u32` where that is less.
        size: u32,
        /// The most bytes that an entry may have.
        most: u32,
    },
    /// Memory was refused.
    OutOfMemory,
}

impl From<AllocError> for PlanFault {
    ghost use Rattle.clog_shares.specs.declared.fault.PlanFault.TheVariants.{
      OutOfMemory as no_memory,
    };

    ghost from_gives = { λ _ e. e ≡ no_memory };

    fn from(_: AllocError) -> Self {
        PlanFault::OutOfMemory
    }
}

impl<T: Drop> From<AllocFailed<T>> for PlanFault {
    ghost use Rattle.clog_shares.specs.declared.fault.PlanFault.TheVariants.{
      OutOfMemory as no_memory,
    };

    ghost from_gives = { λ _ e. e ≡ no_memory };

    fn from(_: AllocFailed<T>) -> Self {
        PlanFault::OutOfMemory
    }
}

/// Why a sync was refused, if it was.
pub(crate) fn refusal_of(answer: SyncAnswer) -> Option<WriteFault>
    ensures is { result ≡ refusal_of answer }
    ensures done { result ≡ None → (key : ℕ) × (answer ≡ Done key) }
{
    match answer {
        SyncAnswer::Done(_) => None,
        SyncAnswer::Stopped { at_open, now } => Some(WriteFault::Stopped { at_open, now }),
        SyncAnswer::OutOfMemory => Some(WriteFault::OutOfMemory),
    }
}

/// Why a flush was refused, if it was: not where another seat has the turn.
pub(crate) fn refusal_by(answer: Flush) -> Option<WriteFault>
    ensures { result ≡ refusal_by answer }
{
    match answer {
        Flush::Flushed { .. } | Flush::Empty(_) | Flush::Busy(_) => None,
        Flush::Stopped { at_open, now } => Some(WriteFault::Stopped { at_open, now }),
        Flush::OutOfMemory => Some(WriteFault::OutOfMemory),
    }
}

/// The first of two faults that are no want of memory, and want of memory only where there is none:
/// it may be told by a writer that has stopped for another one's fault.
pub(crate) fn first_of(first: Option<WriteFault>, other: Option<WriteFault>) -> Option<WriteFault>
    ensures none { result ≡ None → (first ≡ None) × (other ≡ None) }
    ensures one { (result ≡ first) ⊎ (result ≡ other) }
    ensures memory { LacksMemoryAtMost result
        → LacksMemoryAtMost first × LacksMemoryAtMost other }
    ensures order { (LacksMemoryAtMost first → ⊥) → result ≡ first }
{
    match first {
        None | Some(WriteFault::OutOfMemory) => other.or(first),
        Some(_) => first,
    }
}
