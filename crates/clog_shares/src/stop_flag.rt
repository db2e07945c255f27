//! The first fault of a writer ends the run of all: whoever has one tells it, and each other one
//! looks in front of its next commit, and at its end in front of each round of flushes, and stops
//! there. So a commit in hand is carried through, with the sync and the flushes that are due behind
//! it.
ghost use Rattle.std.specs.Prelude.{◌≡◌};
ghost use Rattle.clog_shares.specs.declared.fault.WriteFault.TheVariants.{
  OutOfMemory as no_memory,
};

use crate::fault::WriteFault;
use std::sync::atomic::{AtomicBool, Ordering};

/// What the writers of a run share: whether one of them has had a fault. Another thread may tell
/// one at any time, so no clause knows the answer.
#[derive(Drop)]
pub(crate) struct StopFlag {
    is_set: AtomicBool,
}

impl StopFlag {
    /// That of a run in which nobody has had a fault.
    pub(crate) fn new() -> StopFlag {
        StopFlag {
            is_set: AtomicBool::new(false),
        }
    }

    /// Tells the others of a writer's fault, if it has one.
    pub(crate) fn tell(&self, fault: Option<WriteFault>) {
        if fault.is_some() {
            self.is_set.store(true, Ordering::SeqCst);
        }
    }

    /// Whether a writer has had a fault.
    pub(crate) fn is_set(&self) -> bool {
        self.is_set.load(Ordering::SeqCst)
    }
}

/// The fault of a writer that has stopped for that of another one. Which one that was its own seat
/// has not found, so it is the fault of which nothing is to be found. A run answers any other fault
/// before this one (`first_of`), and where no writer has another one, memory is what was refused.
pub(crate) fn stopped_for_another() -> WriteFault
    ensures { result ≡ no_memory }
{
    WriteFault::OutOfMemory
}
