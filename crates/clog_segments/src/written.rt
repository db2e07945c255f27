//! What a store is handed and keeps: sections, the segments that it has left, and why it refuses.
ghost use Rattle.std.specs.Prelude.{◌≡◌};

use crate::payloads::Payloads;
use clog_base::OutOfMemory;
use std::alloc::{AllocError, AllocFailed};
use std::marker::Model;

/// A section as it was handed over: where it ends, and, for contracts alone, its entries' payloads.
#[derive(Drop)]
pub struct Written {
    /// Where it ends in its segment's file, in bytes, exclusive.
    pub until: u64,
    /// The payloads of its entries, in their order.
    pub payloads: Payloads,
}

impl Model for Written {
    ghost use Rattle.clog_scan.specs.Cut.{Section};

    ghost Value = { Section };

    ghost view = { λ w. record { until = w.until; payloads = w.payloads } };
}

/// A segment that the log has left: its id, and its sections, all of which last.
#[derive(Drop)]
pub struct PastSegment {
    /// Its id.
    pub id: u64,
    /// Its sections, in their order.
    pub sections: Vec<Written>,
}

impl Model for PastSegment {
    ghost use Rattle.clog_crash.specs.Log.{Write};

    ghost Value = { Write };

    ghost view = { λ s. record { id = s.id; sections = s.sections.items } };
}

/// Why a store did not write a section, or did not make it last.
#[derive(Clone, Copy, Debug, PartialEq, Eq)]
pub enum StoreFault {
    /// The disk has failed, in this call or in an earlier one.
    Stopped,
    /// Memory was refused. The section is not there, or is kept.
    OutOfMemory,
}

impl From<AllocError> for StoreFault {
    ghost use Rattle.clog_segments.specs.declared.written.StoreFault.TheVariants.{OutOfMemory};

    ghost from_gives = { λ _ e. e ≡ OutOfMemory };

    fn from(_: AllocError) -> Self {
        StoreFault::OutOfMemory
    }
}

impl From<OutOfMemory> for StoreFault {
    ghost use Rattle.clog_segments.specs.declared.written.StoreFault.TheVariants.{
      OutOfMemory as no_memory,
    };

    ghost from_gives = { λ _ e. e ≡ no_memory };

    fn from(_: OutOfMemory) -> Self {
        StoreFault::OutOfMemory
    }
}

impl<T: Drop> From<AllocFailed<T>> for StoreFault {
    ghost use Rattle.clog_segments.specs.declared.written.StoreFault.TheVariants.{OutOfMemory};

    ghost from_gives = { λ _ e. e ≡ OutOfMemory };

    fn from(_: AllocFailed<T>) -> Self {
        StoreFault::OutOfMemory
    }
}
