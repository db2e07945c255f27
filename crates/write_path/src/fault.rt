//! Why a write was not prepared.
ghost use Rattle.std.specs.Prelude.{◌≡◌};

use clog_base::OutOfMemory;
use clog_notes::LargeEntry;
use std::alloc::{AllocError, AllocFailed};

/// Why a write was not prepared.
#[derive(Clone, Copy, Debug, PartialEq, Eq)]
pub enum PrepareFault {
    /// Its entry is larger than half a segment's capacity.
    TooLarge {
        /// The bytes of the entry, or the greatest `u32` where that is less.
        size: u32,
        /// The most bytes that an entry may have.
        max: u32,
    },
    /// Memory was refused.
    OutOfMemory,
}

impl From<LargeEntry> for PrepareFault {
    ghost use Rattle.write_path.specs.declared.fault.PrepareFault.TheVariants.{
      TooLarge as too_large,
    };

    ghost from_gives = { λ large e. e ≡ too_large large.size large.max };

    fn from(large: LargeEntry) -> Self {
        PrepareFault::TooLarge {
            size: large.size,
            max: large.max,
        }
    }
}

impl From<OutOfMemory> for PrepareFault {
    ghost use Rattle.write_path.specs.declared.fault.PrepareFault.TheVariants.{
      OutOfMemory as no_memory,
    };

    ghost from_gives = { λ _ e. e ≡ no_memory };

    fn from(_: OutOfMemory) -> Self {
        PrepareFault::OutOfMemory
    }
}

impl From<AllocError> for PrepareFault {
    ghost use Rattle.write_path.specs.declared.fault.PrepareFault.TheVariants.{
      OutOfMemory as no_memory,
    };

    ghost from_gives = { λ _ e. e ≡ no_memory };

    fn from(_: AllocError) -> Self {
        PrepareFault::OutOfMemory
    }
}

impl<T: Drop> From<AllocFailed<T>> for PrepareFault {
    ghost use Rattle.write_path.specs.declared.fault.PrepareFault.TheVariants.{
      OutOfMemory as no_memory,
    };

    ghost from_gives = { λ _ e. e ≡ no_memory };

    fn from(_: AllocFailed<T>) -> Self {
        PrepareFault::OutOfMemory
    }
}
