//! Why a folder is not read.
ghost use Rattle.std.specs.Prelude.{◌≡◌};
ghost use Rattle.clog_folder.specs.Passing.{fault_of};

use clog_base::{Name, OutOfMemory, Quantity};
use clog_disk::DiskFault;
use clog_scan::Cause;
use clog_table::TableFault;
use std::alloc::{AllocError, AllocFailed};
use thiserror::Error;

/// Why a folder is not read. The first that is met is answered: table files come before segments.
#[derive(Clone, Copy, Debug, PartialEq, Eq, Error)]
pub enum OpenFault {
    /// The disk has failed, and has counted it.
    #[error("the disk has failed")]
    Disk,
    /// The segment of this name is the first that is damaged: it is torn at this offset, in bytes,
    /// for this cause, and no crash leaves it so.
    #[error("a segment is damaged")]
    Damaged(Name, u32, Cause),
    /// The file of this name is the first, by table and sequence, that is no table file, for this
    /// cause.
    #[error("a table file is bad")]
    BadTable(Name, TableFault),
    /// There are more of these than the number.
    #[error("a limit is passed")]
    Limit(Quantity, u64),
    /// Memory was refused.
    #[error("out of memory")]
    OutOfMemory,
}

impl From<OutOfMemory> for OpenFault {
    ghost use Rattle.clog_folder.specs.declared.fault.OpenFault.TheVariants.{
      OutOfMemory as no_memory,
    };

    ghost from_gives = { λ _ e. e ≡ no_memory };

    fn from(_: OutOfMemory) -> Self {
        OpenFault::OutOfMemory
    }
}

impl From<AllocError> for OpenFault {
    ghost use Rattle.clog_folder.specs.declared.fault.OpenFault.TheVariants.{
      OutOfMemory as no_memory,
    };

    ghost from_gives = { λ _ e. e ≡ no_memory };

    fn from(_: AllocError) -> Self {
        OpenFault::OutOfMemory
    }
}

impl<T: Drop> From<AllocFailed<T>> for OpenFault {
    ghost use Rattle.clog_folder.specs.declared.fault.OpenFault.TheVariants.{
      OutOfMemory as no_memory,
    };

    ghost from_gives = { λ _ e. e ≡ no_memory };

    fn from(_: AllocFailed<T>) -> Self {
        OpenFault::OutOfMemory
    }
}

/// Why a folder is not read whose disk refuses a call.
pub fn fault_of(fault: DiskFault) -> OpenFault
    ensures { result ≡ fault_of fault }
{
    match fault {
        DiskFault::OutOfMemory => OpenFault::OutOfMemory,
        DiskFault::Failed | DiskFault::NoSuchFile => OpenFault::Disk,
    }
}
