//! How a run ends whose disk or folder is refused.
ghost use Rattle.std.specs.Prelude.{◌≡◌};
ghost use Rattle.clog_engine.specs.Refusal.{folder_status, status_of};

use crate::status::Status;
use clog_disk::DiskFault;
use clog_folder::OpenFault;

/// How a run ends that the disk refuses.
pub(crate) fn status_of(fault: DiskFault) -> Status
    ensures { result ≡ status_of fault }
{
    match fault {
        DiskFault::OutOfMemory => Status::OutOfMemory,
        DiskFault::Failed | DiskFault::NoSuchFile => Status::DiskFault,
    }
}

/// How a run ends whose folder is not read.
pub(crate) fn folder_status(refusal: OpenFault) -> Status
    ensures { result ≡ folder_status refusal }
{
    match refusal {
        OpenFault::Disk => Status::DiskFault,
        OpenFault::Damaged(name, at, cause) => Status::Damaged(name, at, cause),
        OpenFault::BadTable(name, fault) => Status::BadTable(name, fault),
        OpenFault::Limit(what, number) => Status::Limit(what, number),
        OpenFault::OutOfMemory => Status::OutOfMemory,
    }
}
