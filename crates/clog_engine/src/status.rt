//! How a run ends.
ghost use Rattle.std.specs.Prelude.{◌≡◌};

use clog_base::{Name, Quantity};
use clog_scan::Cause;
use clog_table::TableFault;
use clog_text::BadLine;

/// How a run ends. Each refusal leaves the disk as it was, but `DiskFault`, `OutOfMemory` and
/// `WriteFault`, which comes when all is done. After the first two the folder may be recovered, in
/// part or whole, and the first of the lines may stand in it; where nothing passes a check by
/// chance, it restores to what it restored to, with these.
#[derive(Clone, Copy, Debug, PartialEq, Eq)]
pub enum Status {
    /// The report was written whole.
    Ok,
    /// The words ask for nothing that this program does.
    Usage,
    /// The line of this number, from 1, is the first that is refused, for this cause.
    BadLine(u32, BadLine),
    /// No line is refused, and that of this number is the first whose entry is larger than half a
    /// segment: its size (2^32 - 1 where it is greater) and the most, in bytes.
    TooLarge(u32, u32, u32),
    /// The source has failed.
    ReadFault,
    /// The sink has failed; a prefix of the report went out.
    WriteFault,
    /// The disk has failed.
    DiskFault,
    /// The segment of this name is the first, by id, that is damaged: it is torn at this offset, in
    /// bytes, for this cause, and no crash leaves it so.
    Damaged(Name, u32, Cause),
    /// The file of this name is the first, by table and sequence, that is no table file, for this
    /// cause.
    BadTable(Name, TableFault),
    /// Memory was refused.
    OutOfMemory,
    /// There are more of these than the number.
    Limit(Quantity, u64),
    /// The disk has no file of this name.
    Absent(Name),
}

impl Status {
    ghost use Rattle.clog_engine.specs.Faults.{number_of};

    /// The exit status of the program.
    pub fn number(&self) -> u8
        ensures { result ≡ number_of self.now }
    {
        match self {
            Status::Ok => 0,
            Status::Usage => 1,
            Status::BadLine(_, _) => 2,
            Status::TooLarge(_, _, _) => 3,
            Status::ReadFault => 4,
            Status::WriteFault => 5,
            Status::DiskFault => 6,
            Status::Damaged(_, _, _) => 7,
            Status::BadTable(_, _) => 8,
            Status::OutOfMemory => 9,
            Status::Limit(_, _) => 10,
            Status::Absent(_) => 11,
        }
    }
}
