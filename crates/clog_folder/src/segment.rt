//! The bytes of one segment are read.
ghost use Rattle.clog_disk.specs.Files.{IsThere};
ghost use Rattle.clog_folder.specs.Passing.{IsUntouched, TellsEach};
ghost use Rattle.clog_folder.specs.Segments.{GivesBytes};

use crate::fault::{OpenFault, fault_of};
use clog_base::{FILE_LIMIT, Name, Quantity};
use clog_disk::Disk;

/// All bytes of the file of a segment, which is there: at most 67,108,864 of them.
///
/// - `Disk`: the disk's count of faults has risen in this call.
/// - `Limit(SegmentBytes, ..)`: the file has more bytes; none of them is read.
/// - `OutOfMemory`: memory was refused.
pub fn segment_bytes<D: Disk>(disk: &mut D, name: &Name) -> Result<Vec<u8>, OpenFault>
    requires { IsThere (D.files disk.old) name.now }
    ensures gives { GivesBytes (D.files disk.old) (D.faults disk.old) (D.faults disk.new) name.now
        result }
    ensures keeps { IsUntouched D.files D.changes D.leaves D.moment D.since D.read_at D.lasted_at
        D.faults disk.old disk.new }
    ensures quiet { TellsEach (D.faults disk.old) (D.faults disk.new) result }
{
    let len = match disk.len(name) {
        Ok(len) => len,
        Err(fault) => return Err(fault_of(fault)),
    };
    if len > FILE_LIMIT {
        return Err(OpenFault::Limit(Quantity::SegmentBytes, FILE_LIMIT));
    }
    match disk.read(name, 0, len as u32) {
        Ok(bytes) => Ok(bytes),
        Err(fault) => Err(fault_of(fault)),
    }
}
