//! A file is read whole, piece by piece.
ghost use Rattle.std.specs.Prelude.{◌≡◌, ◌≢◌, Err};
ghost use Rattle.clog_disk.specs.declared.disk.DiskFault.TheVariants.{Failed};
ghost use Rattle.clog_folder.specs.Passing.{IsUntouched};
ghost use Rattle.clog_folder.specs.Whole.{GivesWhole};

use clog_base::Name;
use clog_disk::{Disk, DiskFault};
use std::alloc::Global;

/// How many bytes are asked for at once.
const PIECE: u32 = 1 << 20;

/// All bytes of a file, however many they are. It is read in pieces of 1 MiB.
///
/// - `Failed`: the disk's count of faults has risen in this call.
/// - `NoSuchFile`: the disk tells its files, and has none of this name.
/// - `OutOfMemory`: memory was refused.
pub fn read_whole<D: Disk>(alloc: Global, disk: &mut D, name: &Name) -> Result<Vec<u8>, DiskFault>
    ensures whole { GivesWhole (D.files disk.old) name.now (D.faults disk.old)
        (D.faults disk.new) result }
    ensures keeps { IsUntouched D.files D.changes D.leaves D.moment D.since D.read_at D.lasted_at
        D.faults disk.old disk.new }
    ensures quiet { result ≢ Err Failed → D.faults disk.new ≡ D.faults disk.old }
{
    let len = disk.len(name)?;
    let mut bytes = Vec::new(alloc);
    while (bytes.len() as u64) < len {
        // A match in place of `?`, since the exit speaks of what was read.
        let piece = match disk.read(name, bytes.len() as u64, PIECE) {
            Ok(piece) => piece,
            Err(fault) => return Err(fault),
        };
        // A disk that does not tell its files may have fewer bytes than it said.
        if piece.is_empty() {
            break;
        }
        bytes.extend_from_slice(&piece)?;
    }
    Ok(bytes)
}
