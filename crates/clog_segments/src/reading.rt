//! A folder that is opened is read: its table files, and then its log, which is merged as it comes.
ghost use Rattle.clog_disk.specs.Files.{Lists};
ghost use Rattle.clog_folder.specs.Passing.{IsUntouched, TellsEach};
ghost use Rattle.clog_segments.specs.Live.{ReadsBoth};

use clog_base::Name;
use clog_disk::Disk;
use clog_folder::{OpenFault, TableHeld, read_tables, segment_names, table_names};
use replay_merge::{Logged, read_log};
use std::alloc::Global;

/// The table files of a folder that has these names, and what its log restores beside them.
pub(crate) fn read_both<D: Disk>(
    alloc: Global,
    disk: &mut D,
    names: &[Name],
) -> Result<(Vec<TableHeld>, Logged), OpenFault>
    requires { Lists (D.files disk.old) names.now }
    ensures reads { ReadsBoth (D.files disk.old) (D.faults disk.old) (D.faults disk.new) result }
    ensures keeps { IsUntouched D.files D.changes D.leaves D.moment D.since D.read_at D.lasted_at
        D.faults disk.old disk.new }
    ensures quiet { TellsEach (D.faults disk.old) (D.faults disk.new) result }
{
    let tables = table_names(alloc, names)?;
    let segments = segment_names(alloc, names)?;
    // Matches in place of `?`, since the exits speak of what was read.
    let tables = match read_tables(alloc, disk, tables) {
        Ok(tables) => tables,
        Err(fault) => return Err(fault),
    };
    match read_log(alloc, disk, tables.as_slice(), segments) {
        Ok(log) => Ok((tables, log)),
        Err(fault) => Err(fault),
    }
}
