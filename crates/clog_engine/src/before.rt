//! What a folder restores to before anything is applied.
ghost use Rattle.clog_folder.specs.Passing.{IsUntouched};
ghost use Rattle.clog_engine.specs.Before.{GivesCells};
ghost use Rattle.clog_engine.specs.Quiet.{TellsEach};

use crate::refusal::folder_status;
use crate::status::Status;
use clog_cells::CellMap;
use clog_disk::Disk;
use clog_io::Gate;
use replay_merge::replay;
use std::alloc::Global;
use std::sync::Wait;
use std::thread::Threads;

/// The cells that the folder restores to, where a dump asks for them; else none. They are read
/// before anything changes, so that whatever is refused for what the folder holds leaves it alone.
pub(crate) fn cells_before<T: Threads + Wait + Sync, D: Disk, G: Gate + Sync>(
    rt: &T,
    alloc: Global,
    disk: &mut D,
    dump: bool,
    gate: &G,
) -> Result<CellMap, Status>
    ensures gives { GivesCells dump (D.files disk.old) (D.faults disk.old) (D.faults disk.new)
        result }
    ensures keeps { IsUntouched D.files D.changes D.leaves D.moment D.since D.read_at D.lasted_at
        D.faults disk.old disk.new }
    ensures quiet { TellsEach (D.faults disk.old) (D.faults disk.new) result }
{
    if !dump {
        return Ok(CellMap::new(alloc));
    }
    match replay(rt, alloc, disk, 1, false, gate) {
        Ok(restored) => Ok(restored.cells),
        Err(refusal) => Err(folder_status(refusal)),
    }
}
