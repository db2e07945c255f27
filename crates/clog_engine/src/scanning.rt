//! The command `scan`: one segment's file is read whole, and its report tells what it holds
//! (Cassandra's `CommitLogReader`, which also decodes the payloads).
ghost use Rattle.clog_spec.specs.Names.{segment_name_of};
ghost use Rattle.clog_folder.specs.Passing.{IsUntouched};
ghost use Rattle.clog_engine.specs.Quiet.{TellsEach};
ghost use Rattle.clog_engine.specs.Scanning.{Scans};
ghost use Rattle.clog_engine.specs.SegmentFile.{FindsFile, GivesSegmentFile};

use crate::printing::Report;
use crate::refusal::{folder_status, status_of};
use crate::scan_report::scan_report;
use crate::status::Status;
use clog_base::{Bytes, Name, segment_name};
use clog_disk::Disk;
use clog_folder::segment_bytes;
use clog_scan::scan;
use std::alloc::Global;

// Looks whether the file is there.
fn find_file<D: Disk>(disk: &mut D, name: &Name) -> Result<(), Status>
    ensures finds { FindsFile (D.files disk.old) (D.faults disk.old) (D.faults disk.new) name.now
        result }
    ensures keeps { IsUntouched D.files D.changes D.leaves D.moment D.since D.read_at D.lasted_at
        D.faults disk.old disk.new }
    ensures quiet { TellsEach (D.faults disk.old) (D.faults disk.new) result }
{
    match disk.list() {
        Ok(names) if names.as_slice().contains(name) => Ok(()),
        Ok(_) => Err(Status::Absent(*name)),
        Err(fault) => Err(status_of(fault)),
    }
}

// The bytes of a segment's file.
fn segment_file<D: Disk>(disk: &mut D, id: u64) -> Result<Vec<u8>, Status>
    ensures gives { GivesSegmentFile (D.files disk.old) (D.faults disk.old) (D.faults disk.new)
        (segment_name_of 6 id) result }
    ensures keeps { IsUntouched D.files D.changes D.leaves D.moment D.since D.read_at D.lasted_at
        D.faults disk.old disk.new }
    ensures quiet { TellsEach (D.faults disk.old) (D.faults disk.new) result }
{
    let name = segment_name(id);
    find_file(disk, &name)?;
    match segment_bytes(disk, &name) {
        Ok(bytes) => Ok(bytes),
        Err(refusal) => Err(folder_status(refusal)),
    }
}

/// What the segment of an id holds. Of the disk the listing and that file are looked at alone.
pub(crate) fn scan_segment<D: Disk>(alloc: Global, disk: &mut D, id: u64) -> Result<Report, Status>
    ensures scans { Scans id (D.files disk.old) (D.faults disk.old) (D.faults disk.new) result }
    ensures keeps { IsUntouched D.files D.changes D.leaves D.moment D.since D.read_at D.lasted_at
        D.faults disk.old disk.new }
    ensures quiet { TellsEach (D.faults disk.old) (D.faults disk.new) result }
{
    let bytes = segment_file(disk, id)?;
    let found = scan(alloc, &bytes, id)?;
    Ok(scan_report(alloc, id, &found)?)
}
