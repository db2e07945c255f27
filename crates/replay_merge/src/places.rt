//! The segments of a folder are read in pieces, by id, up to the first that is refused. No payload
//! is looked at here: the entries in front of such a place were put, and are judged by who takes
//! them.
ghost use Rattle.std.specs.Prelude.{IfSome, List};
ghost use Rattle.clog_crash.specs.Folder.{IsHeld};
ghost use Rattle.clog_disk.specs.Files.{IsThere};
ghost use Rattle.clog_folder.specs.Listing.{AreRows, IsSegmentAt, segment_cmp};
ghost use Rattle.clog_folder.specs.Passing.{IsUntouched, TellsEach};
ghost use Rattle.replay_merge.specs.declared.piped.Batch.{Batch as read_batch};
ghost use Rattle.replay_merge.specs.Entries.{all_items};
ghost use Rattle.replay_merge.specs.Places.{GivesLength, GivesPlace, GivesPlaces, PassesOther};

use crate::piped::Batch;
use crate::streaming::stream_file;
use clog_base::{FILE_LIMIT, Name, Quantity};
use clog_disk::Disk;
use clog_folder::{OpenFault, SegmentNames, fault_of, greatest_id, judge_end};
use clog_scan::Cause;
use replay_queue::Sink;
use std::alloc::Global;

/// A segment of another version is damage, or is passed over.
fn other_version(place: (u64, u32), name: &Name, ignore: bool) -> Result<(), OpenFault>
    ensures { PassesOther ignore place name.now result }
{
    if ignore {
        return Ok(());
    }
    Err(OpenFault::Damaged(*name, 0, Cause::Version(place.1)))
}

/// How many bytes the file of a segment has, which is there.
fn length_of<D: Disk>(disk: &mut D, name: &Name) -> Result<u32, OpenFault>
    requires { IsThere (D.files disk.old) name.now }
    ensures gives { GivesLength (D.files disk.old) (D.faults disk.old) (D.faults disk.new) name.now
        result }
    ensures keeps { IsUntouched D.files D.changes D.leaves D.moment D.since D.read_at D.lasted_at
        D.faults disk.old disk.new }
    ensures quiet { TellsEach (D.faults disk.old) (D.faults disk.new) result }
{
    let len = match disk.len(name) {
        Ok(len) => len,
        Err(fault) => return Err(fault_of(fault)),
    };
    if len > FILE_LIMIT {
        return Err(OpenFault::Limit(Quantity::SegmentBytes, FILE_LIMIT));
    }
    Ok(len as u32)
}

/// Puts the entries of the segment of a place, an id and a version, which is there under its name.
fn stream_place<D: Disk, P: Sink<Batch>>(
    alloc: Global,
    disk: &mut D,
    place: (u64, u32),
    name: &Name,
    last: bool,
    ignore: bool,
    to: &mut P,
) -> Result<(), OpenFault>
    requires there { IsThere (D.files disk.old) name.now }
    requires sink { P.can_put to.old }
    ensures gives { (batches : List read_batch) × P.can_put to.new
        × P.goes_on to.old batches to.new
        × GivesPlace ignore last (D.files disk.old) (D.faults disk.old) (D.faults disk.new)
        (place, name.now) (all_items batches) result }
    ensures keeps { IsUntouched D.files D.changes D.leaves D.moment D.since D.read_at D.lasted_at
        D.faults disk.old disk.new }
    ensures quiet { TellsEach (D.faults disk.old) (D.faults disk.new) result }
{
    if place.1 != 6 {
        return other_version(place, name, ignore);
    }
    let len = match length_of(disk, name) {
        Ok(len) => len,
        Err(fault) => return Err(fault),
    };
    // Matches in place of `?`, since the exits speak of what was read.
    let end = match stream_file(alloc, disk, name, place.0, len, to) {
        Ok(end) => end,
        Err(fault) => return Err(fault),
    };
    judge_end(name, end, last, ignore)
}

/// Puts the entries of the segments of these names, of which each is there, in their order.
///
/// - `Disk`: the disk's count of faults has risen in this call.
/// - `Damaged`: the first segment of another version, or the first that is torn so that no crash
///   leaves it, and only without `ignore`.
/// - `Limit(SegmentBytes, ..)`: a segment has more bytes; none of them is read.
/// - `OutOfMemory`: memory was refused.
pub(crate) fn stream_places<D: Disk, P: Sink<Batch>>(
    alloc: Global,
    disk: &mut D,
    names: SegmentNames,
    ignore: bool,
    to: &mut P,
) -> Result<(), OpenFault>
    requires there { IfSome (D.files disk.old) (λ held.
        AreRows segment_cmp IsSegmentAt (IsHeld held) names.entries) }
    requires sink { P.can_put to.old }
    ensures gives { (batches : List read_batch) × P.can_put to.new
        × P.goes_on to.old batches to.new
        × GivesPlaces ignore (D.files disk.old) (D.faults disk.old) (D.faults disk.new)
        names.entries (all_items batches) result }
    ensures keeps { IsUntouched D.files D.changes D.leaves D.moment D.since D.read_at D.lasted_at
        D.faults disk.old disk.new }
    ensures quiet { TellsEach (D.faults disk.old) (D.faults disk.new) result }
{
    let greatest = greatest_id(&names);
    for (place, name) in names {
        // A match in place of `?`, since the exit speaks of what was read.
        match stream_place(alloc, disk, place, &name, place.0 == greatest, ignore, to) {
            Ok(()) => {}
            Err(fault) => return Err(fault),
        }
    }
    Ok(())
}
