//! A folder's log is read and merged by the caller alone, for those who start no thread.
ghost use Rattle.std.specs.Prelude.{IfSome};
ghost use Rattle.clog_crash.specs.Folder.{IsHeld};
ghost use Rattle.clog_folder.specs.Listing.{AreRows, IsSegmentAt, segment_cmp};
ghost use Rattle.clog_folder.specs.Passing.{IsUntouched, TellsEach};
ghost use Rattle.replay_merge.specs.Logged.{ReadsLog};

use crate::alone::Alone;
use crate::piped::Piped;
use crate::piping::Piping;
use crate::places::stream_places;
use crate::settling::settle;
use clog_base::Position;
use clog_cells::CellMap;
use clog_disk::Disk;
use clog_folder::{OpenFault, SegmentNames, TableHeld};
use clog_io::OpenGate;
use std::alloc::Global;

/// What the log of a folder restores, and how far it reaches.
#[derive(Drop)]
pub struct Logged {
    /// The newest cells of the updates for which no table file stands.
    pub cells: CellMap,
    /// The greatest position at which an entry ends, and (0, 0) where there is none.
    pub top: Position,
}

/// Reads the segments of these names, of which each is there, in pieces of at most 64 KiB, and
/// merges their entries as they come. So memory is wanted for cells, for a piece and the entries
/// that end in it, and not for the segments. It writes nothing.
///
/// Where refusals stand together, the first of these is answered: a fault of the disk; want of
/// memory; the first refused payload by position; the place at which reading stopped.
///
/// - `Disk`: only where the disk's count of faults has risen in this call.
/// - `Damaged`: the first damage, by id and place.
/// - `Limit(SegmentBytes, ..)`: the first segment that is refused has more bytes than that.
/// - `OutOfMemory`: memory was refused; it may come anywhere.
pub fn read_log<D: Disk>(
    alloc: Global,
    disk: &mut D,
    tables: &[TableHeld],
    names: SegmentNames,
) -> Result<Logged, OpenFault>
    requires there { IfSome (D.files disk.old) (λ held.
        AreRows segment_cmp IsSegmentAt (IsHeld held) names.entries) }
    ensures reads { ReadsLog (D.files disk.old) (D.faults disk.old) (D.faults disk.new) tables.now
        names.entries result }
    ensures keeps { IsUntouched D.files D.changes D.leaves D.moment D.since D.read_at D.lasted_at
        D.faults disk.old disk.new }
    ensures quiet { TellsEach (D.faults disk.old) (D.faults disk.new) result }
{
    let gate = OpenGate::new();
    let piping = Piping {
        alloc,
        tables,
        gate: &gate,
    };
    let mut alone = Alone {
        piping,
        piped: Some(Piped::new(alloc)),
        top: Position { id: 0, offset: 0 },
    };
    let streamed = stream_places(alloc, disk, names, false, &mut alone);
    let Alone {
        piping: _,
        piped,
        top,
    } = alone;
    // A match in place of `?`, since the exit speaks of what was read.
    match settle(streamed, piped, false) {
        Ok(piped) => Ok(Logged {
            cells: piped.merged.cells,
            top,
        }),
        Err(fault) => Err(fault),
    }
}
