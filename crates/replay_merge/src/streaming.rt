//! A segment's file is read in pieces of at most 64 KiB, and its entries are put into a sink as
//! they come. So no more of it is held than a piece and an entry that is not whole yet.
ghost use Rattle.std.specs.Prelude.{◌≡◌, ◌+◌, ◌≤◌, IfOk, List, Some, length};
ghost use Rattle.clog_spec.specs.Sizes.{file_limit};
ghost use Rattle.clog_disk.specs.Files.{IsLength};
ghost use Rattle.clog_scan.specs.declared.answer.End.{End as segment_end};
ghost use Rattle.clog_folder.specs.Passing.{IsUntouched, TellsEach};
ghost use Rattle.replay_merge.specs.declared.piped.Batch.{Batch as read_batch};
ghost use Rattle.replay_merge.specs.Entries.{all_items};
ghost use Rattle.replay_merge.specs.Streaming.{FeedsBytes, Streams};

use crate::piped::Batch;
use clog_base::{Name, OutOfMemory};
use clog_disk::Disk;
use clog_folder::{OpenFault, fault_of};
use clog_scan::{Cause, End, Scanner, Whole, told_at_the_end};
use replay_queue::Sink;
use std::alloc::Global;

/// How many bytes are asked for at once.
const PIECE: u32 = 65536;

/// Feeds a piece, whose numbers are bytes.
fn feed_bytes(scanner: &mut Scanner, piece: &[u8]) -> Result<Vec<Whole>, OutOfMemory>
    requires { scanner.old.fed + length piece.now ≤ scanner.old.len }
    ensures { IfOk result (λ wholes. FeedsBytes scanner.old scanner.new piece.now wholes.items) }
{
    match scanner.feed(piece) {
        Ok(wholes) => Ok(wholes),
        Err(fault) => Err(fault),
    }
}

/// How the segment ends of which so many bytes were fed. Where it is not told, since the file has
/// fewer bytes than the disk said, it is torn where they end.
fn end_of(scanner: &Scanner, fed: u32) -> End
    ensures { (end : segment_end) → scanner.now.end ≡ Some end → result ≡ end }
{
    match scanner.end() {
        Some(end) => end,
        None => End::Torn(fed, Cause::Short),
    }
}

/// Reads the segment of an id, a file of `len` bytes, and puts its entries. It is read to its end,
/// also where its entries end before. Bytes behind `len` that have come meanwhile are not read.
pub(crate) fn stream_file<D: Disk, P: Sink<Batch>>(
    alloc: Global,
    disk: &mut D,
    name: &Name,
    id: u64,
    len: u32,
    to: &mut P,
) -> Result<End, OpenFault>
    requires short { len ≤ file_limit }
    requires length { IsLength (D.files disk.old) name.now len }
    requires sink { P.can_put to.old }
    ensures streams { (batches : List read_batch) × P.can_put to.new
        × P.goes_on to.old batches to.new
        × Streams (D.files disk.old) (D.faults disk.old) (D.faults disk.new) name.now id
        (all_items batches) result }
    ensures keeps { IsUntouched D.files D.changes D.leaves D.moment D.since D.read_at D.lasted_at
        D.faults disk.old disk.new }
    ensures quiet { TellsEach (D.faults disk.old) (D.faults disk.new) result }
{
    let mut scanner = Scanner::new(alloc, id, len);
    let mut fed = 0;
    while fed < len {
        // A match in place of `?`, since the exit speaks of what was read.
        let piece = match disk.read(name, u64::from(fed), PIECE.min(len - fed)) {
            Ok(piece) => piece,
            Err(fault) => return Err(fault_of(fault)),
        };
        // A disk that does not tell its files may have fewer bytes than it said.
        if piece.is_empty() {
            return Ok(end_of(&scanner, fed));
        }
        let wholes = match feed_bytes(&mut scanner, piece.as_slice()) {
            Ok(wholes) => wholes,
            Err(_) => return Err(OpenFault::OutOfMemory),
        };
        fed += piece.len() as u32;
        to.push(Batch { id, wholes });
    }
    told_at_the_end();
    Ok(end_of(&scanner, fed))
}
