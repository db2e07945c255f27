//! The mutation file, from the source to its mutations.
ghost use Rattle.std.specs.Prelude.{◌≤◌, length, IfOk};
ghost use Rattle.std.specs.List.{AllByRecursion};
ghost use Rattle.clog_engine.specs.Reading.{GivesBytes, GivesMutations};
ghost use Rattle.clog_mutation.specs.Limits.{IsWithinLimits};
ghost use Rattle.clog_text.specs.FileLines.{Splits, line_limit};

use crate::status::Status;
use clog_base::{FILE_LIMIT, LINE_LIMIT, Quantity};
use clog_io::{ReadAllFault, Source, read_all};
use clog_mutation::Mutations;
use clog_text::{BadLine, Lines, SplitFault, read_lines_in_parts, split_file};
use std::alloc::Global;
use std::thread::Threads;

/// All bytes of the source.
pub(crate) fn bytes_of<S: Source>(alloc: Global, source: &mut S) -> Result<Vec<u8>, Status>
    ensures { GivesBytes (S.left source.old) (S.left source.new) (S.faults source.old)
        (S.faults source.new) result }
{
    match read_all(alloc, source, FILE_LIMIT) {
        Ok(bytes) => Ok(bytes),
        Err(ReadAllFault::Failed) => Err(Status::ReadFault),
        Err(ReadAllFault::Limit) => Err(Status::Limit(Quantity::FileBytes, FILE_LIMIT)),
        Err(ReadAllFault::OutOfMemory) => Err(Status::OutOfMemory),
    }
}

// The mutations of a file's lines.
fn mutations_on<T: Threads + Sync>(
    rt: &T,
    alloc: Global,
    bytes: &[u8],
    lines: &Lines,
) -> Result<Mutations, Status>
    requires { Splits bytes.now lines.now }
    ensures mutations { GivesMutations bytes.now result }
    ensures within { IfOk result (AllByRecursion IsWithinLimits) }
{
    match read_lines_in_parts(rt, alloc, bytes, lines) {
        Ok(mutations) => Ok(mutations),
        Err((_, BadLine::OutOfMemory)) => Err(Status::OutOfMemory),
        Err((number, cause)) => Err(Status::BadLine(number, cause)),
    }
}

/// The mutations of a file, one for each line.
pub(crate) fn mutations_of<T: Threads + Sync>(
    rt: &T,
    alloc: Global,
    bytes: &[u8],
) -> Result<Mutations, Status>
    ensures mutations { GivesMutations bytes.now result }
    ensures within { IfOk result (AllByRecursion IsWithinLimits) }
    ensures few { IfOk result (λ mutations. length mutations ≤ line_limit) }
{
    match split_file(alloc, bytes) {
        Ok(lines) => mutations_on(rt, alloc, bytes, &lines),
        Err(SplitFault::Limit) => Err(Status::Limit(Quantity::Lines, LINE_LIMIT)),
        Err(SplitFault::OutOfMemory) => Err(Status::OutOfMemory),
    }
}
