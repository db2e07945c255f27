//! The mutations of a whole file, or the first line that is refused. A large file is read in parts
//! by several threads; what comes is the same.
ghost use Rattle.std.specs.Prelude.{◌≡◌, ◌+◌, ◌*◌, ◌<◌, ◌≤◌, ℕ, List, ◌++◌, length, IfOk};
ghost use Rattle.std.specs.List.{AllByRecursion};
ghost use Rattle.clog_text.specs.FileLines.{IsRangeWithin, Splits, line_limit};
ghost use Rattle.clog_text.specs.FileMutations.{mutations_from, GivesLines, GivesMutations};
ghost use Rattle.clog_text.specs.FileMutations.{joined, PartsRead, part_from};
ghost use Rattle.clog_mutation.specs.Limits.{IsWithinLimits};

use crate::refusal::BadLine;
use crate::split::Lines;
use crate::usual::read_with;
use clog_base::thread_count;
use clog_mutation::Mutations;
use json::Scratch;
use std::alloc::Global;
use std::marker::Sync;
use std::thread;
use std::thread::Threads;

// A file below so many bytes is read in one part.
const LEAST_IN_PARTS: usize = 65_536;

// The greatest number of parts, each read by a thread of its own.
const MOST_PARTS: usize = 8;

/// What lines give is what a first part of them gives and then the rest: the refusal of the first
/// part counts, and else the second part's.
pub fn reading_laws()
    ensures parts { (n : ℕ) → (xs ys : List (List ℕ)) → mutations_from n (xs ++ ys)
        ≡ joined (mutations_from n xs) (mutations_from (n + length xs) ys) }
{}

/// The mutation of each line of a file, in order, or the number of the first line that is refused,
/// from 1, and its cause. `lines` are those that `split_file` gives of `bytes`. `OutOfMemory` may
/// come at any line.
pub fn read_lines(alloc: Global, bytes: &[u8], lines: &Lines) -> Result<Mutations, (u32, BadLine)>
    requires { Splits bytes.now lines.now }
    ensures reads { GivesMutations bytes.now result }
    ensures within { IfOk result (AllByRecursion IsWithinLimits) }
{
    read_part(alloc, bytes, 0, lines.as_slice())
}

/// What `read_lines` gives, read in parts by as many threads as there are processors, at most 8. A
/// file below 64 KiB is read by the caller alone, and so is a part for which no thread can be
/// started.
pub fn read_lines_in_parts<R: Threads + Sync>(
    rt: &R,
    alloc: Global,
    bytes: &[u8],
    lines: &Lines,
) -> Result<Mutations, (u32, BadLine)>
    requires { Splits bytes.now lines.now }
    ensures reads { GivesMutations bytes.now result }
    ensures within { IfOk result (AllByRecursion IsWithinLimits) }
{
    let size = part_size(rt, bytes.len(), lines.len());
    read_by_size(rt, alloc, bytes, lines, size)
}

// How many lines a part has: all of them in a small file, and else so many that there are at most 8
// parts.
fn part_size<R: Threads>(rt: &R, bytes: usize, lines: usize) -> usize
    requires { lines ≤ line_limit }
    ensures some { 0 < result }
    ensures few { lines < MOST_PARTS * result }
    ensures whole { bytes < LEAST_IN_PARTS → lines < result }
{
    if bytes < LEAST_IN_PARTS {
        return lines + 1;
    }
    lines / thread_count(rt, MOST_PARTS) + 1
}

// Reads parts of so many lines, each in a thread of its own.
fn read_by_size<R: Threads + Sync>(
    rt: &R,
    alloc: Global,
    bytes: &[u8],
    lines: &Lines,
    size: usize,
) -> Result<Mutations, (u32, BadLine)>
    requires splits { Splits bytes.now lines.now }
    requires some { 0 < size }
    ensures reads { GivesMutations bytes.now result }
    ensures within { IfOk result (AllByRecursion IsWithinLimits) }
{
    let ranges = lines.as_slice();
    let read = |before: usize, part: &[(usize, usize)]| read_part(alloc, bytes, before, part);
    match thread::map_chunks(rt, alloc, ranges, size, &read) {
        Ok(parts) => join_parts(alloc, bytes, ranges, size, parts),
        Err(_) => Err((1, BadLine::OutOfMemory)),
    }
}

// The mutations of some lines of a file, which stand behind so many others.
fn read_part(
    alloc: Global,
    bytes: &[u8],
    before: usize,
    ranges: &[(usize, usize)],
) -> Result<Mutations, (u32, BadLine)>
    requires within { AllByRecursion (IsRangeWithin (length bytes.now)) ranges.now }
    requires few { before + length ranges.now ≤ line_limit }
    ensures reads { GivesLines (part_from bytes.now before ranges.now) result }
    ensures within { IfOk result (AllByRecursion IsWithinLimits) }
{
    let mut scratch = Scratch::new(alloc);
    let mut mutations = Vec::new(alloc);
    let mut number = before as u32;
    for range in ranges {
        number += 1;
        match read_with(alloc, &mut scratch, &bytes[range.0..range.1]) {
            Ok(mutation) => match mutations.push(mutation) {
                Ok(()) => {}
                Err(_) => return Err((number, BadLine::OutOfMemory)),
            },
            Err(cause) => return Err((number, cause)),
        }
    }
    Ok(Mutations::new(mutations))
}

// The mutations of all parts, or the refusal of the first that has one.
fn join_parts(
    alloc: Global,
    bytes: &[u8],
    ranges: &[(usize, usize)],
    size: usize,
    parts: Vec<Result<Mutations, (u32, BadLine)>>,
) -> Result<Mutations, (u32, BadLine)>
    requires parts { PartsRead bytes.now ranges.now size parts.items }
    requires all { length ranges.now ≤ length parts.items * size }
    ensures reads { GivesLines (part_from bytes.now 0 ranges.now) result }
    ensures within { IfOk result (AllByRecursion IsWithinLimits) }
{
    let mut mutations = Vec::new(alloc);
    for part in parts {
        match part {
            Ok(read) => match mutations.append(&mut read.into_vec()) {
                Ok(()) => {}
                Err(_) => return Err((1, BadLine::OutOfMemory)),
            },
            Err((number, cause)) => return Err((number, cause)),
        }
    }
    Ok(Mutations::new(mutations))
}
