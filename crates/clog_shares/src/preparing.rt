//! The writes of a file's lines are prepared side by side by several threads, each line's in a
//! place of its own: what comes is the same as of one thread. All memory of the writes is taken
//! here.
ghost use Rattle.std.specs.Prelude.{◌≡◌, ◌+◌, ◌<◌, ◌^◌, IfOk, length, map};
ghost use Rattle.std.specs.List.{AllByRecursion};
ghost use Rattle.clog_mutation.specs.Limits.{IsWithinLimits};
ghost use Rattle.clog_spec.specs.Sizes.{most_tables};
ghost use Rattle.clog_shares.specs.LineWrites.{
  HasWriteOf,
  HaveWritesOf,
  PreparesPlace,
  WaitsWithin,
};
ghost use Rattle.clog_shares.specs.Planned.{PreparesLine};
ghost use Rattle.clog_shares.specs.Tallied.{IsCountedFor};
ghost use Rattle.clog_shares.specs.declared.preparing.LineWrite.TheVariants.{Waiting};

use crate::fault::PlanFault;
use crate::tally::LineCounts;
use clog_base::{Sizes, thread_count};
use clog_mutation::Mutation;
use std::alloc::{AllocError, Global};
use std::thread::Threads;
use std::{mem, thread};
use write_path::{PrepareFault, Prepared};

// Fewer lines than these are prepared by the caller alone.
const LEAST_SIDE_BY_SIDE: usize = 64;

// The greatest number of threads.
const MOST_THREADS: usize = 8;

/// A line whose write is to come, its write, or why it has none.
#[derive(Drop)]
pub(crate) enum LineWrite {
    /// What the line says.
    Waiting(Mutation),
    /// Its write with all of its memory, and how many updates of each table it has where writers
    /// flush.
    Made(Prepared, Option<LineCounts>),
    /// Why there is no write.
    Refused(PlanFault),
}

// The write of a line, with all of its memory.
fn prepare(
    alloc: Global,
    sizes: Sizes,
    line: u32,
    mutation: Mutation,
) -> Result<Prepared, PlanFault>
    requires within { IsWithinLimits mutation }
    requires tables { sizes.tables ≡ most_tables }
    ensures { PreparesLine sizes line mutation result }
{
    match Prepared::make(alloc, sizes, line, mutation) {
        Ok(prepared) => Ok(prepared),
        Err(PrepareFault::TooLarge { size, max }) => Err(PlanFault::TooLarge {
            line,
            size,
            most: max,
        }),
        Err(PrepareFault::OutOfMemory) => Err(PlanFault::OutOfMemory),
    }
}

// The updates of a line are counted where writers flush.
fn counts_for(flush_at: Option<u32>, mutation: &Mutation) -> Option<LineCounts>
    requires { IsWithinLimits mutation.now }
    ensures { IsCountedFor flush_at mutation.now result }
{
    match flush_at {
        Some(_) => Some(LineCounts::of(mutation)),
        None => None,
    }
}

// The write of a line with the counts of its updates, or why there is none.
fn write_of(
    alloc: Global,
    sizes: Sizes,
    flush_at: Option<u32>,
    line: u32,
    mutation: Mutation,
) -> LineWrite
    requires within { IsWithinLimits mutation }
    requires tables { sizes.tables ≡ most_tables }
    ensures { HasWriteOf sizes flush_at line mutation result }
{
    let counts = counts_for(flush_at, &mutation);
    match prepare(alloc, sizes, line, mutation) {
        Ok(write) => LineWrite::Made(write, counts),
        Err(fault) => LineWrite::Refused(fault),
    }
}

// Prepares the write of the line that waits in a place.
fn prepare_place(
    alloc: Global,
    sizes: Sizes,
    flush_at: Option<u32>,
    line: u32,
    place: &mut LineWrite,
)
    requires waits { WaitsWithin place.old }
    requires tables { sizes.tables ≡ most_tables }
    ensures { PreparesPlace sizes flush_at line place.old place.new }
{
    match mem::replace(place, LineWrite::Refused(PlanFault::OutOfMemory)) {
        LineWrite::Waiting(mutation) => *place = write_of(alloc, sizes, flush_at, line, mutation),
        LineWrite::Made(_, _) | LineWrite::Refused(_) => unreachable!(),
    }
}

// A place for each line.
fn places_of(alloc: Global, mutations: Vec<Mutation>) -> Result<Vec<LineWrite>, AllocError>
    ensures { IfOk result (λ places. places.items ≡ map Waiting mutations.items) }
{
    let mut places = Vec::with_capacity(alloc, mutations.len())?;
    for mutation in mutations {
        places.push(LineWrite::Waiting(mutation))?;
    }
    Ok(places)
}

// By how many threads so many lines are prepared: by the caller alone where they are few.
fn preparing_threads<R: Threads>(rt: &R, lines: usize) -> usize
    ensures { 0 < result }
{
    if lines < LEAST_SIDE_BY_SIDE {
        return 1;
    }
    thread_count(rt, MOST_THREADS)
}

/// The write of each line, in order, with the counts of its updates where writers flush; or why
/// there is none. As many threads prepare them as there are processors, at most 8; a part for which
/// no thread can be started is prepared by the caller, and so are fewer than 64 lines.
pub(crate) fn prepare_lines<R: Threads + Sync>(
    rt: &R,
    alloc: Global,
    sizes: Sizes,
    flush_at: Option<u32>,
    mutations: Vec<Mutation>,
) -> Result<Vec<LineWrite>, AllocError>
    requires few { length mutations.items < 2 ^ 32 }
    requires within { AllByRecursion IsWithinLimits mutations.items }
    requires tables { sizes.tables ≡ most_tables }
    ensures { IfOk result (λ places.
        HaveWritesOf sizes flush_at 0 mutations.items places.items) }
{
    let mut places = places_of(alloc, mutations)?;
    let threads = preparing_threads(rt, places.len());
    thread::for_each_mut(
        rt,
        places.as_mut_slice(),
        threads,
        &|number, place: &mut LineWrite|
            requires { (number + 1 < 2 ^ 32) × WaitsWithin place.old
                × (sizes.tables ≡ most_tables) }
            ensures { PreparesPlace sizes flush_at (number + 1) place.old place.new }
        { prepare_place(alloc, sizes, flush_at, number as u32 + 1, place) },
    );
    Ok(places)
}
