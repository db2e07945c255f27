//! What the words of the command line ask for.
ghost use Rattle.std.specs.Prelude.{IfOk};
ghost use Rattle.clog_engine.specs.Request.{Asks, AreSizesOf, IsDoable};

use clog_base::{MOST_SEGMENTS, MOST_TABLES, OutOfMemory, Sizes};
use clog_words::{ApplyOptions, Built, WordsFault, parse_built};
use std::alloc::Global;

/// How large the log of a run is. Its segments are as many as there may be.
pub(crate) fn sizes_of(options: &ApplyOptions) -> Sizes
    requires { IsDoable options.now }
    ensures { AreSizesOf options.now result }
{
    let capacity = u32::from(options.segment_kib) * 1024;
    match Sizes::make(MOST_TABLES, options.writers, capacity, MOST_SEGMENTS) {
        Some(sizes) => sizes,
        None => unreachable!(),
    }
}

/// What the words after the program's name ask for; None exactly where they ask for nothing that
/// the program does.
pub(crate) fn request_of(alloc: Global, words: &[String]) -> Result<Option<Built>, OutOfMemory>
    ensures { IfOk result (Asks words.now) }
{
    match parse_built(alloc, words) {
        Ok(request) => Ok(Some(request)),
        Err(WordsFault::Usage) => Ok(None),
        Err(WordsFault::OutOfMemory) => Err(OutOfMemory),
    }
}
