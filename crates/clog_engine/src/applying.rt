//! The mutation file is applied: its lines come into the log of the folder, and a report is made.
//!
//! Whatever is refused for the words, the file or what the folder holds, leaves the folder alone.
//! All memory for the lines and the report is taken before any line is written.
ghost use Rattle.std.specs.Prelude.{◌≡◌};
ghost use Rattle.clog_engine.specs.Apply.{Applies};
ghost use Rattle.clog_engine.specs.Outside.{outside_of};
ghost use Rattle.clog_engine.specs.Quiet.{TellsEach, IsRefusedBefore};
ghost use Rattle.clog_engine.specs.Request.{IsDoable};

use crate::printing::Report;
use crate::shares::read_plan;
use crate::sharing::apply_shares;
use crate::status::Status;
use crate::words::sizes_of;
use clog_base::OutOfMemory;
use clog_disk::Disk;
use clog_io::{Clock, Gate, Source};
use clog_words::ApplyOptions;
use std::alloc::Global;
use std::sync::Wait;
use std::thread::Threads;

impl From<OutOfMemory> for Status {
    ghost use Rattle.clog_engine.specs.declared.status.Status.TheVariants.{
      OutOfMemory as no_memory,
    };

    ghost from_gives = { λ _ e. e ≡ no_memory };

    fn from(_: OutOfMemory) -> Self {
        Status::OutOfMemory
    }
}

/// Applies the source's lines to the disk by writers of a path, each in a thread of its own where
/// one can be started, and gives the report. Where the folder is not refused before, the clock is
/// asked at its opening, and in periodic mode behind each line.
pub(crate) fn apply<
    T: Threads + Wait + Sync,
    S: Source,
    D: Disk + Send + Drop,
    C: Clock + Sync,
    G: Gate + Sync,
>(
    rt: &T,
    alloc: Global,
    options: ApplyOptions,
    source: &mut S,
    disk: D,
    clock: &C,
    gate: &G,
) -> (D, Result<Report, Status>)
    requires { IsDoable options }
    ensures applies { Applies options (outside_of S.Source D.Disk C.Clock source.old source.new
        disk result.0 clock.now) result.1 }
    ensures quiet { TellsEach (D.faults disk) (D.faults result.0) result.1 }
    ensures uncalled { IsRefusedBefore result.1 → result.0 ≡ disk }
{
    let sizes = sizes_of(&options);
    match read_plan(rt, alloc, sizes, options.flush_at, source, options.dump) {
        Ok(lines) => apply_shares(rt, alloc, options, sizes, lines, disk, clock, gate),
        Err(status) => (disk, Err(status)),
    }
}
