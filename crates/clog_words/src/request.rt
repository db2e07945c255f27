//! What the words can ask for.

use clog_base::Name;
use sync_core::SyncCore;
use thiserror::Error;

/// One thing that a user asks for, named by the first word.
#[derive(Clone, Copy, Debug, PartialEq, Eq)]
pub enum Request {
    /// `apply`: apply the mutation file on standard input.
    Apply(ApplyOptions),
    /// `replay`: tell what the folder holds.
    Replay(ReplayOptions),
    /// `scan`: tell what the segment of this name, of version 6, holds.
    Scan(Name),
    /// `drill`: apply made lines and replay them.
    Drill {
        /// Where the generator of lines begins.
        seed: u32,
        /// How many lines, 0 to 1000000.
        count: u32,
    },
    /// `orders`: an owner publishes values while readers read them.
    Orders {
        /// How many readers there are, 1 to 63.
        readers: u8,
        /// How many values are published, and how many operations each reader makes: 0 to 100000.
        rounds: u32,
    },
}

/// The options of `apply`.
#[derive(Clone, Copy, Debug, PartialEq, Eq)]
pub struct ApplyOptions {
    /// `--writers`: how many writers commit lines at a time, 1 to 64; 1 where none is given.
    pub writers: u8,
    /// `--sync` and `--period`: batch mode, in which a period is allowed and unused, or periodic
    /// mode with a period of 1 to 3600000 ms; periodic mode and 10000 ms where none is given.
    pub sync: SyncCore,
    /// `--segment-kib`: a segment's capacity in units of 1024 bytes, 4 to 32768; 32768 where none
    /// is given.
    pub segment_kib: u16,
    /// `--flush-at`: at how many of its updates a writer flushes a table, 1 to 1000000; None for no
    /// flush.
    pub flush_at: Option<u32>,
    /// `--archive`: segments are linked into the archive.
    pub archive: bool,
    /// `--receipts`: each line's position is printed.
    pub receipts: bool,
    /// `--drain`: all tables are flushed at the end.
    pub drain: bool,
    /// `--dump`: the cells are printed at the end.
    pub dump: bool,
}

/// The options of `replay`.
#[derive(Clone, Copy, Debug, PartialEq, Eq)]
pub struct ReplayOptions {
    /// `--workers`: how many workers read entries at a time, 1 to 64; 1 where none is given.
    pub workers: u8,
    /// `--ignore-errors`: what is damaged is passed over.
    pub ignore_errors: bool,
}

/// Why words were not read.
#[derive(Clone, Copy, Debug, PartialEq, Eq, Error)]
pub enum WordsFault {
    /// They ask for no command that there is, or not in its form.
    #[error("usage")]
    Usage,
    /// Memory was refused.
    #[error("out of memory")]
    OutOfMemory,
}
