//! Entries that are taken in any order, and what is known of those that were.
ghost use Rattle.std.specs.Prelude.{[], List};
ghost use Rattle.clog_folder.specs.declared.tables.TableHeld.{TableHeld as table_held};
ghost use Rattle.replay_merge.specs.Piped.{IsDone};

use crate::merged::Merged;
use clog_base::PayloadFault;
use clog_scan::Whole;
use std::alloc::Global;

/// Entries of a segment that end in one piece of its file.
#[derive(Drop)]
pub struct Batch {
    /// The id of the segment.
    pub id: u64,
    /// The entries, whose payloads need not be mutations'.
    pub wholes: Vec<Whole>,
}

/// An entry whose payload is no mutation's: where it begins, and why.
#[derive(Clone, Copy)]
pub struct Refused {
    /// The id of its segment.
    pub id: u64,
    /// Where it begins.
    pub start: u32,
    /// Why its payload is refused.
    pub fault: PayloadFault,
}

/// What entries merge to, how many of them count, and the first that is refused, by id and place.
#[derive(Drop)]
pub struct Piped {
    /// The mutations of those that count.
    pub merged: Merged,
    /// How many count: their payloads are mutations'.
    pub entries: u64,
    /// The first of the others.
    pub refused: Option<Refused>,
}

impl Piped {
    /// What no entry comes to.
    pub(crate) fn new(alloc: Global) -> Piped
        ensures { (tables : List table_held) → IsDone tables [] result }
    {
        Piped {
            merged: Merged::new(alloc),
            entries: 0,
            refused: None,
        }
    }
}
