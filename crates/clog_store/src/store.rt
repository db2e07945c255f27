//! A store: the keeper of a path's log over a disk. It is opened over what a folder holds; then it
//! makes entries last (Cassandra's `CommitLog`).
//!
//! It keeps true (`IsStore`) that its disk goes on from the one of its opening, that it has stopped
//! only where the disk's count of faults has risen since, and that the appends since have brought
//! just the sections of its log, so that the log holds each entry once. Until it has put a file or
//! dropped a segment, the changes since are appends alone. They stand in order: a table file behind
//! the log up to its end, a segment's removal behind its table files. Until the disk has failed its
//! folder holds just what the store wrote, and what was there at the opening, and the disk has
//! counted no fault since the opening; once it has failed, the folder does but for one name. What
//! it has counted is of its first entries, files and dropped segments (`IsCountedIn`).
ghost use Rattle.std.specs.Prelude.{◌≡◌, ◌<◌, ◌^◌};
ghost use Rattle.clog_segments.specs.NamesLast.{NamesLast};
ghost use Rattle.clog_segments.specs.StoreState.{told_as};

mod closing;
mod counting;
mod crossing;
mod discarding;
mod keeping;
mod opening;
mod putting;
mod syncing;
mod telling;

use crate::note_log::NoteLog;
use clog_disk::Disk;
use clog_due::{Counted, StoredFile};
use clog_segments::StoreFault;
pub use crossing::a_store_crosses_threads;
use path_core::KeeperFault;
use std::marker::Model;
use std::snapshot::Snapshot;

/// A store over a disk.
#[derive(Drop)]
pub struct Store<D: Disk> {
    /// What was counted at the last discard; nothing before the first, and behind want of memory.
    /// It stands first: `Send` is looked for field by field, each a level deeper than the one
    /// before.
    counted: Option<Counted>,
    notes: NoteLog<D>,
    /// A segment that is dropped gets its archive name first.
    archives: bool,
    /// The disk when the folder was recovered, for contracts alone.
    first: Snapshot<D>,
    /// Its count of faults then.
    at_open: u64,
    files: Vec<StoredFile>,
    /// The ordinals of the segments that were dropped, and of those that got their archive names.
    dropped: Vec<u64>,
    archived: Vec<u64>,
}

impl<D: Disk> Model for Store<D> {
    ghost use Rattle.std.specs.Prelude.{◌≡◌};
    ghost use Rattle.clog_due.specs.Counting.{IsCountedIn};
    ghost use Rattle.clog_segments.specs.NamesLast.{NamesLast};
    ghost use Rattle.clog_segments.specs.StoreState.{IsStore, StoreState};

    ghost Value = { StoreState D };

    ghost view = { λ s. record {
      notes = s.notes;
      archives = s.archives;
      first = s.first.value;
      files = s.files.items;
      dropped = s.dropped.items;
      archived = s.archived.items;
    } };

    ghost invariant = { λ s. (s.at_open ≡ D.faults s.first.value)
        × IsStore D.files D.changes D.moment D.faults D.read_at D.lasted_at (record {
          notes = s.notes;
          archives = s.archives;
          first = s.first.value;
          files = s.files.items;
          dropped = s.dropped.items;
          archived = s.archived.items;
        })
        × NamesLast D.files D.leaves s.first.value s.notes.log
        × IsCountedIn s.notes.logged s.files.items s.dropped.items s.counted };
}

// What a path is answered, with the disk's counts of faults at the opening and now.
fn told<T>(at_open: u64, now: u64, outcome: Result<T, StoreFault>) -> Result<T, KeeperFault>
    ensures { result ≡ told_as at_open now outcome }
{
    match outcome {
        Ok(answer) => Ok(answer),
        Err(StoreFault::Stopped) => Err(KeeperFault::Stopped { at_open, now }),
        Err(StoreFault::OutOfMemory) => Err(KeeperFault::OutOfMemory),
    }
}

impl<D: Disk> Store<D> {
    /// The id of its first segment.
    pub fn base(&self) -> u64
        ensures base { result ≡ self.now.notes.base }
        ensures fits { self.now.notes.base < 2 ^ 62 }
    {
        self.notes.base()
    }
}
