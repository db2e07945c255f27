//! What a log of notes tells of itself: its sizes, the entries that it has made lasting, and of
//! those that it keeps the segments.
ghost use Rattle.std.specs.Prelude.{◌≡◌, ◌↔◌, ℕ, Contains};
ghost use Rattle.clog_segments.specs.NoteLog.{IsNoteLog};
ghost use Rattle.clog_due.specs.Dropping.{HasEntry};

use crate::note_log::NoteLog;
use clog_base::Sizes;
use clog_disk::Disk;
use path_core::EntryNote;

impl<D: Disk> NoteLog<D> {
    /// The sizes that its path was laid out for: tables, writers, bytes of a segment, segments.
    pub fn sizes(&self) -> Sizes
        ensures { result ≡ self.now.sizes }
    {
        self.sizes
    }

    /// The entries that are lasting, in the order of the log.
    pub fn logged(&self) -> &[EntryNote]
        ensures { result.now ≡ self.now.logged }
    {
        &self.logged
    }

    /// The ordinals of the segments that have an entry of a sync that was refused.
    pub(crate) fn kept_ordinals(&self) -> &[u64]
        ensures kept { (o : ℕ) → Contains result.now o ↔ HasEntry self.now.kept o }
        ensures noted { IsNoteLog self.now }
    {
        self.kept.ordinals()
    }
}
