//! What lasts at one time of a store's life lasts at each later one; and what is logged lasts.
ghost use Rattle.std.specs.Prelude.{◌≡◌, ◌≤◌, ◌++◌, List};
ghost use Rattle.path_core.specs.declared.note.EntryNote.{EntryNote as entry_note};
ghost use Rattle.clog_segments.specs.Life.{Lives, Outlives, State};
ghost use Rattle.clog_segments.specs.NoteLog.{IsNoteLog, NoteState};
ghost use Rattle.clog_segments.specs.ShownNotes.{LeavesLogged, LeavesLoggedSince};

use clog_disk::Disk;

/// What lasted before a first call is in each image since then, also of later calls. So an entry
/// that was acknowledged stays.
pub fn what_lasts_stays<D: Disk>()
    ensures { (a b c : State D) → a.opened ≤ D.moment a.disk
        → Outlives D.files D.moment D.since D.read_at D.lasted_at a b
        → Outlives D.files D.moment D.since D.read_at D.lasted_at b c
        → Outlives D.files D.moment D.since D.read_at D.lasted_at a c }
{}

/// Where the log of a store lives, each image of now shows all entries that are logged, in the
/// order of the log.
pub fn what_is_logged_lasts<D: Disk>()
    ensures { (s : NoteState D) → IsNoteLog s
        → Lives D.files D.moment D.since D.leaves D.read_at D.lasted_at s.log
        → LeavesLogged D.files D.leaves D.read_at s }
{}

/// What was logged before a first call is in each image since then, also of later calls.
pub fn what_was_logged_stays<D: Disk>()
    ensures { (before now : NoteState D) (more : List entry_note) → IsNoteLog before
        → IsNoteLog now → now.logged ≡ before.logged ++ more
        → Outlives D.files D.moment D.since D.read_at D.lasted_at before.log now.log
        → LeavesLoggedSince D.files D.moment D.since D.read_at before now }
{}
