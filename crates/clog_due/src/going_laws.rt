//! Laws of a folder that a store writes: what is due may go there, and once it has gone, whole or
//! in part, the folder is the store's still.
ghost use Rattle.std.specs.Prelude.{◌≡◌, ◌+◌, ◌<◌, ◌^◌, ℕ, Bool, true, List, Contains, take};
ghost use Rattle.clog_disk.specs.Files.{Files};
ghost use Rattle.clog_crash.specs.Flush.{IsCovered};
ghost use Rattle.clog_crash.specs.Log.{Write};
ghost use Rattle.path_core.specs.Keeper.{Holding, IsDue};
ghost use Rattle.clog_due.specs.Dropping.{AreDue};
ghost use Rattle.clog_segments.specs.Discards.{all_gone_at, first_gone_at};
ghost use Rattle.clog_segments.specs.NoteLog.{HasLog, IsNoteLog, NoteState};
ghost use Rattle.clog_segments.specs.StoreFolder.{
  Deeds,
  HoldsStore,
  IsSound,
  MayBeDropped,
  StoreLog,
  deeds_of,
  log_of,
  with_first_gone,
  with_gone,
};

use clog_disk::Disk;

/// Once segments have gone the folder is that of the store which has dropped them.
pub fn a_folder_without_dropped_segments_is_a_stores()
    ensures { (first f : Files) (log : StoreLog) (deeds : Deeds) (ordinals : List ℕ)
        → HoldsStore first log deeds f → ((w : Write) → Contains log.past w → w.id < log.id)
        → log.id < 2 ^ 63 → MayBeDropped log deeds ordinals
        → HoldsStore first log (with_gone deeds ordinals)
        (all_gone_at deeds.archives log.base ordinals f) }
{}

/// So it is where the first of them have gone, and the next one has perhaps got its archive name.
pub fn a_folder_with_some_dropped_is_a_stores()
    ensures { (first f : Files) (log : StoreLog) (deeds : Deeds) (ordinals : List ℕ) (n : ℕ)
        (is_named : Bool) → HoldsStore first log deeds f
        → ((w : Write) → Contains log.past w → w.id < log.id) → log.id < 2 ^ 63
        → MayBeDropped log deeds ordinals → (is_named ≡ true → deeds.archives ≡ true)
        → HoldsStore first log (with_first_gone deeds ordinals n is_named)
        (first_gone_at deeds.archives log.base ordinals n is_named f) }
{}

/// Older segments of a store that are due may be dropped.
pub fn due_segments_of_a_store_may_be_dropped<D: Disk>()
    ensures { (first f : Files) (s : NoteState D) (h : Holding) (closed : ℕ) (ordinals : List ℕ)
        → HoldsStore first (log_of s) (deeds_of h) f → IsSound s.log → IsNoteLog s → HasLog s h
        → AreDue h closed ordinals → ((o : ℕ) → Contains ordinals o → s.base + o < s.log.id)
        → MayBeDropped (log_of s) (deeds_of h) ordinals }
{}

/// Table files stand for all their cells.
pub fn due_segments_of_a_store_are_covered<D: Disk>()
    ensures { (first f : Files) (s : NoteState D) (h : Holding) (closed o : ℕ)
        → HoldsStore first (log_of s) (deeds_of h) f → IsSound s.log → IsNoteLog s → HasLog s h
        → IsDue h closed o → s.base + o < s.log.id
        → IsCovered f s.log.id (take s.log.synced s.log.sections) (s.base + o) }
{}
