//! Laws of a log of notes that goes on: it takes what a keeper may be asked to write next exactly
//! where it stands no further than that begins.
ghost use Rattle.std.specs.Prelude.{◌≡◌, ◌+◌, ◌<◌, ◌≤◌, ℕ, List, [], length};
ghost use Rattle.clog_base.specs.Positions.{ordinal_of};
ghost use Rattle.path_core.specs.declared.note.EntryNote.{EntryNote as entry_note};
ghost use Rattle.path_core.specs.Keeper.{Holding, IsWritable};
ghost use Rattle.path_core.specs.Keys.{after};
ghost use Rattle.clog_segments.specs.NoteLog.{HasLog, IsHeld, NoteState};
ghost use Rattle.clog_store.specs.StoreTakes.{TakesMore};

use clog_disk::Disk;

/// Where something is kept, a log takes it, and what comes behind it. Where nothing is, it takes
/// what comes next if it stands no further than the place behind the marker that comes there; if it
/// stands further, it does not take a note that may be written there.
pub fn a_log_takes_what_comes_next<D: Disk>()
    ensures kept { (s : NoteState D) (dropped : List ℕ) → IsHeld s → s.written ≤ length s.kept
        → 0 < length s.kept → TakesMore s dropped }
    ensures behind { (s : NoteState D) (dropped : List ℕ) → s.written ≡ 0
        → s.log.id ≤ s.base + ordinal_of (after s.sizes.capacity s.synced)
        → TakesMore s dropped }
    ensures further { (s : NoteState D) (h : Holding) (n : entry_note) → HasLog s h
        → s.kept ≡ [] → s.written ≡ 0 → IsWritable h n
        → n.start.0 ≡ after s.sizes.capacity s.synced
        → s.base + ordinal_of (after s.sizes.capacity s.synced) < s.log.id
        → TakesMore s h.dropped → ⊥ }
{}
