//! Laws of a folder that a store writes: it holds what the store's keeper has in mind, so that what
//! may be put is true of it; and it stays so from the opening on, over a sync, in a later segment,
//! and with a table file more. That it stays so while segments go is said in `clog_due`.
ghost use Rattle.std.specs.Prelude.{
  ◌≡◌,
  ◌+◌,
  ◌<◌,
  ◌≤◌,
  ◌^◌,
  ◌++◌,
  ℕ,
  Bool,
  List,
  [],
  length,
  Some,
  None,
  Contains,
  take,
};
ghost use Rattle.std.specs.FinMap as finmap;
ghost use Rattle.clog_spec.specs.Names.{segment_name_of, table_name_of};
ghost use Rattle.clog_base.specs.declared.cell.Table.{Table as table_number};
ghost use Rattle.clog_base.specs.Positions.{ordinal_of, position_of};
ghost use Rattle.clog_disk.specs.Files.{Files, bytes_at};
ghost use Rattle.clog_crash.specs.Folder.{IsBase};
ghost use Rattle.clog_crash.specs.Log.{Write};
ghost use Rattle.clog_crash.specs.Rest.{settled};
ghost use Rattle.clog_crash.specs.Sections.{segment_bytes};
ghost use Rattle.path_core.specs.declared.note.EntryNote.{EntryNote as entry_note};
ghost use Rattle.path_core.specs.Keys.{after, marker_size};
ghost use Rattle.path_core.specs.Keeper.{Holding, IsDue, MayPublish, PutFile};
ghost use Rattle.clog_segments.specs.Life.{past_with};
ghost use Rattle.clog_segments.specs.Named.{HasSequence, OneHas};
ghost use Rattle.clog_segments.specs.NoteLog.{
  HasLog,
  IsHeld,
  IsNoteLog,
  LeavesOthers,
  NoteState,
  Reaches,
};
ghost use Rattle.clog_segments.specs.OnDisk.{IsAllOnDisk, file_on};
ghost use Rattle.clog_segments.specs.Opened.{IsOpened};
ghost use Rattle.clog_segments.specs.Publishes.{IsTrueHere};
ghost use Rattle.clog_segments.specs.StoreFolder.{
  Deeds,
  EndsWithin,
  GoesOn,
  HoldsStore,
  IsNextFile,
  IsSound,
  PlacedFile,
  StoreLog,
  deeds_of,
  fresh_log,
  log_of,
  name_of,
  no_deeds,
  with_file,
};

use clog_disk::Disk;

/// A folder that holds just what a store wrote, put and dropped has on it what the store's keeper
/// has in mind, with the sections that last.
pub fn a_store_has_all_on_disk<D: Disk>()
    ensures { (first f : Files) (s : NoteState D) (h : Holding)
        → HoldsStore first (log_of s) (deeds_of h) f → IsSound s.log → IsNoteLog s → HasLog s h
        → IsAllOnDisk h (settled f s.log.id (take s.log.synced s.log.sections)) }
{}

/// At the end of its opening a folder is that of a store which has written, put and dropped
/// nothing.
pub fn an_opened_folder_is_a_stores()
    ensures { (before now : Files) (moment base : ℕ) (archives : Bool)
        → IsOpened before moment base now
        → HoldsStore now (fresh_log base) (no_deeds archives) now }
{}

/// Once a table file has come the folder is that of the store which has put it.
pub fn a_folder_with_a_put_file_is_a_stores()
    ensures { (first f : Files) (log : StoreLog) (deeds : Deeds) (file : PlacedFile)
        → HoldsStore first log deeds f → ((w : Write) → Contains log.past w → w.id < log.id)
        → log.id < 2 ^ 63 → IsNextFile log.base f file → GoesOn deeds.files file.put
        → HoldsStore first log (with_file deeds file.put)
        (finmap.insert f (name_of file) file.bytes) }
{}

/// After a sync the folder is that of the store with the sections that it has written and the
/// entries that it has logged.
pub fn a_folder_after_a_sync_is_a_stores<D: Disk>()
    ensures { (first f g : Files) (before now : NoteState D) (deeds : Deeds)
        (run : List entry_note) → HoldsStore first (log_of before) deeds f → IsSound before.log
        → IsSound now.log → LeavesOthers before.log now.log (Some f) (Some g)
        → bytes_at g (segment_name_of 6 now.log.id) ≡ segment_bytes now.log.id now.log.sections
        → now.base ≡ before.base → now.logged ≡ before.logged ++ run
        → ((n : entry_note) → Contains run n → Contains deeds.dropped (ordinal_of n.start.0) → ⊥)
        → HoldsStore first (log_of now) deeds g }
{}

/// What a store's keeper may put is true of the folder, where the log has gone on far enough.
pub fn what_a_store_may_publish_is_true<D: Disk>()
    ensures { (first f : Files) (s : NoteState D) (h : Holding) (put : PutFile) (sequence : ℕ)
        → HoldsStore first (log_of s) (deeds_of h) f → IsSound s.log → IsNoteLog s → HasLog s h
        → MayPublish h put → finmap.get f (table_name_of put.table sequence) ≡ None
        → EndsWithin s.log.id (take s.log.synced s.log.sections) (position_of s.base put.upper)
        → IsTrueHere f s.log.id (take s.log.synced s.log.sections) (file_on s.base put) sequence }
{}

/// Where a store's log goes on in a later segment, the folder is its still.
pub fn a_folder_stays_a_stores_in_a_later_segment()
    ensures { (first f : Files) (log : StoreLog) (deeds : Deeds) (next : ℕ)
        → HoldsStore first log deeds f → ((w : Write) → Contains log.past w → w.id < log.id)
        → log.id < next → next < 2 ^ 63
        → bytes_at f (segment_name_of 6 log.id) ≡ segment_bytes log.id log.sections
        → HoldsStore first (record log {
          past = past_with log.past log.id log.sections;
          id = next;
          sections = [];
        }) deeds f }
{}

/// A file ends within what lasts, or behind the marker that comes there, unless it ends behind that
/// of the synced key's segment and the log is there.
pub fn a_store_has_gone_on_far_enough<D: Disk>()
    ensures { (s : NoteState D) (upper : ℕ) → IsSound s.log → Reaches s.base s.log s.synced
        → upper ≤ after s.sizes.capacity s.synced
        → (s.log.id ≡ s.base + ordinal_of s.synced → 0 < s.synced
        → (ordinal_of upper ≤ ordinal_of s.synced) × (upper ≤ s.synced + marker_size))
        → EndsWithin s.log.id (take s.log.synced s.log.sections) (position_of s.base upper) }
{}

/// Where the segment at hand is due, all of it lasts, and nothing that is kept was written.
pub fn a_due_segment_at_hand_lasts<D: Disk>()
    ensures { (s : NoteState D) (h : Holding) (closed : ℕ) → IsSound s.log → IsNoteLog s
        → IsHeld s → HasLog s h → (o : ℕ) → IsDue h closed o → s.base + o ≡ s.log.id
        → (s.written ≡ 0) × (s.log.synced ≡ length s.log.sections) }
{}

/// The next sequence of a table fits its name, as long as a store may put files.
pub fn a_store_has_a_next_sequence()
    ensures { (first f : Files) (log : StoreLog) (deeds : Deeds) (table : table_number)
        (sequence : ℕ) → HoldsStore first log deeds f
        → ((w : Write) → Contains log.past w → w.id < log.id) → log.id < 2 ^ 63
        → IsBase (OneHas (HasSequence table) (finmap.keys f)) 1 sequence
        → length deeds.files < 2 ^ 47 → sequence < 2 ^ 63 }
{}
