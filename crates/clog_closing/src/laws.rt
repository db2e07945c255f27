//! What a store's calls say, in the words of a run.
ghost use Rattle.std.specs.Prelude.{
  ◌≡◌,
  ◌↔◌,
  ◌+◌,
  ◌++◌,
  ℕ,
  List,
  [],
  ◌∷◌,
  map,
  Option,
  Some,
  Contains,
  length,
  ◌<◌,
  ◌≤◌,
};
ghost use Rattle.clog_cells.specs.Merge.{IsMergeOf};
ghost use Rattle.clog_base.specs.declared.cell.Table.{Table};
ghost use Rattle.clog_base.specs.declared.sizes.Sizes.{Sizes};
ghost use Rattle.clog_disk.specs.declared.change.Change.{Change};
ghost use Rattle.clog_disk.specs.Files.{Files};
ghost use Rattle.clog_scan.specs.Cut.{Section};
ghost use Rattle.clog_scan.specs.Laws.{IsFile};
ghost use Rattle.clog_spec.specs.Sizes.{file_limit, greatest_capacity};
ghost use Rattle.clog_mutation.specs.declared.mutation.Mutation.{Mutation};
ghost use Rattle.clog_words.specs.declared.request.ApplyOptions.{ApplyOptions};
ghost use Rattle.clog_crash.specs.Droppable.{IsDroppable};
ghost use Rattle.clog_crash.specs.Grown.{appends_of};
ghost use Rattle.clog_crash.specs.Log.{Write};
ghost use Rattle.clog_crash.specs.Runs.{placed_log};
ghost use Rattle.path_core.specs.declared.note.EntryNote.{EntryNote};
ghost use Rattle.path_core.specs.History.{IsHistory};
ghost use Rattle.path_core.specs.Keeper.{
  Holding,
  IsFresh,
  IsLoggedCell,
  MayDrop,
  MayPublish,
  Publishes,
  PutFile,
};
ghost use Rattle.path_core.specs.Whole.{IsWhole};
ghost use Rattle.clog_segments.specs.Grows.{IsGrown, segments_with};
ghost use Rattle.clog_segments.specs.Notes.{places_of};
ghost use Rattle.clog_segments.specs.OnDisk.{file_on};
ghost use Rattle.clog_segments.specs.Filing.{AreRecoveryPuts};
ghost use Rattle.clog_segments.specs.Named.{id_limit};
ghost use Rattle.clog_segments.specs.Opened.{CanBeOpened, HasRoomFor, IsOpened, RecoversAll};
ghost use Rattle.clog_segments.specs.StoreFolder.{Deeds, StoreLog};
ghost use Rattle.clog_applied.specs.Appended.{IsAppended, appended, entries_in};
ghost use Rattle.clog_applied.specs.Asked.{capacity_of};
ghost use Rattle.clog_applied.specs.Closed.{ClosedRun, IsStoreLeft};
ghost use Rattle.clog_applied.specs.Filed.{FollowFrom, IsTrueFor, files_of, first_of};
ghost use Rattle.clog_applied.specs.History.{LoggedLine};
ghost use Rattle.clog_applied.specs.Log.{AreSyncedApart};
ghost use Rattle.clog_applied.specs.Onward.{ReachesNoFurther};
ghost use Rattle.clog_applied.specs.Opening.{IsOpening, IsRecoveryChange};
ghost use Rattle.clog_layout.specs.Logged.{AreNotesOf};
ghost use Rattle.clog_closing.specs.NextNames.{HaveNextNames};
ghost use Rattle.clog_closing.specs.Gaps.{HasGap, StandApart};
ghost use Rattle.clog_closing.specs.Logs.{AreStoredInOrder, written_ids};
ghost use Rattle.clog_closing.specs.Sequence.{AreInSequence};
ghost use Rattle.clog_closing.specs.Stores.{HasEnded, dropped_ids, files_by, ids_in};

/// What a recovery has added to a disk's changes are table files of the folder's own log and
/// removals of its segments. A folder that was opened by such changes is opened for a run.
pub fn openings_are_those_of_runs()
    ensures changes { (first : Files) (made : List Change) (now : Option (List Change))
        → RecoversAll first (Some made) now
        → (recovery : List Change) × (now ≡ Some (made ++ recovery))
        × ((c : Change) → Contains recovery c → IsRecoveryChange first c) }
    ensures opening { (first now : Files) (moment base : ℕ) (recovery : List Change)
        → IsOpened first moment base now
        → ((c : Change) → Contains recovery c → IsRecoveryChange first c)
        → IsOpening first now recovery base }
{}

/// A run may be followed by another: where its folder could be opened before, it can be behind it,
/// as long as there was room for its ids, and for one file more of each table than it has put.
pub fn a_run_may_follow()
    ensures { (o : ApplyOptions) (before after : Files) (changes : List Change)
        (mutations : List Mutation) → (run : ClosedRun o before after changes mutations)
        → ReachesNoFurther o run.base run.later run.ids run.history run.files
        → HaveNextNames run.opened after run.files → AreRecoveryPuts before run.opened
        → CanBeOpened before → HasRoomFor before (1 + length run.files)
        → capacity_of o ≤ file_limit → run.base + length run.ids < id_limit
        → CanBeOpened after }
{}

/// Where a disk's changes have brought just the sections of a log, and these hold just the entries
/// of notes, what was appended is the history of the notes.
pub fn logs_of_notes_are_appended()
    ensures is_appended { (changes : List Change) (base : ℕ) (past : List Write) (id : ℕ)
        (sections : List Section) (notes : List EntryNote) (history : List LoggedLine)
        → IsGrown (appends_of changes) past id sections
        → AreStoredInOrder (segments_with past id sections)
        → placed_log past id sections ≡ places_of base notes → AreNotesOf base notes history
        → IsAppended changes (written_ids (segments_with past id sections)) history }
    ensures are_files { (changes : List Change) (base : ℕ) (past : List Write) (id : ℕ)
        (sections : List Section) (notes : List EntryNote) (history : List LoggedLine)
        → IsGrown (appends_of changes) past id sections
        → AreStoredInOrder (segments_with past id sections)
        → placed_log past id sections ≡ places_of base notes → AreNotesOf base notes history
        → (i : ℕ) → Contains (written_ids (segments_with past id sections)) i
        → IsFile (appended changes i) }
{}

/// Entries of one section stand end to end. So where a marker parts each two entries of one writer
/// in such a log, no section of what was appended holds two of them.
pub fn entries_apart_are_in_two_sections()
    // A marker of 8 bytes parts an entry that ends at 60 from one that starts at 68.
    ensures gap { (a b : EntryNote) → a.end.0 ≡ 60 → b.start.0 ≡ 68
        → HasGap 4096 (a ∷ b ∷ []) 60 68 }
    // Another entry between two of them does not.
    ensures filled { (a b c : EntryNote) → a.end.0 ≡ 60 → b.start.0 ≡ 60 → b.end.0 ≡ 92
        → c.start.0 ≡ 92 → HasGap 4096 (a ∷ b ∷ c ∷ []) 60 92 → ⊥ }
    ensures synced { (changes : List Change) (base : ℕ) (past : List Write) (id : ℕ)
        (sections : List Section) (notes : List EntryNote) (history : List LoggedLine)
        (capacity : ℕ) → IsGrown (appends_of changes) past id sections
        → AreStoredInOrder (segments_with past id sections)
        → placed_log past id sections ≡ places_of base notes → AreNotesOf base notes history
        → capacity ≤ greatest_capacity → IsHistory capacity notes → StandApart capacity notes
        → AreSyncedApart changes history }
{}

/// A table file that a keeper has put, and that has the merge of what its interval holds of the
/// entries that last, is true for their history.
pub fn put_files_are_true()
    ensures { (h : Holding) (history : List LoggedLine) (put : PutFile)
        → IsHistory h.sizes.capacity h.logged → AreNotesOf h.base h.logged history
        → ((n : EntryNote) → Contains h.logged n → IsWhole n)
        → IsMergeOf (IsLoggedCell h put) put.cells → IsTrueFor history (file_on h.base put) }
{}

/// Of a keeper that keeps nothing a segment may be dropped exactly where it is droppable by the
/// table files that were put, with its entries of the history of the entries that last.
pub fn segments_may_go_that_are_droppable()
    ensures { (h : Holding) (history : List LoggedLine) (o : ℕ)
        → IsHistory h.sizes.capacity h.logged → AreNotesOf h.base h.logged history
        → h.kept ≡ [] → MayDrop h o
        ↔ IsDroppable (map (file_on h.base) h.files) (h.base + o)
        (entries_in (h.base + o) history) }
{}

/// The table files that a keeper puts are in sequence, from none on; and so they follow one
/// another, table by table, from the base of the run.
pub fn put_files_follow_one_another()
    ensures none { (base : ℕ) (sizes : Sizes) (h : Holding) → IsFresh base sizes h
        → AreInSequence h.files }
    ensures more { (before now : Holding) (f : PutFile) → AreInSequence before.files
        → MayPublish before f → Publishes before now f → AreInSequence now.files }
    ensures follow { (base : ℕ) (table : Table) (files : List PutFile) → AreInSequence files
        → FollowFrom (first_of base) (files_of table (map (file_on base) files)) }
{}

/// A store that has put table files and dropped segments leaves what a run leaves whose path has
/// done all with it: the changes of its disk stand in order, segments are there or have gone as
/// they were appended, and its table files are there.
pub fn stores_are_left()
    ensures { (sizes : Sizes) (opened after : Files) (later : List Change) (log : StoreLog)
        (deeds : Deeds) (history : List LoggedLine)
        → HasEnded sizes opened after later log deeds history
        → IsStoreLeft deeds.archives opened after later (ids_in log) (dropped_ids log deeds) history
        (files_by log deeds) }
{}
