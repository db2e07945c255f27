//! When a store's segments go, and behind which of its changes, by worked rows.
ghost use Rattle.std.specs.Prelude.{Bool, ℕ, [], true, ◌∷◌};
ghost use Rattle.path_core.specs.Keeper.{Drops, Holding, PutFile};
ghost use Rattle.clog_segments.specs.StoreFolder.{PlacedFile};
ghost use Rattle.clog_segments.specs.StoreOrder.{AreOrdered};
ghost use Rattle.clog_due.specs.WorkedOrder.{
  IsFirstFile,
  the_changes,
  the_deeds,
  the_early_file,
  the_first_file,
  the_late_name,
  the_log,
  the_wrong_changes,
};
ghost use Rattle.clog_due.specs.WorkedTables.{FirstHasGone, HasPut, IsUpToSecond, NoneHasGone};

/// A worked row: an entry is logged, a table file that holds it comes, and its segment goes, with
/// an archive name first or without one. That is in order; and it is not where the segment goes
/// before the table file comes, where the table file comes before its entry was appended, or where
/// the segment goes before it has its archive name. There is such a table file.
pub fn a_segment_goes_behind_its_table_file()
    ensures right { (archives : Bool) (p : PlacedFile) → IsFirstFile p
        → AreOrdered the_log (the_deeds archives p.put) (the_changes archives p) }
    ensures wrong { (archives : Bool) (p : PlacedFile) → IsFirstFile p
        → AreOrdered the_log (the_deeds archives p.put) (the_wrong_changes archives p) → ⊥ }
    ensures early { (archives : Bool) (p : PlacedFile) → IsFirstFile p
        → AreOrdered the_log (the_deeds archives p.put) (the_early_file archives p) → ⊥ }
    ensures late { (p : PlacedFile) → IsFirstFile p
        → AreOrdered the_log (the_deeds true p.put) (the_late_name p) → ⊥ }
    ensures there { IsFirstFile the_first_file }
{}

/// A worked row: entries of two tables stand in the first segment. Once a file of the one table is
/// put, dropping answers 0; once files of both are, it answers 1, and the segment has gone, with
/// its archive name where segments get one.
pub fn a_segment_waits_for_both_its_tables()
    ensures waits { (h now : Holding) (count : ℕ) (put : PutFile) → HasPut h (put ∷ [])
        → IsUpToSecond 0 put → Drops h now 1 count → NoneHasGone now count }
    ensures goes { (h now : Holding) (count : ℕ) (first second : PutFile)
        → HasPut h (first ∷ second ∷ []) → IsUpToSecond 0 first → IsUpToSecond 1 second
        → Drops h now 1 count → FirstHasGone h.opening.archives now count }
{}
