//! Worked lists that no run leaves: each clause refuses one.
ghost use Rattle.std.specs.Prelude.{◌∷◌, ℕ, Bool, List, [], false, true};
ghost use Rattle.sync_core.specs.declared.SyncCore.TheVariants.{Periodic};
ghost use Rattle.clog_disk.specs.declared.change.Change.{Change};
ghost use Rattle.clog_disk.specs.Files.{Files, no_files};
ghost use Rattle.clog_table.specs.declared.table_file.TableFile.{TableFile};
ghost use Rattle.clog_crash.specs.Folder.{IsHeld};
ghost use Rattle.clog_applied.specs.Applied.{IsAppliedRun};
ghost use Rattle.clog_applied.specs.Early.{AreRunChanges, NothingGoesEarly};
ghost use Rattle.clog_applied.specs.Filed.{FollowFrom, IsTrueFor, first_of};
ghost use Rattle.clog_applied.specs.History.{HoldsShares};
ghost use Rattle.clog_applied.specs.Log.{AreSyncedApart};
ghost use Rattle.clog_applied.specs.Worked.{
  asked,
  asked_to_archive,
  both_changes,
  both_logged,
  come_early,
  drained_changes,
  file_to,
  goes_in,
  gone_early,
  log_name,
  one_line,
  one_logged,
  strays,
  the_end,
  twice_logged,
  two_lines,
  with_gap,
};
ghost use Rattle.clog_applied.specs.WorkedWrong.{
  by_the_other,
  out_of_order,
  start_told,
  three_lines,
  without_cell,
};

/// Whatever else is left and printed: a segment that goes before the table file comes that holds
/// it, a table file that comes before the log behind it, a segment that goes without its archive
/// name where archives are kept, and a line whose entry is appended twice. And a segment that may
/// go and is left, and a foreign name that comes and goes again.
pub fn wrong_changes_are_refused()
    ensures gone_early { (after : Files) (report : List ℕ) → ¬ IsAppliedRun
        (asked (Periodic 10000) true) no_files after gone_early one_line report }
    ensures come_early { (after : Files) (report : List ℕ) → ¬ IsAppliedRun
        (asked (Periodic 10000) true) no_files after come_early one_line report }
    ensures unarchived { (after : Files) (report : List ℕ) → ¬ IsAppliedRun asked_to_archive
        no_files after drained_changes one_line report }
    ensures appended_twice { (after : Files) (report : List ℕ) → ¬ IsAppliedRun
        (asked (Periodic 10000) false) no_files after both_changes one_line report }
    ensures left { (archive drain : Bool) (after : Files) (changes : List Change)
        → IsHeld after log_name → ¬ NothingGoesEarly archive drain no_files after changes
        (1000 ∷ []) one_logged (file_to the_end ∷ []) }
    ensures stray { (archive : Bool) (ids : List ℕ) (files : List TableFile)
        → ¬ AreRunChanges archive ids files strays }
{}

/// A line that is logged twice, or not at all; a writer's lines out of their order, or logged by
/// the other writer; and two entries of one writer in one section in batch mode.
pub fn wrong_histories_are_refused()
    ensures twice { ¬ HoldsShares 1 one_line twice_logged }
    ensures not_logged { ¬ HoldsShares 1 one_line [] }
    ensures out_of_order { ¬ HoldsShares 2 three_lines out_of_order }
    ensures by_the_other { ¬ HoldsShares 2 two_lines by_the_other }
    ensures in_one_section { ¬ AreSyncedApart both_changes both_logged }
{}

/// Table files with a gap between them, and one that lacks a cell of its interval; and, whatever is
/// left, a receipt that names where the entry starts.
pub fn wrong_files_and_receipts_are_refused()
    ensures gap { ¬ FollowFrom (first_of 1000) with_gap }
    ensures lacks_a_cell { ¬ IsTrueFor one_logged without_cell }
    ensures start_told { (after : Files) → ¬ IsAppliedRun (asked (Periodic 10000) false) no_files
        after (goes_in ∷ []) one_line start_told }
{}
