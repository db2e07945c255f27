//! Worked rows: of three lines that two writers log, which histories a crash may leave; what a
//! flush leaves of a line's updates.
ghost use Rattle.std.specs.Prelude.{◌≡◌, [], ◌∷◌, reverse};
ghost use Rattle.clog_closing.specs.Written.{HoldsFirsts};
ghost use Rattle.clog_shares.specs.Tallied.{IsTallied};
ghost use Rattle.clog_writers.specs.Worked.{all_three, by_another, second_alone, third_early};
ghost use Rattle.clog_writers.specs.Worked.{three_lines};
ghost use Rattle.clog_writers.specs.WorkedTally.{flushed_one, logged_one, the_note};
ghost use Rattle.path_flush.specs.OwnWrites.{writes_of};

/// A line may come before one of another writer, and not before an earlier one of its own, nor from
/// another writer than its own.
pub fn a_line_comes_behind_the_earlier_ones_of_its_writer()
    ensures other { HoldsFirsts 2 three_lines second_alone }
    ensures all { HoldsFirsts 2 three_lines all_three }
    ensures own { HoldsFirsts 2 three_lines third_early → ⊥ }
    ensures foreign { HoldsFirsts 2 three_lines by_another → ⊥ }
{}

/// One line has one update of table 0, and its writer flushes at one. Where it has retired a
/// memtable that is final at the entry's end, none is left. It is left where no memtable is
/// retired, or one that is final in front of that end; no second one is. At a limit of two the one
/// update does not pay for the memtable that the flush has opened.
pub fn a_flush_leaves_no_update_below_its_bound()
    ensures writes { reverse (writes_of (flushed_one 60)) ≡ the_note ∷ [] }
    ensures flushed { IsTallied 1 0 0 0 (the_note ∷ []) (flushed_one 60) }
    ensures unretired { IsTallied 1 0 0 1 (the_note ∷ []) logged_one }
    ensures left { IsTallied 1 0 0 0 (the_note ∷ []) logged_one → ⊥ }
    ensures more { IsTallied 1 0 0 2 (the_note ∷ []) logged_one → ⊥ }
    ensures short { IsTallied 1 0 0 0 (the_note ∷ []) (flushed_one 59) → ⊥ }
    ensures unpaid { IsTallied 2 0 0 0 (the_note ∷ []) (flushed_one 60) → ⊥ }
{}
