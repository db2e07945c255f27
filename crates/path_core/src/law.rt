//! What the path keeps, whatever the order of its steps: over each list of allowed steps from an
//! opening. Nothing here runs; each function's contract is a promise of the path.
ghost use Rattle.std.specs.Prelude.{◌≡◌, ℕ, suc, ◌<◌, ◌≤◌, List, reverse, length, Some, IsTrue};
ghost use Rattle.std.specs.List.{Contains};
ghost use Rattle.clog_base.specs.declared.cell.Table.{Table};
ghost use Rattle.op_core.specs.declared.count.Order.{Order};
ghost use Rattle.op_core.specs.Tallies.{IsPassed};
ghost use Rattle.path_core.specs.declared.event.Event.{Event};
ghost use Rattle.path_core.specs.declared.event.Event.TheVariants.{OpenGroup, Switch};
ghost use Rattle.path_core.specs.declared.event.SwitchPart.TheVariants.{Open};
ghost use Rattle.path_core.specs.declared.note.EntryNote.{EntryNote};
ghost use Rattle.path_core.specs.declared.state.Claim.{Claim};
ghost use Rattle.path_core.specs.declared.state.PathState.{PathState};
ghost use Rattle.path_core.specs.declared.state.WrittenFile.{WrittenFile};
ghost use Rattle.path_core.specs.Keys.{ordinal_of};
ghost use Rattle.path_core.specs.Parts.{
  touches,
  is_entry,
  groups_of,
  seat_of,
  table_of,
  group_in,
  HasPassedBarrier,
};
ghost use Rattle.path_core.specs.Whole.{IsWhole};
ghost use Rattle.path_core.specs.History.{IsHistory};
ghost use Rattle.path_core.specs.Allowed.{IsAllowed};
ghost use Rattle.path_core.specs.Markers.{HasPassedMarker};
ghost use Rattle.path_core.specs.Runs.{IsOpening, Run, Past};
ghost use Rattle.path_core.specs.Droppable.{IsDroppable};
ghost use Rattle.path_core.specs.Lawful.{IsLawfulPath};
ghost use Rattle.path_core.specs.LawfulLog.{LoggedIsSynced, SyncedIsMarker};
ghost use Rattle.path_core.specs.LawfulOrders.{SwitchesHeld};
ghost use Rattle.path_core.specs.LawfulPlaces.{IsClosed, PlacedOnce, HasOnePlace};
ghost use Rattle.path_core.specs.LawfulSeats.{SeatKnows};
ghost use Rattle.path_core.specs.LawfulTables.{
  FilesFollow,
  FileIsOfRetired,
  RetiredIsFiled,
  FileHoldsItsInterval,
};
ghost use Rattle.path_core.specs.Promises.{
  AreApart,
  IsDeposited,
  IsPlacedRight,
  HoldsItsInterval,
  NoneRuns,
  LeavesPlaced,
  IsInFile,
};

/// Each list of allowed steps leads to a lawful state. In a lawful state
/// - each claim stands where the rule of allocation puts it behind the one before, and each entry
///   claim is a seat's that has not deposited it, or is in the notes once; each note is whole;
/// - counts stand for the seats in their groups, all groups below the current one are expired but
///   one that is being replaced, and each turn has at most one holder;
/// - while the newest switch of a table is not through, a seat holds the table's turn;
/// - the newest memtable of a table is live, the one below it may still be live or raising, all
///   others are final and retired, and final bounds never fall from one memtable to the next;
/// - each entry is placed in at most one memtable of each of its tables, above the final bound
///   before it, and at or below its own once that is final; where its write is closed, in exactly
///   one;
/// - writes of later groups than a barrier's end above the bound, or the marker, that the barrier
///   was issued for;
/// - a retired memtable is final, its barrier is passed, and what was placed in it is in its file;
///   the files of a table follow one another, and each holds exactly what touches the table in its
///   interval;
/// - the synced key is 0 or the start of a marker; what is logged is exactly the part of the notes
///   up to there, and each entry claimed up to there is among them;
/// - each dropped segment is droppable;
/// - what each seat found or put still stands.
pub fn every_run_is_lawful()
    ensures { (x y : PathState) (events : List Event) → IsOpening x → Run x events y
        → IsLawfulPath y }
{}

/// So does each run that is told from its end, in which barriers may be issued for nothing: the law
/// needs no marker and no memtable that waits for one.
pub fn every_past_is_lawful()
    ensures { (x y : PathState) (events : List Event) → IsOpening x → Past x events y
        → IsLawfulPath y }
{}

/// Each list of allowed steps is such a run, told from its end.
pub fn runs_are_told_from_their_end()
    ensures { (x y : PathState) (events : List Event) → Run x events y
        → Past x (reverse events) y }
{}

/// Claimed ranges never overlap, and stand in the order in which they were claimed.
pub fn claims_never_overlap()
    ensures { (x y : PathState) (events : List Event) → IsOpening x → Run x events y
        → AreApart y.claims }
{}

/// The notes are a history: each lies in one segment, behind its front, and is as long as its
/// bytes; they stand in the order of the log, and do not overlap.
pub fn notes_are_a_history()
    ensures { (x y : PathState) (events : List Event) → IsOpening x → Run x events y
        → IsHistory y.capacity y.notes }
{}

/// Each note is whole: its bytes are the entry of a mutation, and its tables are the mutation's.
pub fn notes_are_whole()
    ensures { (x y : PathState) (events : List Event) (n : EntryNote) → IsOpening x
        → Run x events y → Contains y.notes n → IsWhole n }
{}

/// A segment that was dropped was droppable, and still is: it is closed, all its entries are
/// logged, and each table's files hold all that it holds of the table.
pub fn dropped_was_droppable()
    ensures { (x y : PathState) (events : List Event) (o : ℕ) → IsOpening x → Run x events y
        → Contains y.dropped o → IsDroppable y o }
{}

/// Each entry of a segment that was dropped is in a file of each of its tables.
pub fn dropped_entries_are_in_files()
    ensures { (x y : PathState) (events : List Event) (o : ℕ) (n : EntryNote) (t : ℕ)
        → IsOpening x → Run x events y → Contains y.dropped o → Contains y.notes n
        → ordinal_of n.start.0 ≡ o → IsTrue (touches n.tables t) → IsInFile y t n.end.0 }
{}

/// Each entry has at most one place at a table, those of running writes among them.
pub fn writes_are_placed_at_most_once()
    ensures { (x y : PathState) (events : List Event) → IsOpening x → Run x events y
        → PlacedOnce y }
{}

/// Each write that is closed has exactly one place at each of its tables.
pub fn closed_writes_are_placed_once()
    ensures { (x y : PathState) (events : List Event) (n : EntryNote) (t : ℕ) → IsOpening x
        → Run x events y → Contains y.notes n → IsClosed y n → IsTrue (touches n.tables t)
        → HasOnePlace y t n.end.0 }
{}

/// Each write that is closed is placed in exactly one memtable of each of its tables: the one whose
/// log interval holds its position.
pub fn closed_writes_are_placed_in_one_memtable()
    ensures { (x y : PathState) (events : List Event) (n : EntryNote) (t : ℕ) → IsOpening x
        → Run x events y → Contains y.notes n → IsClosed y n → IsTrue (touches n.tables t)
        → IsPlacedRight y t n.end.0 }
{}

/// What is placed in a memtable whose barrier is passed is exactly what touches its table in its
/// log interval.
pub fn passed_memtables_hold_their_intervals()
    ensures { (x y : PathState) (events : List Event) (t m : ℕ) → IsOpening x → Run x events y
        → HasPassedBarrier y t m → HoldsItsInterval y t m }
{}

/// No running write has its place in a memtable whose barrier is passed.
pub fn no_write_runs_in_a_passed_memtable()
    ensures { (x y : PathState) (events : List Event) (t m : ℕ) → IsOpening x → Run x events y
        → HasPassedBarrier y t m → NoneRuns y t m }
{}

/// What is placed in a memtable whose barrier is passed is the same after each allowed step.
pub fn passed_memtables_rest()
    ensures { (x y : PathState) (events : List Event) (e : Event) (t m : ℕ) → IsOpening x
        → Run x events y → IsAllowed y e → HasPassedBarrier y t m → LeavesPlaced y e t m }
{}

/// A retired memtable is final and its barrier is passed, no unfinished write that may touch its
/// table ends at or below its bound, and where something was placed in it, it has a file, whose
/// interval ends at its bound and holds its own.
pub fn retired_memtables_are_filed()
    ensures { (x y : PathState) (events : List Event) (t m : ℕ) → IsOpening x → Run x events y
        → t < length y.tables → m < (table_of y t).oldest_live → RetiredIsFiled y t m }
{}

/// A file is of a retired memtable, and ends at its bound.
pub fn files_are_of_retired_memtables()
    ensures { (x y : PathState) (events : List Event) (f : WrittenFile) → IsOpening x
        → Run x events y → Contains y.files f → FileIsOfRetired y f }
{}

/// The files of a table follow one another from key 0: each begins where the one before it ends.
pub fn files_follow_one_another()
    ensures { (x y : PathState) (events : List Event) (t : ℕ) → IsOpening x → Run x events y
        → FilesFollow y t }
{}

/// A file holds exactly what touches its table in its interval, and that is what was placed in its
/// memtable.
pub fn files_hold_their_intervals()
    ensures { (x y : PathState) (events : List Event) (f : WrittenFile) → IsOpening x
        → Run x events y → Contains y.files f → FileHoldsItsInterval y f }
{}

/// Each entry that is claimed up to a marker whose barrier is passed is deposited, so a sync up to
/// there misses none.
pub fn entries_up_to_a_passed_marker_are_deposited()
    ensures { (x y : PathState) (events : List Event) (key : ℕ) (c : Claim) → IsOpening x
        → Run x events y → HasPassedMarker y.claims y.append.tallies key → Contains y.claims c
        → IsTrue (is_entry c) → c.end ≤ key → IsDeposited y c }
{}

/// The synced key is 0 or the start of a marker, and at most the log key.
pub fn synced_is_the_start_of_a_marker()
    ensures { (x y : PathState) (events : List Event) → IsOpening x → Run x events y
        → SyncedIsMarker y }
{}

/// What was made lasting is exactly the part of the notes up to the synced key, in the order of the
/// log. Each entry claimed up to there is among them, and no file ends above what is lasting.
pub fn logged_is_the_synced_part()
    ensures { (x y : PathState) (events : List Event) → IsOpening x → Run x events y
        → LoggedIsSynced y }
{}

/// Once the barrier of the group before the current one is passed, each running operation of the
/// order is in the current group.
pub fn operations_run_in_the_current_group()
    ensures { (x y : PathState) (events : List Event) (order : Order) (g w h : ℕ) → IsOpening x
        → Run x events y → IsPassed (groups_of y order).tallies g
        → suc g ≡ (groups_of y order).current → group_in order (seat_of y w) ≡ Some h
        → h ≡ (groups_of y order).current }
{}

/// A group that a step may open was not made before.
pub fn opened_groups_are_new()
    ensures { (x y : PathState) (events : List Event) (by group : ℕ) (order : Order) → IsOpening x
        → Run x events y → IsAllowed y (OpenGroup by order group)
        → group ≡ length (groups_of y order).tallies }
{}

/// A memtable that a step may open was not made before.
pub fn opened_memtables_are_new()
    ensures { (x y : PathState) (events : List Event) (by memtable : ℕ) (table : Table)
        → IsOpening x → Run x events y → IsAllowed y (Switch by table memtable Open)
        → memtable ≡ length (table_of y table.0).memtables }
{}

/// While the newest switch of a table is not through, a seat holds the table's turn.
pub fn a_switch_has_a_holder()
    ensures { (x y : PathState) (events : List Event) → IsOpening x → Run x events y
        → SwitchesHeld y }
{}

/// What a seat found of a word, or put there, still stands: a number that only grows is at least
/// that, a finished count and a final bound are the same, and what the holder of a turn found or
/// put while it held it is exactly what stands there. A raising bound may have risen.
pub fn what_seats_found_stands()
    ensures { (x y : PathState) (events : List Event) (w : ℕ) → IsOpening x → Run x events y
        → SeatKnows y w }
{}
