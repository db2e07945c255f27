//! What the rule of the table says of each moment, for whatever the words, the boxes and the views
//! hold then. Nothing here runs; each function's contract is a promise of the table.
ghost use Rattle.std.specs.Prelude.{
  ◌≡◌,
  ◌<◌,
  ◌≤◌,
  ◌%◌,
  ◌⊎◌,
  ℕ,
  true,
  false,
  List,
  [],
  map,
  Some,
};
ghost use Rattle.std.specs.List.{Contains};
ghost use mathlib.Core.Option.{some};
ghost use lib.ListN.{get_elem?};
ghost use Rattle.atomic_table.specs.Table.{State};
ghost use Rattle.path_core.specs.declared.event.Event.{Event};
ghost use Rattle.path_core.specs.declared.event.Turn.{Turn};
ghost use Rattle.path_core.specs.declared.note.EntryNote.{EntryNote};
ghost use Rattle.path_core.specs.declared.state.Claim.{Claim};
ghost use Rattle.path_core.specs.declared.state.PathState.{PathState};
ghost use Rattle.path_core.specs.declared.state.Placed.{Placed};
ghost use Rattle.path_core.specs.Droppable.{IsDroppable};
ghost use Rattle.path_core.specs.Keeper.{HasRisen};
ghost use Rattle.path_core.specs.Keys.{ordinal_of};
ghost use Rattle.path_core.specs.Lawful.{IsLawfulPath};
ghost use Rattle.path_core.specs.Parts.{holds_turn, last_marker, seat_of, table_of};
ghost use Rattle.path_core.specs.Runs.{Past};
ghost use Rattle.path_rule.specs.declared.lasting.Beside.{Beside};
ghost use Rattle.path_rule.specs.declared.lasting.PutTable.{PutTable};
ghost use Rattle.path_rule.specs.declared.slot.Slot.{Slot};
ghost use Rattle.path_rule.specs.declared.view.FlushRead.{FlushRead};
ghost use Rattle.path_rule.specs.declared.view.PathSize.{PathSize};
ghost use Rattle.path_rule.specs.declared.view.Role.TheVariants.{Steps};
ghost use Rattle.path_rule.specs.declared.view.View.{View};
ghost use Rattle.path_rule.specs.Boxes.{desk_box, memtable_box, DeskIs, HoldsBox, NotesAre};
ghost use Rattle.path_rule.specs.Filing.{IsFileOf, file_range, put_range};
ghost use Rattle.path_rule.specs.InBoxes.{BelongsThere, HasItsPlace, LiesInItsBox};
ghost use Rattle.path_rule.specs.Lasts.{none_filed, shown, shows_of};
ghost use Rattle.path_rule.specs.Memtables.{HasInHand, IsHome};
ghost use Rattle.path_rule.specs.PaidFor.{ArePaidFor};
ghost use Rattle.path_rule.specs.Rule.{AreBuilt, Ruled};
ghost use Rattle.path_rule.specs.Seen.{SeesItsInterval};
ghost use Rattle.path_rule.specs.Stopped.{TakesNothing};

use path_core::Keeper;

/// The state of the machine that the table shows is lawful.
pub fn the_table_shows_a_lawful_state<K: Keeper>()
    ensures { (o : Beside) (size : PathSize) (s : State (Slot K) View)
        (r : Ruled (shows_of K.holds) o size s)
        → IsLawfulPath r.core }
{}

/// While nobody holds the Sync turn, the desk is at home, and the keeper on it shows exactly what
/// the machine has lasting. Its table files are the machine's, and what it dropped is dropped
/// there.
pub fn the_keeper_at_home_shows_what_is_lasting<K: Keeper>()
    ensures { (o : Beside) (size : PathSize) (s : State (Slot K) View)
        (r : Ruled (shows_of K.holds) o size s)
        → ((w : ℕ) → holds_turn (seat_of r.core w) Turn.Sync ≡ false)
        → (y : Slot K) × (get_elem? s.homes desk_box ≡ some (some y))
        × DeskIs (shows_of K.holds) y
        (shown o size.at_open r.kept_to r.filed r.dropped r.core) r.boxed.pending r.boxed.progress
        × (map put_range r.filed.files ≡ map file_range r.core.files)
        × ((ordinal : ℕ) → Contains r.dropped ordinal → Contains r.core.dropped ordinal) }
{}

/// Each table file of the keeper is true for the notes: its cells are the merge of the cells that
/// the notes have of its table in its interval.
pub fn each_table_file_holds_its_interval<K: Keeper>()
    ensures { (o : Beside) (size : PathSize) (s : State (Slot K) View)
        (r : Ruled (shows_of K.holds) o size s) (f : PutTable) → Contains r.filed.files f
        → IsFileOf r.core.notes f }
{}

/// Each segment that the keeper dropped is droppable in the machine, and below that of the synced
/// key.
pub fn what_was_dropped_is_droppable<K: Keeper>()
    ensures { (o : Beside) (size : PathSize) (s : State (Slot K) View)
        (r : Ruled (shows_of K.holds) o size s) (ordinal : ℕ) → Contains r.dropped ordinal
        → IsDroppable r.core ordinal × (ordinal < ordinal_of r.core.synced) }
{}

/// So is each segment that got its archive name. Where the keeper gives archive names each segment
/// that it dropped has its own, and where it gives none there is none.
pub fn what_was_archived_is_droppable<K: Keeper>()
    ensures each { (o : Beside) (size : PathSize) (s : State (Slot K) View)
        (r : Ruled (shows_of K.holds) o size s) (ordinal : ℕ) → Contains r.filed.archived ordinal
        → IsDroppable r.core ordinal × (ordinal < ordinal_of r.core.synced) }
    ensures all { (o : Beside) (size : PathSize) (s : State (Slot K) View)
        (r : Ruled (shows_of K.holds) o size s) → o.archives ≡ true
        → (ordinal : ℕ) → Contains r.dropped ordinal → Contains r.filed.archived ordinal }
    ensures nothing { (o : Beside) (size : PathSize) (s : State (Slot K) View)
        (r : Ruled (shows_of K.holds) o size s) → o.archives ≡ false → r.filed.archived ≡ [] }
{}

/// Where memtables may not go to table files there is none, and no segment is dropped.
pub fn without_files_nothing_goes<K: Keeper>()
    ensures { (o : Beside) (size : PathSize) (s : State (Slot K) View)
        (r : Ruled (shows_of K.holds) o size s) → size.files ≡ false
        → (r.core.files ≡ []) × (r.core.dropped ≡ []) × (r.filed ≡ none_filed)
        × (r.dropped ≡ []) }
{}

/// The count of faults that a stopped log tells has risen since its keeper was opened. (That the
/// keeper at home shows it: `the_keeper_at_home_shows_what_is_lasting`.)
pub fn a_stopped_log_tells_a_count_that_has_risen<K: Keeper>()
    ensures { (o : Beside) (size : PathSize) (s : State (Slot K) View)
        (r : Ruled (shows_of K.holds) o size s)
        → 0 < r.core.stopped → HasRisen size.at_open r.core.stopped }
{}

/// No group and no memtable is made that no barrier stands for: the groups beside the first of each
/// order are as many as the barriers that all seats have issued, together; the memtables beside the
/// first of each table are at most as many, and one for each seat.
pub fn groups_and_memtables_are_paid_for<K: Keeper>()
    ensures { (o : Beside) (size : PathSize) (s : State (Slot K) View)
        (r : Ruled (shows_of K.holds) o size s) → ArePaidFor size.seats r.events r.core }
{}

/// A stopped log takes no marker and no group of the append order: in each run of steps that are
/// built there are as many of both behind a state in which it is stopped as in that state.
pub fn a_stopped_log_takes_nothing()
    ensures { (opened : ℕ) (x y : PathState) (steps : List Event) (run : Past x steps y)
        → AreBuilt opened x steps y run → 0 < x.stopped → TakesNothing x y }
{}

/// No two seats have the desk, or one box of the log.
pub fn each_box_has_one_holder<K: Keeper>()
    ensures { (o : Beside) (size : PathSize) (s : State (Slot K) View)
        → Ruled (shows_of K.holds) o size s
        → (j i b : ℕ) (u v : View) → get_elem? s.views j ≡ some u → get_elem? s.views i ≡ some v
        → HoldsBox u b → HoldsBox v b → j ≡ i }
{}

/// No two seats have one box of a memtable, as their own or to read it.
pub fn each_memtable_box_has_one_holder<K: Keeper>()
    ensures { (o : Beside) (size : PathSize) (s : State (Slot K) View)
        → Ruled (shows_of K.holds) o size s
        → (j i b : ℕ) (u v : View) → get_elem? s.views j ≡ some u → get_elem? s.views i ≡ some v
        → HasInHand u.hands b → HasInHand v.hands b → j ≡ i }
{}

/// Once all boxes behind the barrier of the last marker are gathered, each note up to that marker
/// is lasting or lies on the desk: none is left in a box.
pub fn gathering_reaches_the_last_marker<K: Keeper>()
    ensures { (o : Beside) (size : PathSize) (s : State (Slot K) View)
        (r : Ruled (shows_of K.holds) o size s)
        → r.boxed.progress.gathered ≡ true → (c : Claim) (g : ℕ) → last_marker r.core ≡ Some c
        → c.barrier ≡ Some g → (n : EntryNote) → Contains r.core.notes n → n.end.0 ≤ c.start
        → Contains r.core.logged n.end.0 ⊎ Contains r.boxed.pending n }
{}

/// What a closed write placed in a memtable that is not retired lies in its writer's box of that
/// table and of the memtable's place: at home, or, when it was taken last, in the hand of the seat
/// that has the box.
pub fn what_was_placed_lies_in_memtables<K: Keeper>()
    ensures { (o : Beside) (size : PathSize) (s : State (Slot K) View)
        (r : Ruled (shows_of K.holds) o size s) (p : Placed)
        → Contains r.core.placed p → (table_of r.core p.table).oldest_live ≤ p.memtable
        → LiesInItsBox size.seats r.core.notes s p }
{}

/// Once the holder of a table's Flush turn has seen the boxes of all seats behind the barrier of a
/// memtable that is not retired, what it has seen are notes of the state: exactly those of the
/// entries of the memtable's log interval that touch its table.
pub fn what_was_seen_is_the_memtables_interval<K: Keeper>()
    ensures { (o : Beside) (size : PathSize) (s : State (Slot K) View)
        (r : Ruled (shows_of K.holds) o size s) (j w : ℕ) (v : View) (q : FlushRead)
        → get_elem? s.views j ≡ some v → v.role ≡ Steps w → v.hands.reading ≡ Some q
        → q.retired ≡ false → q.seen_to ≡ size.seats → SeesItsInterval r.core q }
{}

/// A box holds exactly the memtable that has its place: what lies in it at home is a note of the
/// box's seat that touches the table. It was placed there in that memtable, or its write runs still
/// and has its place in it. The memtable is the last retired one of its table, or not retired: of
/// those before it nothing is left.
pub fn what_lies_in_memtables_was_placed<K: Keeper>()
    ensures { (o : Beside) (size : PathSize) (s : State (Slot K) View)
        (r : Ruled (shows_of K.holds) o size s) (w t m : ℕ) (y : Slot K)
        (notes : List EntryNote) (n : EntryNote) → w < size.seats → t < 16
        → IsHome s.views (memtable_box size.seats w t m)
        → get_elem? s.homes (memtable_box size.seats w t m) ≡ some (some y)
        → NotesAre y notes → Contains notes n
        → (k : ℕ) × (k % 4 ≡ m % 4) × HasItsPlace r.core t k × BelongsThere r.core w t k n }
{}
