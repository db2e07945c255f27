//! What holds in each lawful state, for whoever has the law of a state and no list of the steps
//! that led to it. Nothing here runs; each function's contract is a promise of the path.
ghost use Rattle.std.specs.Prelude.{◌≡◌, ℕ, suc, ◌+◌, ◌<◌, ◌≤◌, length, Some, IsTrue};
ghost use Rattle.std.specs.List.{Contains};
ghost use Rattle.clog_base.specs.declared.cell.Table.{Table};
ghost use Rattle.op_core.specs.declared.count.Order.{Order};
ghost use Rattle.op_core.specs.declared.count.Tally.TheVariants.{Expired};
ghost use Rattle.op_core.specs.Tallies.{IsOpen, IsPassed, running_of};
ghost use Rattle.path_core.specs.declared.event.Event.TheVariants.{OpenGroup, Switch};
ghost use Rattle.path_core.specs.declared.event.SwitchPart.TheVariants.{Clear, Open};
ghost use Rattle.path_core.specs.declared.event.Turn.{Turn};
ghost use Rattle.path_core.specs.declared.seat.Issue.TheVariants.{Rest};
ghost use Rattle.path_core.specs.declared.state.Claim.{Claim};
ghost use Rattle.path_core.specs.declared.state.PathState.{PathState};
ghost use Rattle.path_core.specs.Parts.{
  is_entry,
  groups_of,
  tally_of,
  seat_of,
  seat_table,
  table_of,
  group_in,
  issue_of,
  HoldsTurn,
  HasPassedBarrier,
};
ghost use Rattle.path_core.specs.Allowed.{IsStep};
ghost use Rattle.path_core.specs.Lawful.{IsLawfulPath};
ghost use Rattle.path_core.specs.Promises.{IsDeposited, HoldsItsInterval};
ghost use Rattle.path_core.specs.Markers.{HasPassedMarker};

/// Where a seat's group stands: it was made, and its count stands for somebody. While the holder of
/// the Sync turn is at no issue, a group up to the current one that is open is the current one.
pub fn where_a_seats_group_stands()
    ensures made { (x : PathState) (order : Order) (w g : ℕ) → IsLawfulPath x
        → group_in order (seat_of x w) ≡ Some g → g < length (groups_of x order).tallies }
    ensures counted { (x : PathState) (order : Order) (w g : ℕ) → IsLawfulPath x
        → group_in order (seat_of x w) ≡ Some g → 0 < running_of (tally_of x order g) }
    ensures current { (x : PathState) (order : Order) (w g : ℕ) → IsLawfulPath x
        → HoldsTurn (seat_of x w) Turn.Sync → issue_of (seat_of x w) ≡ Rest
        → g ≤ (groups_of x order).current → IsOpen (tally_of x order g)
        → g ≡ (groups_of x order).current }
{}

/// A group that a step may open was not made before, whatever its barrier is for.
pub fn a_step_opens_a_new_group()
    ensures { (x : PathState) (by group : ℕ) (order : Order) → IsLawfulPath x
        → IsStep x (OpenGroup by order group) → group ≡ length (groups_of x order).tallies }
{}

/// A memtable that a step may open was not made before.
pub fn a_step_opens_a_new_memtable()
    ensures { (x : PathState) (by memtable : ℕ) (table : Table) → IsLawfulPath x
        → IsStep x (Switch by table memtable Open)
        → memtable ≡ length (table_of x table.0).memtables }
{}

/// Once the barrier of the group before the current one is passed, each running operation of the
/// order is in the current group.
pub fn all_run_in_the_group_behind_a_barrier()
    ensures { (x : PathState) (order : Order) (g w h : ℕ) → IsLawfulPath x
        → IsPassed (groups_of x order).tallies g → suc g ≡ (groups_of x order).current
        → group_in order (seat_of x w) ≡ Some h → h ≡ (groups_of x order).current }
{}

/// What is placed in a memtable whose barrier is passed is exactly what touches its table in its
/// log interval.
pub fn a_passed_memtable_holds_its_interval()
    ensures { (x : PathState) (t m : ℕ) → IsLawfulPath x → HasPassedBarrier x t m
        → HoldsItsInterval x t m }
{}

/// Each entry that is claimed up to a marker whose barrier is passed is deposited, so a sync up to
/// there misses none.
pub fn up_to_a_passed_marker_all_is_deposited()
    ensures { (x : PathState) (key : ℕ) (c : Claim) → IsLawfulPath x
        → HasPassedMarker x.claims x.append.tallies key → Contains x.claims c
        → IsTrue (is_entry c) → c.end ≤ key → IsDeposited x c }
{}

/// A write tries one of the last three memtables of a table: so of an older one no word need tell.
pub fn a_write_tries_one_of_the_last_three()
    ensures { (x : PathState) (w t k : ℕ) → IsLawfulPath x
        → (seat_table (seat_of x w) t).trying ≡ Some k → (table_of x t).newest ≤ k + 2 }
{}

/// Where a memtable's place is cleared, and where the memtable is opened, no write tries one that
/// is three below it, or more.
pub fn the_place_of_a_new_memtable_is_free()
    ensures cleared { (x : PathState) (by n w k : ℕ) (table : Table) → IsLawfulPath x
        → IsStep x (Switch by table n Clear)
        → (seat_table (seat_of x w) table.0).trying ≡ Some k → n ≤ k + 2 }
    ensures opened { (x : PathState) (by n w k : ℕ) (table : Table) → IsLawfulPath x
        → IsStep x (Switch by table n Open)
        → (seat_table (seat_of x w) table.0).trying ≡ Some k → n ≤ k + 2 }
{}

/// Where a group is made, one that is 32 below it, or more, is finished, and nobody is in it.
pub fn the_word_of_a_new_group_is_free()
    ensures finished { (x : PathState) (by g h : ℕ) (order : Order) → IsLawfulPath x
        → IsStep x (OpenGroup by order g) → h + 32 ≤ g → tally_of x order h ≡ Expired 0 }
    ensures left { (x : PathState) (by g h w : ℕ) (order : Order) → IsLawfulPath x
        → IsStep x (OpenGroup by order g) → h + 32 ≤ g
        → group_in order (seat_of x w) ≡ Some h → ⊥ }
{}
