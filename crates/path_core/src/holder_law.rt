//! What the part of a turn's holder tells of its next steps, in each lawful state. Nothing here
//! runs; each function's contract is a promise of the path.
ghost use Rattle.std.specs.Prelude.{◌≡◌, ℕ, ◌<◌, ◌⊎◌, ◌↔◌, Some, None, IsSome, IsTrue};
ghost use Rattle.op_core.specs.declared.count.Order.{Order};
ghost use Rattle.op_core.specs.Tallies.{IsPassed};
ghost use Rattle.path_core.specs.declared.event.Event.{Event};
ghost use Rattle.path_core.specs.declared.event.Turn.{Turn};
ghost use Rattle.path_core.specs.declared.seat.LastMarker.{LastMarker};
ghost use Rattle.path_core.specs.declared.seat.Switching.{Switching};
ghost use Rattle.path_core.specs.declared.seat.SyncTurn.{SyncTurn};
ghost use Rattle.path_core.specs.declared.state.Claim.{Claim};
ghost use Rattle.path_core.specs.declared.state.PathState.{PathState};
ghost use Rattle.path_core.specs.Keys.{first_offset, behind_marker};
ghost use Rattle.path_core.specs.Parts.{
  seat_of,
  seat_table,
  table_of,
  stage_of,
  marker_of,
  last_marker,
  last_kept,
  HoldsTurn,
  HasPassedBarrier,
};
ghost use Rattle.path_core.specs.Words.{by_of};
ghost use Rattle.path_core.specs.Allowed.{
  IsStep,
  IsSettled,
  WantsBarrier,
  IsSyncPoint,
  is_entry_last,
};
ghost use Rattle.path_core.specs.Lawful.{IsLawfulPath};
ghost use Rattle.path_core.specs.Holders.{
  IsThrough,
  MayRetire,
  HasWaiting,
  IsPassedBarrier,
  ChangesLastMarker,
};
ghost use Rattle.path_core.specs.Next.{next_of};

/// The part of a table's holder says when the table's newest switch is through, and with it when
/// the turn may be given back: at rest always, between the steps of a switch never, and once its
/// barrier is issued as soon as that is passed.
pub fn the_stage_tells_when_a_switch_is_through()
    ensures { (x : PathState) (w t : ℕ) (stage : Switching) → IsLawfulPath x
        → stage_of (seat_of x w) t ≡ Some stage
        → IsSettled x t ↔ IsThrough x.write.tallies stage }
{}

/// It says when the table's oldest live memtable has a passed barrier, which retiring it wants.
pub fn the_stage_tells_when_a_memtable_may_be_retired()
    ensures { (x : PathState) (w t : ℕ) (stage : Switching) → IsLawfulPath x
        → stage_of (seat_of x w) t ≡ Some stage
        → HasPassedBarrier x t (table_of x t).oldest_live
        ↔ MayRetire x.write.tallies (table_of x t) stage }
{}

/// It says when something waits for a barrier of the write order: a memtable that the seat has made
/// final, and that has none.
pub fn the_stages_tell_when_a_barrier_is_wanted()
    ensures { (x : PathState) (w : ℕ) → IsLawfulPath x
        → WantsBarrier Order.Write x w ↔ HasWaiting (seat_of x w) }
{}

/// So seats with equal parts, in whatever lawful states, get the same answers: whether a barrier of
/// the write order is wanted, and, where the words that are read are the same, whether a table's
/// newest switch is through, and whether its oldest live memtable has a passed barrier.
pub fn equal_parts_get_equal_answers()
    ensures wanted { (x y : PathState) (v w : ℕ) → IsLawfulPath x → IsLawfulPath y
        → seat_of x v ≡ seat_of y w
        → WantsBarrier Order.Write x v ↔ WantsBarrier Order.Write y w }
    ensures through { (x y : PathState) (v w t : ℕ) → IsLawfulPath x → IsLawfulPath y
        → seat_of x v ≡ seat_of y w → x.write.tallies ≡ y.write.tallies
        → IsSome (seat_table (seat_of x v) t).flush → IsSettled x t ↔ IsSettled y t }
    ensures retire { (x y : PathState) (v w t : ℕ) → IsLawfulPath x → IsLawfulPath y
        → seat_of x v ≡ seat_of y w → x.write.tallies ≡ y.write.tallies
        → (table_of x t).newest ≡ (table_of y t).newest
        → (table_of x t).oldest_live ≡ (table_of y t).oldest_live
        → IsSome (seat_table (seat_of x v) t).flush
        → HasPassedBarrier x t (table_of x t).oldest_live
        ↔ HasPassedBarrier y t (table_of y t).oldest_live }
{}

/// The last marker changes in two steps alone, the claim of a marker and the move of the append
/// order's current group, and only the holder of the Sync turn makes them.
pub fn only_the_holder_changes_the_last_marker()
    ensures { (x : PathState) (e : Event) → IsStep x e
        → (last_marker (next_of x e) ≡ last_marker x)
        ⊎ (ChangesLastMarker e × HoldsTurn (seat_of x (by_of e)) Turn.Sync) }
{}

/// Each holder of the Sync turn keeps the last marker of the state, whoever claimed it.
pub fn each_holder_keeps_the_last_marker()
    ensures { (x : PathState) (w : ℕ) (turn : SyncTurn) → IsLawfulPath x
        → (seat_of x w).sync ≡ Some turn → turn.marker ≡ last_kept x.claims }
{}

/// A seat's part says when something waits for a barrier of the append order: a marker that the
/// seat claimed, in this holding of the turn or an earlier one, and that has none.
pub fn a_part_tells_when_a_marker_waits()
    ensures { (x : PathState) (w : ℕ) → IsLawfulPath x
        → WantsBarrier Order.Append x w ↔ IsTrue (seat_of x w).marker_waits }
{}

/// The log may be synced up to the last marker exactly once the barrier of it is passed.
pub fn the_last_marker_tells_when_it_may_be_synced()
    ensures { (x : PathState) (w : ℕ) (kept : LastMarker) → IsLawfulPath x
        → marker_of (seat_of x w) ≡ Some kept
        → IsSyncPoint x kept.start ↔ IsPassedBarrier x.append.tallies kept.barrier }
{}

/// So seats with equal parts, in whatever lawful states, get the same answers of markers: whether a
/// barrier of the append order is wanted; and for holders of the Sync turn, where the words that
/// are read are the same, whether the log may be synced up to the last marker, and whether an entry
/// was claimed since it, as the next one wants it.
pub fn equal_parts_get_equal_answers_of_markers()
    ensures wanted { (x y : PathState) (v w : ℕ) → IsLawfulPath x → IsLawfulPath y
        → seat_of x v ≡ seat_of y w
        → WantsBarrier Order.Append x v ↔ WantsBarrier Order.Append y w }
    ensures synced { (x y : PathState) (v w : ℕ) (kept : LastMarker) → IsLawfulPath x
        → IsLawfulPath y → seat_of x v ≡ seat_of y w → x.append.tallies ≡ y.append.tallies
        → marker_of (seat_of x v) ≡ Some kept
        → IsSyncPoint x kept.start ↔ IsSyncPoint y kept.start }
    ensures claimed { (x y : PathState) (v w : ℕ) (turn : SyncTurn) → IsLawfulPath x
        → IsLawfulPath y → seat_of x v ≡ seat_of y w → x.capacity ≡ y.capacity → x.log ≡ y.log
        → (seat_of x v).sync ≡ Some turn
        → IsTrue (is_entry_last x) ↔ IsTrue (is_entry_last y) }
{}

/// The last marker of the state, whoever claimed it, tells the same of itself to each holder that
/// comes later: while it has no barrier, its writer wants one; once its barrier is passed, the log
/// may be synced up to it.
pub fn the_last_marker_tells_later_holders()
    ensures wanted { (x : PathState) (c : Claim) → last_marker x ≡ Some c → c.barrier ≡ None
        → WantsBarrier Order.Append x c.by }
    ensures synced { (x : PathState) (c : Claim) (g : ℕ) → last_marker x ≡ Some c
        → c.barrier ≡ Some g → IsPassed x.append.tallies g → IsSyncPoint x c.start }
{}

/// An entry was claimed since the last marker, as the next one wants it, exactly where the log key
/// is above the one at which the log went on behind that marker; before the first marker, above the
/// front of the first segment, where the log begins.
pub fn the_log_key_tells_of_entries_since_a_marker()
    ensures behind { (x : PathState) (c : Claim) → IsLawfulPath x → last_marker x ≡ Some c
        → IsTrue (is_entry_last x) ↔ (behind_marker x.capacity c.start < x.log) }
    ensures first { (x : PathState) → IsLawfulPath x → last_marker x ≡ None
        → IsTrue (is_entry_last x) ↔ (first_offset < x.log) }
{}
