//! What the calls of any keeper come to, as laws over what it holds.
ghost use Rattle.std.specs.Prelude.{◌≡◌, ◌⊎◌, ℕ, ◌<◌, ◌≤◌, List, [], ◌∷◌};
ghost use Rattle.std.specs.List.{Contains};
ghost use Rattle.clog_base.specs.declared.sizes.Sizes.{Sizes};
ghost use Rattle.path_core.specs.declared.note.EntryNote.{EntryNote};
ghost use Rattle.path_core.specs.declared.state.PathState.{PathState};
ghost use Rattle.path_core.specs.Allowed.{IsAllowed};
ghost use Rattle.path_core.specs.Keys.{first_offset};
ghost use Rattle.path_core.specs.Lawful.{IsLawfulPath};
ghost use Rattle.path_core.specs.Lent.{AgreesWith, IsKeptOf, run_to};
ghost use Rattle.path_core.specs.Keeper.{
  Holding,
  IsFresh,
  IsWritable,
  MaySync,
  MayWrite,
  Syncs,
  Drops,
};

use crate::event::{Cursor, Event};

/// After a sync each entry that was pending is logged where it ends at or below the key, and else
/// pending still.
pub fn a_sync_logs_what_was_pending()
    ensures { (before now : Holding) (upto : ℕ) (pending left : List EntryNote)
        → Syncs before now upto pending left → (n : EntryNote) → Contains pending n
        → ((n.end.0 ≤ upto) × Contains now.logged n) ⊎ ((upto < n.end.0) × Contains left n) }
{}

/// What may be synced can be synced.
pub fn what_may_be_synced_can_be()
    ensures { (h : Holding) (upto : ℕ) (pending : List EntryNote) → MaySync h upto pending
        → (now : Holding) × (left : List EntryNote) × Syncs h now upto pending left }
{}

/// A keeper that was just opened may sync a whole entry that stands first in the log.
pub fn a_first_entry_may_be_synced()
    ensures { (base : ℕ) (sizes : Sizes) (h : Holding) (n : EntryNote) → IsFresh base sizes h
        → IsWritable h n → n.start.0 ≡ first_offset → MaySync h n.end.0 (n ∷ []) }
{}

/// A keeper that was just opened has nothing to drop.
pub fn a_fresh_keeper_drops_nothing()
    ensures { (base closed : ℕ) (sizes : Sizes) (h : Holding) → IsFresh base sizes h
        → Drops h h closed 0 }
{}

/// What a keeper drops is determined: the same segments, and as many.
pub fn a_keeper_drops_one_list()
    ensures { (before now other : Holding) (closed count others : ℕ)
        → Drops before now closed count → Drops before other closed others
        → (now.dropped ≡ other.dropped) × (count ≡ others) }
{}

/// What a path's sync makes lasting may be written: where the path is lawful and may put its synced
/// key to a marker, and its keeper agrees with it, the notes up to the marker are what the keeper
/// asks. So it is behind what the keeper kept, where that is what a sync up to an earlier marker
/// would have made lasting.
pub fn what_a_path_syncs_may_be_written()
    ensures { (x : PathState) (by value : ℕ) (h : Holding) → IsLawfulPath x
        → IsAllowed x (Event.Put by Cursor.Synced value) → AgreesWith x h
        → IsKeptOf x value h.kept → MayWrite h value (run_to x value) }
{}
