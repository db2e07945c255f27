//! What a close tells of flushes, also on worked rows. Nothing here runs.
ghost use Rattle.std.specs.Prelude.{◌≡◌, ℕ, ◌<◌, ◌≤◌, false, List, [], ◌∷◌, ◌++◌, Some, None};
ghost use Rattle.std.specs.Prelude.{IsTrue};
ghost use Rattle.std.specs.List.{Contains};
ghost use Rattle.clog_base.specs.declared.cell.Table.{Table};
ghost use Rattle.path_core.specs.declared.note.EntryNote.{EntryNote};
ghost use Rattle.path_core.specs.declared.state.Bound.TheVariants.{Final};
ghost use Rattle.path_core.specs.declared.state.PathState.{PathState};
ghost use Rattle.path_core.specs.Parts.{memtable_of, touches};
ghost use Rattle.path_rule.specs.declared.view.OwnStep.{OwnStep};
ghost use Rattle.path_rule.specs.TrailRows.{retired};
ghost use Rattle.write_path.specs.ClosedFiles.{AreEmpty, AreGiven, CoversFlushed, HasEntryBetween};
ghost use Rattle.write_path.specs.ClosedFiles.{HasRetired, IsGiven};
ghost use Rattle.write_path.specs.FlushedRows.{file_between, file_to, flushed_at};
ghost use Rattle.write_path.specs.SwitchedRows.{switched_at};

/// What a seat's steps tell of a flush, and what a close says then of the keeper's files.
pub fn what_a_flush_covers()
    // A memtable that was made final at a key, and retired, is flushed up to that key, and no
    // other table is.
    ensures flushed { (key : ℕ) → HasRetired (record { 0 = 0 }) key (flushed_at key) }
    ensures no_other { (key to : ℕ) → ¬ HasRetired (record { 0 = 1 }) to (flushed_at key) }
    // One that was only switched is not.
    ensures switched { (t : Table) (key to : ℕ) → ¬ HasRetired t to (switched_at 0 key) }
    // What the steps of a seat tell they tell when it has made others too.
    ensures stays { (t : Table) (key : ℕ) (newer trail : List OwnStep) → HasRetired t key trail
        → HasRetired t key (newer ++ trail) }
    // An entry of the table at or below the key lies in a file up to the key; without one, and
    // with one that ends below the entry, the close would be wrong.
    ensures filed { (key : ℕ) (n : EntryNote) → 0 < n.end.0 → n.end.0 ≤ key
        → CoversFlushed (n ∷ []) (file_to key) (flushed_at key) }
    ensures bare { (key : ℕ) (n : EntryNote) → IsTrue (touches n.tables 0) → n.end.0 ≤ key
        → ¬ CoversFlushed (n ∷ []) [] (flushed_at key) }
    ensures short { (key upper : ℕ) (n : EntryNote) → IsTrue (touches n.tables 0)
        → n.end.0 ≤ key → upper < n.end.0
        → ¬ CoversFlushed (n ∷ []) (file_to upper) (flushed_at key) }
{}

/// What a close says of memtables that a seat retired, and what a table file stands for.
pub fn what_a_retired_memtable_leaves()
    // The file of a memtable of table 0 that is final at a key, and was retired with one that
    // begins above key 0: it goes from key 0 to that key. One that begins above key 7 is another,
    // and so is one that ends above the bound.
    ensures given { (core : PathState) (key : ℕ)
        → (memtable_of core 0 0).bound ≡ Final (record { 0 = key })
        → IsGiven core (file_to key) 0 0 0 }
    ensures later { (core : PathState) (upper : ℕ) → ¬ IsGiven core (file_between 7 upper) 0 0 0 }
    ensures other_end { (core : PathState) (key upper : ℕ) → key < upper
        → (memtable_of core 0 0).bound ≡ Final (record { 0 = key })
        → ¬ IsGiven core (file_to upper) 0 0 0 }
    // A close that gave back no file for it would be wrong, and so would one that left something
    // placed in a memtable that was retired without one.
    ensures bare { (core : PathState) → ¬ AreGiven core [] (retired 0 (Some 0)) }
    ensures filled { (core : PathState) (entry : ℕ)
        → Contains core.placed (record { table = 0; entry = entry; memtable = 0 })
        → ¬ AreEmpty core (retired 0 None) }
    // A file of the table up to a key stands for an entry that touches the table and ends at or
    // below the key. It stands for none that ends above, nor for one of other tables.
    ensures entry { (key : ℕ) (n : EntryNote) → IsTrue (touches n.tables 0) → 0 < n.end.0
        → n.end.0 ≤ key → HasEntryBetween (n ∷ []) 0 0 key }
    ensures beyond { (key : ℕ) (n : EntryNote) → key < n.end.0
        → ¬ HasEntryBetween (n ∷ []) 0 0 key }
    ensures other { (key : ℕ) (n : EntryNote) → touches n.tables 0 ≡ false
        → ¬ HasEntryBetween (n ∷ []) 0 0 key }
{}
