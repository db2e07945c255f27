//! What a seat's steps tell of memtables, on worked rows. Nothing here runs.
ghost use Rattle.std.specs.Prelude.{◌≡◌, ◌<◌, ℕ, ◌+◌, ◌^◌, Option, Some, None};
ghost use Rattle.path_core.specs.declared.event.Cursor.TheVariants.{OldestLive};
ghost use Rattle.path_core.specs.declared.event.Place.TheVariants.{CursorWord};
ghost use Rattle.path_rule.specs.Finds.{Finds};
ghost use Rattle.path_rule.specs.FindsBounds.{FindsFinal, Retires};
ghost use Rattle.path_rule.specs.TrailRows.{looked_at, made_final_at, retired};

/// At which keys a seat finds memtables final, and which it retires.
pub fn what_a_trail_finds_of_memtables()
    // A memtable that was raised to 60 is final at 60 once it is made final: no other one is, and
    // none at another key.
    ensures made { FindsFinal 0 0 60 (made_final_at 0 60) }
    ensures made_alone { (t m key : ℕ) → FindsFinal t m key (made_final_at 0 60)
        → (t ≡ 0) × (m ≡ 0) × (key ≡ 60) }
    // A word with the final mark tells the same at a look.
    ensures looked { FindsFinal 0 1 68 (looked_at 1 (68 + 2 ^ 63)) }
    ensures looked_alone { (t m key : ℕ) → FindsFinal t m key (looked_at 1 (68 + 2 ^ 63))
        → (t ≡ 0) × (m ≡ 1) × (key ≡ 68) }
    // One that is raised, or live, is not found final at any key.
    ensures raised { (t m key : ℕ) → key < 2 ^ 62
        → FindsFinal t m key (looked_at 1 (68 + 2 ^ 62)) → ⊥ }
    ensures live { (t m key : ℕ) → FindsFinal t m key (looked_at 1 0) → ⊥ }
    // Memtable 0 is retired with a table file that begins above key 0: not without one, not with
    // one that begins above key 7, and no other memtable is. The next one is the least that is not
    // retired then.
    ensures filed { Retires (record { 0 = 0 }) 0 (Some 0) (retired 0 (Some 0)) }
    ensures not_emptied { Retires (record { 0 = 0 }) 0 None (retired 0 (Some 0)) → ⊥ }
    ensures not_above { Retires (record { 0 = 0 }) 0 (Some 7) (retired 0 (Some 0)) → ⊥ }
    ensures no_other { (gave : Option ℕ)
        → Retires (record { 0 = 0 }) 1 gave (retired 0 (Some 0)) → ⊥ }
    ensures least { Finds (CursorWord (OldestLive (record { 0 = 0 }))) 1 (retired 0 (Some 0)) }
    // Memtable 2 is retired without one: not with one, above whichever key.
    ensures emptied { Retires (record { 0 = 0 }) 2 None (retired 2 None) }
    ensures not_filed { (lower : ℕ)
        → Retires (record { 0 = 0 }) 2 (Some lower) (retired 2 None) → ⊥ }
{}
