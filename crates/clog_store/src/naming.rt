//! Which names a store's table files have, by a worked row.
ghost use Rattle.std.specs.Prelude.{◌≡◌, List, ℕ, [], ◌∷◌};
ghost use Rattle.path_core.specs.Keeper.{PutFile};
ghost use Rattle.clog_segments.specs.StoreFolder.{ArePlacedAt, PlacedFile};
ghost use Rattle.clog_store.specs.WorkedNames.{sequences_of, with_seventh};

/// A worked row: the folder holds a file of table 0 with the sequence 7, and nothing else. Files of
/// tables 0, 1 and 0 that are put one after another have the sequences 8, 1 and 9, and no others.
pub fn table_files_take_the_next_sequences()
    ensures { (bytes : List ℕ) (base : ℕ) (x y z : PutFile) (placed : List PlacedFile)
        → x.table ≡ 0 → y.table ≡ 1 → z.table ≡ 0
        → ArePlacedAt (with_seventh bytes) base (x ∷ y ∷ z ∷ []) placed
        → sequences_of placed ≡ 8 ∷ 1 ∷ 9 ∷ [] }
{}
