//! What a folder counts, and the log that appends bring.
ghost use Rattle.std.specs.Prelude.{◌≡◌, ◌++◌, ◌∷◌, [], ℕ, List};
ghost use Rattle.clog_disk.specs.Files.{Files};
ghost use Rattle.clog_disk.specs.declared.change.Change.{Change};
ghost use Rattle.clog_disk.specs.declared.change.Change.TheVariants.{
  Append as Appended,
  Publish as Published,
  Link as Linked,
  Remove as Removed,
};
ghost use Rattle.clog_crash.specs.Counts.{AreCounts, IsLog, LoggedMutation};
ghost use Rattle.clog_crash.specs.Grown.{Append, IsKept, appends_of, grown};
ghost use Rattle.clog_crash.specs.Worked.{first_table, the_folder};
ghost use Rattle.clog_crash.specs.WorkedGrown.{entry_at, the_appends};

/// A folder has one list of logged mutations, and each of its five counts is one number.
pub fn a_folder_has_one_count()
    ensures log { (files : Files) (log other : List LoggedMutation) → IsLog files log
        → IsLog files other → log ≡ other }
    ensures counts { (files : Files) (segments tables entries updates skipped : ℕ)
        (segments' tables' entries' updates' skipped' : ℕ)
        → AreCounts files segments tables entries updates skipped
        → AreCounts files segments' tables' entries' updates' skipped'
        → (segments ≡ segments') × (tables ≡ tables') × (entries ≡ entries')
        × (updates ≡ updates') × (skipped ≡ skipped') }
{}

/// A worked row: a folder of one segment with one entry of one update, and of one table file. Where
/// the file's interval ends with the entry, the update is skipped; where it ends before, merged.
pub fn an_update_counts_as_merged_or_as_skipped()
    ensures skipped { AreCounts (the_folder first_table 60) 1 1 1 0 1 }
    ensures merged { AreCounts (the_folder first_table 59) 1 1 1 1 0 }
{}

/// Bytes that are appended to a name stand behind what it held, and other names stay.
pub fn appends_grow_their_name()
    ensures here { (name bytes : List ℕ) (more : List Append)
        → grown ((name, bytes) ∷ more) name ≡ bytes ++ grown more name }
    ensures elsewhere { (other name bytes : List ℕ) (more : List Append) → (other ≡ name → ⊥)
        → grown ((other, bytes) ∷ more) name ≡ grown more name }
    ensures behind { (appends more : List Append) (name : List ℕ)
        → grown (appends ++ more) name ≡ grown appends name ++ grown more name }
{}

/// Of a disk's changes the appends alone bring bytes to segments: another change brings nothing,
/// and changes that follow bring theirs behind.
pub fn appends_alone_bring_bytes()
    ensures appends { (name bytes : List ℕ)
        → appends_of (Appended name bytes ∷ []) ≡ (name, bytes) ∷ [] }
    ensures publishes { (name bytes : List ℕ) → appends_of (Published name bytes ∷ []) ≡ [] }
    ensures links { (old new : List ℕ) → appends_of (Linked old new ∷ []) ≡ [] }
    ensures removes { (name : List ℕ) → appends_of (Removed name ∷ []) ≡ [] }
    ensures behind { (changes more : List Change)
        → appends_of (changes ++ more) ≡ appends_of changes ++ appends_of more }
{}

/// A worked row: two sections are appended to segment 1000 and one to segment 1001, each with one
/// entry of 32 bytes. The log that they bring has entries from 28 to 60 and from 68 to 100 of the
/// one segment, and from 28 to 60 of the other.
pub fn appended_sections_are_a_log()
    ensures { IsKept the_appends
        ((1000, entry_at 28 ∷ entry_at 68 ∷ []) ∷ (1001, entry_at 28 ∷ []) ∷ []) }
{}
