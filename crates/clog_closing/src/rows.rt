//! Worked rows: which appends bring the segments of a log; what a keeper may have done beside its
//! log, and has to have done at the end of a run; and in which order writers that flush change a
//! disk.
ghost use Rattle.std.specs.Prelude.{
  ◌≡◌,
  ◌<◌,
  ◌≤◌,
  ◌∷◌,
  ℕ,
  Bool,
  Contains,
  List,
  Option,
  Some,
  [],
  false,
  length,
  true,
};
ghost use Rattle.clog_disk.specs.declared.change.Change.{Change};
ghost use Rattle.clog_disk.specs.Files.{Files, no_files};
ghost use Rattle.clog_mutation.specs.declared.mutation.Mutation.{Mutation};
ghost use Rattle.clog_mutation.specs.Payload.{payload_of};
ghost use Rattle.clog_scan.specs.Cut.{Section};
ghost use Rattle.clog_crash.specs.Worked.{the_mutation};
ghost use Rattle.clog_applied.specs.Worked.{
  come_early,
  comes,
  drained_changes,
  file_to as file_up_to,
  gone_early,
  one_line,
  the_end,
  with_file,
};
ghost use Rattle.clog_closing.specs.Beside.{HasFinished, HasGoodDeeds};
ghost use Rattle.clog_closing.specs.Worked.{both_whole, first_torn, second_torn, two_segments};
ghost use Rattle.clog_closing.specs.WorkedComing.{
  cut_off_changes,
  for_nothing,
  hollow_changes,
  overwritten_changes,
};
ghost use Rattle.clog_closing.specs.WorkedDeeds.{
  Setting,
  file_between,
  file_to,
  file_without,
  keeper_with,
  once_gone,
  with_files,
};
ghost use Rattle.clog_closing.specs.Written.{HasComeInOrder, IsWrittenBy};

/// Of two segments the last may lack its last section, and the one before it none.
pub fn the_last_segment_alone_is_torn()
    ensures whole { (one two : Section)
        → IsWrittenBy (both_whole one two) (two_segments one two) }
    ensures second { (one two : Section)
        → IsWrittenBy (second_torn one two) (two_segments one two) }
    ensures first { (one two : Section)
        → IsWrittenBy (first_torn one two) (two_segments one two) → ⊥ }
{}

/// One entry ends at 60, and the log lasts up to 68. A table file that holds it may end anywhere
/// from 60 to 68. It may not end above that, nor in front of the entry, nor begin behind the
/// beginning of the log; it may not lack the entry's cell; and no file may be of a table that no
/// entry touches.
pub fn a_table_file_holds_what_lasts()
    ensures good { (at : Setting) (upper : ℕ) → 60 ≤ upper → upper ≤ 68
        → HasGoodDeeds (with_files at (file_to upper ∷ [])) }
    ensures far { (at : Setting) → HasGoodDeeds (with_files at (file_to 69 ∷ [])) → ⊥ }
    ensures short { (at : Setting) → HasGoodDeeds (with_files at (file_to 59 ∷ [])) → ⊥ }
    ensures late { (at : Setting) → HasGoodDeeds (with_files at (file_between 28 60 ∷ [])) → ⊥ }
    ensures empty { (at : Setting) → HasGoodDeeds (with_files at (file_without 0 ∷ [])) → ⊥ }
    ensures for_nothing { (at : Setting)
        → HasGoodDeeds (with_files at (file_without 1 ∷ [])) → ⊥ }
{}

/// The segment of that entry may be dropped where the file holds it, and not where there is no
/// file, nor may it have an archive name then. Where segments are archived it has its archive name
/// once it is dropped; where they are not, it has none.
pub fn segments_go_that_table_files_hold()
    ensures good { (at : Setting) → HasGoodDeeds (once_gone at (file_to 60 ∷ [])) }
    ensures lost { (at : Setting) → HasGoodDeeds (once_gone at []) → ⊥ }
    ensures early { (at : Setting) → HasGoodDeeds (keeper_with at [] [] (0 ∷ [])) → ⊥ }
    ensures unnamed { (at : Setting) → at.archives ≡ true
        → HasGoodDeeds (keeper_with at (file_to 60 ∷ []) (0 ∷ []) []) → ⊥ }
    ensures named { (at : Setting) → at.archives ≡ false
        → HasGoodDeeds (keeper_with at (file_to 60 ∷ []) (0 ∷ []) (0 ∷ [])) → ⊥ }
{}

/// A drain has finished once the file holds the entry and its segment has gone, and not where there
/// is no file, which is all that is wanted where nothing is drained. Where the file is there, the
/// segment may not stay, drained or not.
pub fn a_drain_leaves_no_entry()
    ensures drained { (at : Setting) → HasFinished true (once_gone at (file_to 60 ∷ [])) }
    ensures left { (at : Setting) → HasFinished true (with_files at []) → ⊥ }
    ensures undrained { (at : Setting) → HasFinished false (with_files at []) }
    ensures stays { (at : Setting) (drain : Bool)
        → HasFinished drain (with_files at (file_to 60 ∷ [])) → ⊥ }
{}

/// Of two lines of one writer the first was appended; then a table file came that holds it, and its
/// segment went: so far writers that flush may have come, where the file stands there. It may not
/// be missing then. The segment may not go before the file has come, nor the file come before the
/// entry; nor may the second line be appended before the first, or one that was not asked for.
pub fn a_table_file_comes_behind_its_entries()
    ensures first { (other : Mutation)
        → HasComeInOrder false 1000 1 (the_mutation ∷ other ∷ []) (Some with_file)
        drained_changes }
    ensures second { (archives : Bool) (base : ℕ) (other : Mutation) (now : Option Files)
        → (payload_of other ≡ payload_of the_mutation → ⊥)
        → HasComeInOrder archives base 1 (other ∷ the_mutation ∷ []) now drained_changes → ⊥ }
    ensures gone_early { (archives : Bool) (base writers : ℕ) (mutations : List Mutation)
        (now : Option Files)
        → HasComeInOrder archives base writers mutations now gone_early → ⊥ }
    ensures come_early { (archives : Bool) (base writers : ℕ) (mutations : List Mutation)
        (now : Option Files)
        → HasComeInOrder archives base writers mutations now come_early → ⊥ }
    ensures unasked { (archives : Bool) (base writers : ℕ) (now : Option Files)
        → HasComeInOrder archives base writers [] now drained_changes → ⊥ }
    ensures missing { (archives : Bool) (base writers : ℕ) (mutations : List Mutation)
        (changes : List Change) → Contains changes (comes (file_up_to the_end))
        → HasComeInOrder archives base writers mutations (Some no_files) changes → ⊥ }
{}

/// No table file comes that has no entry in its interval, alone or over one that holds an entry;
/// and none that lacks a cell of an entry there.
pub fn table_files_of_a_run_stand_for_something()
    ensures nothing { (archives : Bool) (base writers : ℕ) (mutations : List Mutation)
        (now : Option Files) (changes : List Change) → Contains changes (comes for_nothing)
        → HasComeInOrder archives base writers mutations now changes → ⊥ }
    ensures over { (archives : Bool) (base writers : ℕ) (mutations : List Mutation)
        (now : Option Files)
        → HasComeInOrder archives base writers mutations now overwritten_changes → ⊥ }
    ensures hollow { (archives : Bool) (base : ℕ) (now : Option Files)
        → HasComeInOrder archives base 1 one_line now hollow_changes → ⊥ }
{}

/// A segment does not go before all its bytes were appended; nor, where archives are kept, without
/// its archive name.
pub fn segments_of_a_run_go_whole()
    ensures unnamed { (base writers : ℕ) (mutations : List Mutation) (now : Option Files)
        → HasComeInOrder true base writers mutations now drained_changes → ⊥ }
    ensures cut_off { (archives : Bool) (base writers : ℕ) (mutations : List Mutation)
        (now : Option Files) (more : List ℕ) → 0 < length more
        → HasComeInOrder archives base writers mutations now (cut_off_changes more) → ⊥ }
{}
