//! What follows from the definitions alone of what a folder restores to, and of damage.
ghost use Rattle.std.specs.Prelude.{◌≡◌, ◌⊎◌, ◌↔◌, ◌≤◌, ℕ, List, [], ◌∷◌, Some, Contains};
ghost use Rattle.std.specs.FinMap as finmap;
ghost use Rattle.clog_spec.specs.Names.{IsSegmentName};
ghost use Rattle.clog_base.specs.declared.cell.Cell.{Cell};
ghost use Rattle.clog_base.specs.declared.cell.CellKey.{CellKey};
ghost use Rattle.clog_base.specs.declared.position.Position.{Position};
ghost use Rattle.clog_base.specs.Positions.{IsBelow};
ghost use Rattle.clog_cells.specs.Merge.{found_at};
ghost use Rattle.clog_disk.specs.Files.{Files};
ghost use Rattle.clog_entry.specs.declared.cause.Cause.{Cause};
ghost use Rattle.clog_entry.specs.Soft.{IsSoft};
ghost use Rattle.clog_mutation.specs.declared.mutation.Mutation.{Mutation};
ghost use Rattle.clog_mutation.specs.Stored.{IsPayload};
ghost use Rattle.clog_scan.specs.declared.answer.End.{End as segment_end};
ghost use Rattle.clog_scan.specs.declared.answer.End.TheVariants.{Torn};
ghost use Rattle.clog_scan.specs.Laws.{IsFile};
ghost use Rattle.clog_scan.specs.Segment.{Entry, IsSegment};
ghost use Rattle.clog_table.specs.declared.table_file.TableFile.{TableFile};
ghost use Rattle.clog_table.specs.Refusals.{IsFileOf};
ghost use Rattle.clog_crash.specs.Damage.{AreSegmentFiles};
ghost use Rattle.clog_crash.specs.Folder.{IsHeld, IsNameOf, Place};
ghost use Rattle.clog_crash.specs.Laws.{HasNewest};
ghost use Rattle.clog_crash.specs.Restore.{
  IsInInterval,
  IsLogged,
  IsLoggedCell,
  IsRestored,
  IsTableCell,
  IsUndamaged,
};
ghost use Rattle.clog_crash.specs.UpTo.{IsLoggedUpTo};
ghost use Rattle.clog_crash.specs.Worked.{the_folder, first_table, second_table, filed, logged};

/// A folder restores to one list of cells. Which files hold them, and how often, does not matter.
pub fn folders_restore_to_one_list()
    ensures { (files : Files) (rows others : List (CellKey × Cell)) → IsRestored files rows
        → IsRestored files others → rows ≡ others }
{}

/// A cell of a table file and a cell of the log both count, the newer of them; and nothing else
/// does.
pub fn cells_of_table_files_and_of_the_log_count()
    ensures table { (files : Files) (rows : List (CellKey × Cell)) (key : CellKey) (cell : Cell)
        → IsRestored files rows → IsTableCell files (key, cell) → HasNewest rows key cell }
    ensures log { (files : Files) (rows : List (CellKey × Cell)) (key : CellKey) (cell : Cell)
        → IsRestored files rows → IsLoggedCell files (key, cell) → HasNewest rows key cell }
    ensures no_other { (files : Files) (rows : List (CellKey × Cell)) (key : CellKey) (cell : Cell)
        → IsRestored files rows → found_at rows key ≡ Some cell
        → IsTableCell files (key, cell) ⊎ IsLoggedCell files (key, cell) }
{}

/// A table file stands for the positions behind its lower end, up to its upper end: the lower end
/// is outside and the upper end inside. Where both are one it stands for nothing.
pub fn intervals_hold_their_upper_end()
    ensures lower { (file : TableFile) → ¬ IsInInterval file file.lower }
    ensures upper { (file : TableFile) → IsBelow file.lower file.upper
        → IsInInterval file file.upper }
    ensures behind { (file : TableFile) (at : Position) → IsBelow file.upper at
        → ¬ IsInInterval file at }
    ensures empty { (file : TableFile) (at : Position) → file.lower ≡ file.upper
        → ¬ IsInInterval file at }
{}

/// In a folder that is not damaged a segment is torn only where no other has a greater id, and only
/// for a cause that a crash can leave.
pub fn only_the_last_segment_may_be_torn()
    ensures { (files : Files) (name bytes : List ℕ) (id : ℕ) (entries : List Entry) (at : ℕ)
        (cause : Cause) → IsUndamaged files → IsSegmentName name 6 id
        → finmap.get files name ≡ Some bytes → IsFile bytes
        → IsSegment bytes id entries (Torn at cause)
        → IsSoft cause × ((other : List ℕ) (version later : ℕ)
        → IsSegmentName other version later → IsHeld files other → later ≤ id) }
{}

/// In a folder that is not damaged the log up to damage, which an opening reads, is the whole log.
pub fn the_log_up_to_damage_is_the_whole_log()
    ensures { (files : Files) (id : ℕ) (entry : Entry) → IsUndamaged files
        → AreSegmentFiles files → IsLogged files id entry ↔ IsLoggedUpTo files id entry }
{}

/// In a folder that is not damaged each payload that a segment holds is that of a mutation.
pub fn each_payload_is_that_of_a_mutation()
    ensures { (files : Files) (name bytes : List ℕ) (id : ℕ) (entries : List Entry)
        (end : segment_end) (entry : Entry) → IsUndamaged files → IsSegmentName name 6 id
        → finmap.get files name ≡ Some bytes → IsFile bytes → IsSegment bytes id entries end
        → Contains entries entry → (mutation : Mutation) × IsPayload entry.payload mutation }
{}

/// A segment of another version is damage.
pub fn a_segment_of_another_version_is_damage()
    ensures { (files : Files) (name : List ℕ) (version id : ℕ) → IsUndamaged files
        → IsSegmentName name version id → IsHeld files name → version ≡ 6 }
{}

/// In a folder that is not damaged a file with a table file's name is one of that table.
pub fn each_table_file_is_good()
    ensures { (files : Files) (place : Place) (name bytes : List ℕ) → IsUndamaged files
        → IsNameOf place name → finmap.get files name ≡ Some bytes
        → (file : TableFile) × IsFileOf place.0 bytes file }
{}

/// A worked row: segment 1000 has one entry, of the first table, which ends at 60; and a table file
/// has a cell of its own. Where the file is of the first table and its interval ends at 60, the
/// entry is skipped, and the folder restores to the file's cell alone; where the interval ends at
/// 59, to both cells. A file of another table skips nothing of the first: both cells count.
pub fn an_interval_skips_the_entry_that_ends_in_it()
    ensures skipped { IsRestored (the_folder first_table 60) (filed first_table ∷ []) }
    ensures kept { IsRestored (the_folder first_table 59) (filed first_table ∷ logged ∷ []) }
    ensures other { IsRestored (the_folder second_table 60) (logged ∷ filed second_table ∷ []) }
{}
