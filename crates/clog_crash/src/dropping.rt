//! When a segment may be dropped.
ghost use Rattle.std.specs.Prelude.{◌∷◌, [], ℕ, List, Contains};
ghost use Rattle.clog_scan.specs.Segment.{Entry};
ghost use Rattle.clog_table.specs.declared.table_file.TableFile.{TableFile};
ghost use Rattle.clog_crash.specs.Changes.{AreCovered};
ghost use Rattle.clog_crash.specs.Droppable.{IsDroppable};
ghost use Rattle.clog_crash.specs.Readings.{Reading, IsLoggedIn, IsTableIn};
ghost use Rattle.clog_crash.specs.Worked.{first_table, second_table};
ghost use Rattle.clog_crash.specs.WorkedDrop.{both_entries, file_over};

/// For each cell of a segment that may be dropped a table file stands: so the folder restores the
/// same without it.
pub fn droppable_segments_are_covered()
    ensures { (r : Reading) (id : ℕ) (files : List TableFile) (entries : List Entry)
        → IsDroppable files id entries
        → ((file : TableFile) → Contains files file → IsTableIn r file)
        → ((entry : Entry) → IsLoggedIn r id entry → Contains entries entry)
        → AreCovered r id }
{}

/// A worked row: a segment has an entry of table 0 and one of table 1. A file of table 0 over both
/// does not let it go; with one of table 1 too it may go.
pub fn a_segment_goes_once_each_table_is_filed()
    ensures one { ¬ IsDroppable (file_over first_table ∷ []) 1000 both_entries }
    ensures both { IsDroppable (file_over first_table ∷ file_over second_table ∷ []) 1000
        both_entries }
{}
