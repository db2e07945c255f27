//! What a folder restores to where one of its names has changed.
ghost use Rattle.std.specs.Prelude.{◌↔◌, ◌++◌, ℕ, List, Contains};
ghost use Rattle.clog_base.specs.declared.cell.Cell.{Cell};
ghost use Rattle.clog_base.specs.declared.cell.CellKey.{CellKey};
ghost use Rattle.clog_cells.specs.Merge.{IsMergeOf, IsMerge};
ghost use Rattle.clog_disk.specs.Files.{Files, bytes_at};
ghost use Rattle.clog_scan.specs.Segment.{Entry};
ghost use Rattle.clog_table.specs.declared.table_file.TableFile.{TableFile};
ghost use Rattle.clog_crash.specs.Changes.{Gains, Loses, Puts, IsLiveInside, IsTrueOf};
ghost use Rattle.clog_crash.specs.Covering.{Either, SameMerge};
ghost use Rattle.clog_crash.specs.Readings.{Reading, RestoresIn, IsCellAmong};
ghost use Rattle.clog_crash.specs.Restore.{IsRestored, Restores};

/// What files restore is what their reading restores, cell by cell; and so are the rows.
pub fn files_restore_what_they_read()
    ensures cells { (files : Files) (pair : CellKey × Cell)
        → Restores files pair ↔ RestoresIn (bytes_at files) pair }
    ensures rows { (files : Files) (rows : List (CellKey × Cell))
        → IsRestored files rows ↔ IsMergeOf (RestoresIn (bytes_at files)) rows }
{}

/// Folders that restore the same newest cells restore to the same rows, and what was merged may be
/// merged again with more.
pub fn merges_by_covering()
    ensures same { (r q : Reading) (rows : List (CellKey × Cell))
        → SameMerge (RestoresIn r) (RestoresIn q) → IsMergeOf (RestoresIn r) rows
        → IsMergeOf (RestoresIn q) rows }
    ensures more { (r : Reading) (rows more now : List (CellKey × Cell))
        → IsMergeOf (RestoresIn r) rows → IsMerge (rows ++ more) now
        → IsMergeOf (Either (RestoresIn r) (Contains more)) now }
{}

/// A segment that gains entries adds their cells, and changes nothing else.
pub fn entries_add_their_cells()
    ensures { (r q : Reading) (id : ℕ) (extra : List Entry) → Gains r q id extra
        → (pair : CellKey × Cell)
        → RestoresIn q pair ↔ Either (RestoresIn r) (IsCellAmong extra) pair }
{}

/// A segment for all of whose cells table files stand may go.
pub fn covered_segments_may_go()
    ensures { (r q : Reading) (id : ℕ) → Loses r q id → (pair : CellKey × Cell)
        → RestoresIn q pair ↔ RestoresIn r pair }
{}

/// A table file may come that is true.
pub fn true_files_may_come()
    ensures { (r q : Reading) (file : TableFile) (sequence : ℕ) → Puts r q file sequence
        → SameMerge (RestoresIn q) (RestoresIn r) }
{}

/// The merge of the cells that the log restores within a file's interval makes a true file.
pub fn merges_make_true_files()
    ensures { (r : Reading) (file : TableFile) → IsMergeOf (IsLiveInside r file) file.cells
        → IsTrueOf r file }
{}
