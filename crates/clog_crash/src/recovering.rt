//! A folder is recovered: table files come, one for each table that has cells which the log
//! restores, and then its segments go.
ghost use Rattle.std.specs.Prelude.{◌<◌, ◌⊎◌, ◌∷◌, [], ℕ, List, Contains};
ghost use Rattle.std.specs.FinMap as finmap;
ghost use Rattle.clog_spec.specs.Names.{segment_name_of, table_name_of};
ghost use Rattle.clog_base.specs.declared.cell.Table.{Table};
ghost use Rattle.clog_base.specs.declared.position.Position.{Position};
ghost use Rattle.clog_disk.specs.Files.{Files, bytes_at};
ghost use Rattle.clog_table.specs.declared.table_file.TableFile.{TableFile};
ghost use Rattle.clog_crash.specs.Changes.{AreCovered, IsTrueOf, Puts};
ghost use Rattle.clog_crash.specs.Flush.{IsCoveredHere, IsNewFile, IsSameFolder};
ghost use Rattle.clog_crash.specs.Folder.{AreTables, TableRead};
ghost use Rattle.clog_crash.specs.Readings.{IsSkippedIn, IsTableIn, Reading};
ghost use Rattle.clog_crash.specs.Recovery.{AreAllLive, AreFiled, IsRecoveryFile, NamesAny};
ghost use Rattle.clog_crash.specs.Restore.{IsSkipped, IsUndamaged};

/// A folder that is not damaged stays so, and restores the same, when a true table file comes; and
/// when a segment goes for all of whose cells table files stand. The others then stay covered.
pub fn recovering_keeps_a_folder()
    ensures comes { (files : Files) (file : TableFile) (sequence : ℕ) (bytes : List ℕ)
        → IsUndamaged files → IsNewFile files (bytes_at files) file sequence bytes
        → IsSameFolder files (finmap.insert files (table_name_of file.table.0 sequence) bytes) }
    ensures goes { (files : Files) (id : ℕ) → IsUndamaged files → IsCoveredHere files id
        → IsSameFolder files (finmap.remove files (segment_name_of 6 id)) }
    ensures others { (files : Files) (id other : ℕ) → IsUndamaged files → IsCoveredHere files id
        → IsCoveredHere files other
        → IsCoveredHere (finmap.remove files (segment_name_of 6 id)) other }
{}

/// The files of a recovery, made of what the log restored at first, are true one after another, in
/// any order of the tables. Once each table that has such cells has its file, table files stand for
/// all cells of each segment. An id that is above all that the folder named is above the ends of
/// all intervals then too.
pub fn recovery_files_are_true()
    ensures begins { (r : Reading) → AreFiled r r [] }
    ensures is_true { (r q : Reading) (done : List Table) (file : TableFile) → AreFiled r q done
        → ¬ Contains done file.table → IsRecoveryFile r file → IsTrueOf q file }
    ensures next { (r q q' : Reading) (done : List Table) (file : TableFile) (sequence : ℕ)
        → AreFiled r q done → IsRecoveryFile r file → Puts q q' file sequence
        → AreFiled r q' (file.table ∷ done) }
    ensures covered { (r q : Reading) (done : List Table) (id : ℕ) → AreFiled r q done
        → AreAllLive r done
        → ((table : Table) (at : Position) → IsSkippedIn r table at ⊎ (¬ IsSkippedIn r table at))
        → AreCovered q id }
    ensures below { (files : Files) (q : Reading) (done : List Table) (base : ℕ)
        → AreFiled (bytes_at files) q done → ((n : ℕ) → NamesAny files n → n < base)
        → (file : TableFile) → IsTableIn q file → file.upper.id < base }
{}

/// Where all table files are told it is decided whether one stands for a position.
pub fn skipped_or_not()
    ensures { (files : Files) (reads : List TableRead) → AreTables files reads → (table : Table)
        (at : Position) → IsSkipped files table at ⊎ (¬ IsSkipped files table at) }
{}
