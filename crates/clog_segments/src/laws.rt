//! What follows from the definitions of a recovery, and what a crash leaves can be opened.
ghost use Rattle.std.specs.Prelude.{◌≡◌, ◌⊎◌, ℕ, ◌+◌, List, Some, length};
ghost use Rattle.clog_disk.specs.Files.{Files};
ghost use Rattle.clog_crash.specs.Damage.{AreSegmentFiles};
ghost use Rattle.clog_crash.specs.Log.{GoesOn, NoChances, Write};
ghost use Rattle.clog_crash.specs.Restore.{IsUndamaged};
ghost use Rattle.clog_folder.specs.declared.fault.OpenFault.{OpenFault};
ghost use Rattle.clog_folder.specs.declared.fault.OpenFault.TheVariants.{
  Disk as disk_failed,
  OutOfMemory as no_memory,
};
ghost use Rattle.clog_segments.specs.Filing.{ComesFrom, IsRecoveryPut};
ghost use Rattle.clog_segments.specs.Opened.{
  CanBeOpened,
  HasRoomFor,
  IsOpened,
  KeepsFolder,
  OpenRefused,
  SequencesAreBelow,
};
ghost use Rattle.clog_segments.specs.StoreFolder.{Deeds, StoreLog};
ghost use Rattle.clog_segments.specs.StoreImages.{HoldsAtMost, IsWithinLimits};

/// A recovery puts one file a table at most: what it puts of one table has one name.
pub fn a_recovery_puts_one_file_a_table()
    ensures { (first : Files) (name bytes other more : List ℕ) (a : IsRecoveryPut first name bytes)
        (b : IsRecoveryPut first other more) → a.file.table ≡ b.file.table → name ≡ other }
{}

/// A folder that can be opened, and whose segments are bytes, is refused only where its disk has
/// failed, or for want of memory.
pub fn what_can_be_opened_is_opened()
    ensures { (files : Files) (faults now : ℕ) (fault : OpenFault) → CanBeOpened files
        → AreSegmentFiles files → OpenRefused (Some files) faults now fault
        → (fault ≡ disk_failed) ⊎ (fault ≡ no_memory) }
{}

/// A folder that was opened can be opened, and has room for one file less of each table.
pub fn an_opened_folder_can_be_opened()
    ensures { (before now : Files) (moment base count : ℕ) → IsOpened before moment base now
        → HasRoomFor before (count + 1) → CanBeOpened now × HasRoomFor now count }
{}

/// What a crash leaves of a folder that is being opened can be opened, where the folder could be,
/// and where no sequence stood at its limit.
pub fn what_an_opening_leaves_can_be_opened()
    ensures { (first image : Files) → CanBeOpened first → SequencesAreBelow first
        → KeepsFolder first image → ComesFrom first image → CanBeOpened image }
{}

/// What a crash leaves of a store's folder, undamaged, can be opened, where the folder could be at
/// first: where sequences and ids stay below their limits, and no segment of the log is too long.
pub fn what_a_store_leaves_can_be_opened()
    ensures { (first image : Files) (log : StoreLog) (deeds : Deeds) → CanBeOpened first
        → HasRoomFor first (length deeds.files + 2) → IsWithinLimits log → IsUndamaged image
        → HoldsAtMost first log deeds image → CanBeOpened image }
{}

/// The segments of what a crash leaves of a folder that is being opened are bytes, where they were.
pub fn what_an_opening_leaves_is_bytes()
    ensures { (first image : Files) → AreSegmentFiles first → ComesFrom first image
        → AreSegmentFiles image }
{}

/// The segments of what a crash leaves of a store's folder are bytes, where nothing passes a check
/// by chance.
pub fn what_a_store_leaves_is_bytes()
    ensures { (first image : Files) (log : StoreLog) (deeds : Deeds) (written : List Write)
        → AreSegmentFiles first → HoldsAtMost first log deeds image
        → GoesOn log.past log.id log.sections written → NoChances written image
        → CanBeOpened image → AreSegmentFiles image }
{}
