//! A store is opened: a folder is recovered, and a path's log begins there.
ghost use Rattle.std.specs.Prelude.{◌≡◌, ◌<◌, ◌^◌, [], IfErr, IfOk, Some, false};
ghost use Rattle.clog_disk.specs.Files.{Files, SameTold, Told};
ghost use Rattle.clog_disk.specs.Images.{IsLater, LeavesOnly};
ghost use Rattle.clog_folder.specs.Passing.{IsUntouched, TellsFault};
ghost use Rattle.path_core.specs.Keeper.{IsFresh};
ghost use Rattle.clog_segments.specs.Filing.{AreRecoveryPuts, ComesFrom};
ghost use Rattle.clog_segments.specs.Life.{Lives};
ghost use Rattle.clog_segments.specs.Opened.{
  KeepsFolder,
  LeftAlone,
  OpenRefused,
  OpensAs,
  OthersStay,
  RecoversAll,
  RecoversFirst,
  WasLeftOr,
};
ghost use Rattle.clog_segments.specs.StoreFolder.{HoldsStore, fresh_log, no_deeds};
ghost use Rattle.clog_segments.specs.StoreState.{HandsOver, holding_of, store_over};
ghost use Rattle.clog_store.specs.StoreTakes.{TakesNext};

use crate::note_log::NoteLog;
use crate::store::Store;
use clog_base::Sizes;
use clog_disk::Disk;
use clog_folder::OpenFault;
use clog_segments::SectionLog;
use std::alloc::Global;

impl<D: Disk> Store<D> {
    // A store over a log of sections that was just opened.
    fn begin(alloc: Global, log: SectionLog<D>, sizes: Sizes, archives: bool) -> Store<D>
        requires fits { log.id < 2 ^ 62 }
        requires no_past { log.past ≡ [] }
        requires none { log.sections ≡ [] }
        requires none_lasts { log.synced ≡ 0 }
        requires opened { log.opened ≡ D.moment log.disk }
        requires first { log.first ≡ log.disk }
        requires runs { log.is_stopped ≡ false }
        requires folder { (f : Files) → D.files log.disk ≡ Some f
            → HoldsStore f (fresh_log log.id) (no_deeds archives) f }
        ensures { result ≡ store_over log sizes archives }
    {
        let first = log.disk_now();
        let at_open = log.fault_count();
        Store {
            notes: NoteLog::begin(alloc, log, sizes),
            archives,
            first,
            at_open,
            files: Vec::new(alloc),
            dropped: Vec::new(alloc),
            archived: Vec::new(alloc),
            counted: None,
        }
    }

    /// Opens a folder (Cassandra's `CommitLog.recoverSegmentsOnDisk`): it is read and recovered,
    /// and the store's log goes on at the base, which is the moment or one more than the greatest
    /// id that the folder named. The moment is one in milliseconds. For each refusal see `recover`;
    /// the disk comes back then.
    ///
    /// Whatever is answered, each file whose name is no segment's stands as it was, what came are
    /// files that recovery puts, and the folder restores the same. Each image of a crash meanwhile
    /// is one that the disk might have left before, or restores the same and has no other files
    /// either. At `Ok` all lasts.
    pub fn open(
        alloc: Global,
        disk: D,
        moment: u64,
        sizes: Sizes,
        archives: bool,
    ) -> Result<Store<D>, (D, OpenFault)>
        requires moment { moment < 2 ^ 62 }
        ensures over { IfOk result (λ s. s ≡ store_over s.notes.log sizes archives) }
        ensures takes { IfOk result TakesNext }
        ensures fresh { IfOk result (λ s. IsFresh s.notes.base sizes
            (holding_of D.files D.changes D.moment D.faults D.row.coded.code s)) }
        ensures began { IfOk result (λ s. s.notes.log.opened ≡ D.moment s.notes.log.disk) }
        ensures opens { IfOk result (λ s. OpensAs (D.files disk) (D.files s.notes.log.disk) moment
            s.notes.base) }
        ensures quiet { IfOk result (λ s. D.faults s.notes.log.disk ≡ D.faults disk) }
        ensures lasted { (first : Files) → D.files disk ≡ Some first
            → IfOk result (λ s. D.lasted_at s.notes.log.disk s.notes.log.opened) }
        ensures lives { IfOk result (λ s. D.lasted_at s.notes.log.disk s.notes.log.opened
            → Lives D.files D.moment D.since D.leaves D.read_at D.lasted_at s.notes.log) }
        ensures refused { IfErr result (λ back.
            OpenRefused (D.files disk) (D.faults disk) (D.faults back.0) back.1) }
        ensures alone { IfErr result (λ back. LeftAlone (IsUntouched D.files D.changes D.leaves
            D.moment D.since D.read_at D.lasted_at D.faults disk back.0) back.1) }
        ensures tells { IfErr result (λ back.
            TellsFault back.1 (D.faults disk) (D.faults back.0)) }
        ensures changes { (first : Files) → D.files disk ≡ Some first
            → HandsOver (λ now. RecoversFirst first (D.changes disk) (D.changes now)) result }
        ensures recovers { (first : Files) → D.files disk ≡ Some first
            → IfOk result (λ s. RecoversAll first (D.changes disk) (D.changes s.notes.log.disk)) }
        ensures told { HandsOver (λ now. SameTold (D.files disk) (D.files now)) result }
        ensures later { HandsOver (IsLater D.moment D.read_at D.lasted_at disk) result }
        ensures keeps { (first : Files) → D.files disk ≡ Some first
            → HandsOver (λ now. Told (D.files now) (KeepsFolder first)) result }
        ensures others { (first : Files) → D.files disk ≡ Some first
            → HandsOver (λ now. Told (D.files now) (OthersStay first)) result }
        ensures came { (first : Files) → D.files disk ≡ Some first
            → HandsOver (λ now. Told (D.files now) (AreRecoveryPuts first)) result }
        ensures any_moment { (first : Files) → D.files disk ≡ Some first
            → HandsOver (λ now. LeavesOnly D.moment D.since disk now
            (WasLeftOr (D.leaves disk) (KeepsFolder first))) result }
        ensures images { (first : Files) → D.files disk ≡ Some first
            → HandsOver (λ now. LeavesOnly D.moment D.since disk now
            (WasLeftOr (D.leaves disk) (ComesFrom first))) result }
    {
        match SectionLog::open(alloc, disk, moment) {
            Ok(log) => Ok(Store::begin(alloc, log, sizes, archives)),
            Err(back) => Err(back),
        }
    }
}
