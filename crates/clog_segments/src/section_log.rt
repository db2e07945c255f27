//! The log of a store: sections of one segment after another. Where all lasted at its opening, each
//! image of a crash since then restores what the folder restored, and the first of the entries that
//! the log was handed: `Lives`, which is an invariant of the type. Each image since a call began
//! restores all that lasted before it: `Outlives`. From the first fault of the disk on it writes
//! nothing.
ghost use Rattle.std.specs.Prelude.{◌≡◌, ◌<◌, ◌≤◌, ◌^◌, ◌++◌, ℕ, List, [], ◌∷◌, take, drop, length};
ghost use Rattle.std.specs.Prelude.{Contains, IfErr, IfOk, IfSome, Some};
ghost use Rattle.std.specs.Prelude.{Err, true, false};
ghost use Rattle.clog_spec.specs.Names.{segment_name_of};
ghost use Rattle.clog_scan.specs.Cut.{Section};
ghost use Rattle.clog_disk.specs.Files.{Files, SameTold, Told};
ghost use Rattle.clog_disk.specs.Images.{IsLater, LastsAll, LeavesOnly};
ghost use Rattle.clog_crash.specs.Log.{Write};
ghost use Rattle.clog_crash.specs.Rest.{IsAtRest};
ghost use Rattle.clog_crash.specs.Sections.{Brings, IsStored, segment_bytes};
ghost use Rattle.clog_folder.specs.Passing.{IsUntouched, TellsFault};
ghost use Rattle.clog_segments.specs.AtMost.{HoldsMost};
ghost use Rattle.clog_segments.specs.Beside.{StayButOne};
ghost use Rattle.clog_segments.specs.Filing.{AreRecoveryPuts, ComesFrom};
ghost use Rattle.clog_segments.specs.Life.{
  HasEnd,
  LastsHere,
  LastsNow,
  Lives,
  LivesOn,
  MayGoOnIn,
  ReadsAs,
  ShownSince,
  StandsHere,
};
ghost use Rattle.clog_segments.specs.NamesLast.{NamesGoOn};
ghost use Rattle.clog_segments.specs.StoreFolder.{IsSound};
ghost use Rattle.clog_segments.specs.Stepped.{
  AddsBytes,
  HasLogCause,
  Keeps,
  Settles,
  StopsBy,
};
ghost use Rattle.clog_segments.specs.Opened.{
  HandsOn,
  KeepsFolder,
  LeftAlone,
  OpenRefused,
  OpensAs,
  OthersStay,
  RecoversAll,
  RecoversFirst,
  WasLeftOr,
};

mod dropping;
mod files;
mod listing;
mod rolling;

use crate::opening::recover;
use crate::sections::{keep_sections, settle_sections};
use crate::sequences::Sequences;
use crate::written::{PastSegment, StoreFault, Written};
use clog_disk::{Disk, DiskFault};
use clog_folder::OpenFault;
pub use dropping::DropFault;
use std::alloc::Global;
use std::marker::Model;
use std::snapshot::Snapshot;

/// A log of several segments over a disk.
#[derive(Drop)]
pub struct SectionLog<D: Disk> {
    disk: D,
    /// The disk's moment at the opening.
    opened: u64,
    /// The disk then, for contracts alone.
    first: Snapshot<D>,
    past: Vec<PastSegment>,
    /// The segment that it writes, the length of its file, and its sections.
    id: u64,
    size: u64,
    sections: Vec<Written>,
    /// How many of them last.
    synced: usize,
    /// The disk has failed.
    is_stopped: bool,
    /// The greatest sequences of table files, once the disk's names were read for them.
    sequences: Option<Sequences>,
}

impl<D: Disk> Model for SectionLog<D> {
    ghost use Rattle.clog_segments.specs.AtMost.{HoldsMost};
    ghost use Rattle.clog_segments.specs.Life.{State, HasBegun};

    ghost Value = { State D };

    ghost view = { λ s. record {
      disk = s.disk;
      opened = s.opened;
      first = s.first.value;
      past = s.past.items;
      id = s.id;
      sections = s.sections.items;
      synced = s.synced;
      is_stopped = s.is_stopped;
    } };

    ghost invariant = { λ s. HasBegun D.files D.moment D.since D.leaves D.read_at D.lasted_at
        (record {
          disk = s.disk;
          opened = s.opened;
          first = s.first.value;
          past = s.past.items;
          id = s.id;
          sections = s.sections.items;
          synced = s.synced;
          is_stopped = s.is_stopped;
        }) s.size s.sequences
        × HoldsMost D.files D.moment D.since D.leaves (record {
          disk = s.disk;
          opened = s.opened;
          first = s.first.value;
          past = s.past.items;
          id = s.id;
          sections = s.sections.items;
          synced = s.synced;
          is_stopped = s.is_stopped;
        }) };
}

// The last section goes, since nothing of it came onto the disk.
fn take_back(sections: &mut Vec<Written>)
    ensures { (before : List Section) (last : Section) → sections.old.items ≡ before ++ last ∷ []
        → sections.new.items ≡ before }
{
    sections.pop();
}

impl<D: Disk> SectionLog<D> {
    // A log that begins with a segment above all that the folder names.
    fn begin(alloc: Global, disk: D, id: u64) -> SectionLog<D>
        requires none { HasEnd (D.files disk) id 0 [] }
        requires rests { IfSome (D.files disk) (λ f. LastsAll f (D.leaves disk) → (at : ℕ)
            → MayGoOnIn id [] at → IsAtRest f (D.leaves disk) at [] []) }
        ensures disk { result.disk ≡ disk }
        ensures opened { result.opened ≡ D.moment disk }
        ensures first { result.first ≡ disk }
        ensures past { result.past ≡ [] }
        ensures id { result.id ≡ id }
        ensures sections { result.sections ≡ [] }
        ensures synced { result.synced ≡ 0 }
        ensures runs { result.is_stopped ≡ false }
        ensures lives { D.lasted_at disk (D.moment disk)
            → Lives D.files D.moment D.since D.leaves D.read_at D.lasted_at result }
    {
        let opened = disk.moment_count();
        let first = Snapshot::of(&disk);
        SectionLog {
            disk,
            opened,
            first,
            past: Vec::new(alloc),
            id,
            size: 0,
            sections: Vec::new(alloc),
            synced: 0,
            is_stopped: false,
            sequences: None,
        }
    }

    /// Opens a folder: it is read and recovered, and its log goes on at the base. The moment is one
    /// in milliseconds. For each refusal see `recover`; the disk comes back then.
    ///
    /// Whatever is answered, each file whose name is no segment's stands as it was, what came are
    /// files that recovery puts, and the folder restores the same. Each image of a crash meanwhile
    /// is one that the disk might have left before, or restores the same and has no other files
    /// either. At `Ok` all lasts.
    pub fn open(alloc: Global, disk: D, moment: u64) -> Result<SectionLog<D>, (D, OpenFault)>
        requires moment { moment < 2 ^ 62 }
        ensures opens { IfOk result (λ log. OpensAs (D.files disk) (D.files log.disk) moment
            log.id) }
        ensures low { IfOk result (λ log. log.id < 2 ^ 62) }
        ensures opened { IfOk result (λ log. log.opened ≡ D.moment log.disk) }
        ensures first { IfOk result (λ log. log.first ≡ log.disk) }
        ensures past { IfOk result (λ log. log.past ≡ []) }
        ensures sections { IfOk result (λ log. log.sections ≡ []) }
        ensures synced { IfOk result (λ log. log.synced ≡ 0) }
        ensures runs { IfOk result (λ log. log.is_stopped ≡ false) }
        ensures quiet { IfOk result (λ log. D.faults log.disk ≡ D.faults disk) }
        ensures lasted { (first : Files) → D.files disk ≡ Some first
            → IfOk result (λ log. D.lasted_at log.disk log.opened) }
        ensures lives { IfOk result (λ log. D.lasted_at log.disk log.opened
            → Lives D.files D.moment D.since D.leaves D.read_at D.lasted_at log) }
        ensures refused { IfErr result (λ back.
            OpenRefused (D.files disk) (D.faults disk) (D.faults back.0) back.1) }
        ensures alone { IfErr result (λ back. LeftAlone (IsUntouched D.files D.changes D.leaves
            D.moment D.since D.read_at D.lasted_at D.faults disk back.0) back.1) }
        ensures tells { IfErr result (λ back.
            TellsFault back.1 (D.faults disk) (D.faults back.0)) }
        ensures changes { (first : Files) → D.files disk ≡ Some first
            → HandsOn (λ now. RecoversFirst first (D.changes disk) (D.changes now)) result }
        ensures recovers { (first : Files) → D.files disk ≡ Some first
            → IfOk result (λ log. RecoversAll first (D.changes disk) (D.changes log.disk)) }
        ensures told { HandsOn (λ now. SameTold (D.files disk) (D.files now)) result }
        ensures later { HandsOn (IsLater D.moment D.read_at D.lasted_at disk) result }
        ensures keeps { (first : Files) → D.files disk ≡ Some first
            → HandsOn (λ now. Told (D.files now) (KeepsFolder first)) result }
        ensures others { (first : Files) → D.files disk ≡ Some first
            → HandsOn (λ now. Told (D.files now) (OthersStay first)) result }
        ensures came { (first : Files) → D.files disk ≡ Some first
            → HandsOn (λ now. Told (D.files now) (AreRecoveryPuts first)) result }
        ensures any_moment { (first : Files) → D.files disk ≡ Some first
            → HandsOn (λ now. LeavesOnly D.moment D.since disk now
            (WasLeftOr (D.leaves disk) (KeepsFolder first))) result }
        ensures images { (first : Files) → D.files disk ≡ Some first
            → HandsOn (λ now. LeavesOnly D.moment D.since disk now
            (WasLeftOr (D.leaves disk) (ComesFrom first))) result }
    {
        let mut disk = disk;
        match recover(alloc, &mut disk, moment) {
            Ok(base) => Ok(SectionLog::begin(alloc, disk, base)),
            Err(fault) => Err((disk, fault)),
        }
    }

    /// The disk's count of faults. Its segments can hold the log's sections; while the disk has not
    /// failed, the one at hand reads so.
    pub fn fault_count(&self) -> u64
        ensures count { result ≡ D.faults self.now.disk }
        ensures sound { IsSound self.now }
        ensures reads { self.now.is_stopped ≡ false → ReadsAs (D.files self.now.disk)
            (segment_name_of 6 self.now.id) (segment_bytes self.now.id self.now.sections) }
        ensures here { self.now.is_stopped ≡ false → LastsHere D.files D.leaves self.now }
        ensures stands { StandsHere D.files self.now }
    {
        self.disk.fault_count()
    }

    /// Puts one section more, whose bytes these are, behind those of the segment at hand. It is
    /// kept, and does not last yet.
    pub fn keep(&mut self, section: Written, bytes: &[u8]) -> Result<(), StoreFault>
        requires brings { Brings self.old.id (take self.old.synced self.old.sections)
            (drop self.old.synced self.old.sections) (section ∷ []) bytes.now }
        ensures keeps { Keeps self.old self.new section result }
        ensures stays { self.old.is_stopped ≡ true → self.new ≡ self.old }
        ensures adds { AddsBytes (D.files self.old.disk) (D.files self.new.disk)
            (D.changes self.old.disk) (D.changes self.new.disk) (segment_name_of 6 self.old.id)
            bytes.now result }
        ensures others { StayButOne (segment_name_of 6 self.old.id) (D.files self.old.disk)
            (D.files self.new.disk) }
        ensures names_last { NamesGoOn D.files D.leaves self.old self.new }
        ensures later { IsLater D.moment D.read_at D.lasted_at self.old.disk self.new.disk }
        ensures cause { HasLogCause self.old.is_stopped (D.faults self.old.disk)
            (D.faults self.new.disk) result }
        ensures stops { StopsBy self.new.is_stopped result }
        ensures lives { Lives D.files D.moment D.since D.leaves D.read_at D.lasted_at self.old
            → LivesOn D.files D.moment D.since D.leaves D.read_at D.lasted_at self.old self.new }
    {
        if self.is_stopped {
            return Err(StoreFault::Stopped);
        }
        self.sections.push(section)?;
        match keep_sections(&mut self.disk, self.id, self.size, bytes) {
            Ok(()) => {
                self.size += bytes.len() as u64;
                Ok(())
            }
            Err(DiskFault::OutOfMemory) => {
                take_back(&mut self.sections);
                Err(StoreFault::OutOfMemory)
            }
            Err(DiskFault::Failed) => {
                self.is_stopped = true;
                Err(StoreFault::Stopped)
            }
            Err(DiskFault::NoSuchFile) => unreachable!(),
        }
    }

    /// Makes the sections last that are kept.
    pub fn settle(&mut self) -> Result<(), StoreFault>
        ensures settles { Settles self.old self.new result }
        ensures names_last { NamesGoOn D.files D.leaves self.old self.new }
        ensures stays { self.old.is_stopped ≡ true → self.new ≡ self.old }
        ensures same { D.files self.new.disk ≡ D.files self.old.disk }
        ensures quiet { D.changes self.new.disk ≡ D.changes self.old.disk }
        ensures later { IsLater D.moment D.read_at D.lasted_at self.old.disk self.new.disk }
        ensures cause { HasLogCause self.old.is_stopped (D.faults self.old.disk)
            (D.faults self.new.disk) result }
        ensures stops { StopsBy self.new.is_stopped result }
        ensures lives { Lives D.files D.moment D.since D.leaves D.read_at D.lasted_at self.old
            → LivesOn D.files D.moment D.since D.leaves D.read_at D.lasted_at self.old self.new }
    {
        if self.is_stopped {
            return Err(StoreFault::Stopped);
        }
        if self.synced == self.sections.len() {
            return Ok(());
        }
        match settle_sections(&mut self.disk, self.id) {
            Ok(()) => {
                self.synced = self.sections.len();
                Ok(())
            }
            Err(DiskFault::OutOfMemory) => Err(StoreFault::OutOfMemory),
            Err(DiskFault::Failed) => {
                self.is_stopped = true;
                Err(StoreFault::Stopped)
            }
            Err(DiskFault::NoSuchFile) => unreachable!(),
        }
    }

    /// Gives the disk back. Where all lasted at the opening, each image since restores what the
    /// folder restored then and the first of the entries, and each image of now all that last.
    /// Where all sections of the segment at hand last, its name does, whatever lasted then. What
    /// stands under that name are its sections, or after a failure all but the last and some bytes
    /// in its place. Each image since the opening holds at most what a crash left then, parts of
    /// the log's segments, archive names of earlier ones, and table files with the next sequences.
    pub fn into_disk(self) -> D
        ensures disk { result ≡ self.disk }
        ensures stored { IsStored self.id self.sections }
        ensures shown { D.lasted_at result self.opened
            → ShownSince D.files D.moment D.since D.read_at D.lasted_at self.first result
            self.opened self.past self.id self.sections }
        ensures lasts { D.lasted_at result self.opened
            → LastsNow D.files D.leaves D.read_at D.lasted_at self }
        ensures here { self.is_stopped ≡ false → LastsHere D.files D.leaves self }
        ensures stands { StandsHere D.files self }
        ensures most { HoldsMost D.files D.moment D.since D.leaves self }
    {
        self.disk
    }

    /// The id of the segment that it writes. That segment can hold the log's sections; while the
    /// disk has not failed, it reads so.
    pub fn id(&self) -> u64
        ensures id { result ≡ self.now.id }
        ensures few { self.now.synced ≤ length self.now.sections }
        ensures stored { IsStored self.now.id self.now.sections }
        ensures below { (w : Write) → Contains self.now.past w → w.id < self.now.id }
        ensures sound { IsSound self.now }
        ensures reads { self.now.is_stopped ≡ false → ReadsAs (D.files self.now.disk)
            (segment_name_of 6 self.now.id) (segment_bytes self.now.id self.now.sections) }
        ensures stands { StandsHere D.files self.now }
    {
        self.id
    }

    /// The disk as it is now, for contracts alone.
    pub fn disk_now(&self) -> Snapshot<D>
        ensures { result.value ≡ self.now.disk }
    {
        Snapshot::of(&self.disk)
    }

    /// Whether the disk has failed.
    pub fn is_stopped(&self) -> bool
        ensures { result ≡ self.now.is_stopped }
    {
        self.is_stopped
    }
}
