//! Which segments of a log of notes may be dropped, and that they go: the notes stay as they are.
ghost use Rattle.std.specs.Prelude.{
  ◌≡◌,
  ◌↔◌,
  ◌+◌,
  ℕ,
  Contains,
  IfSome,
  IsTrue,
  OnErr,
  OnOk,
  false,
  length,
  take,
};
ghost use Rattle.clog_spec.specs.Names.{segment_name_of};
ghost use Rattle.clog_disk.specs.Files.{SameTold};
ghost use Rattle.clog_disk.specs.Images.{IsLater};
ghost use Rattle.clog_crash.specs.Flush.{IsCovered};
ghost use Rattle.clog_crash.specs.Sections.{segment_bytes};
ghost use Rattle.path_core.specs.Keeper.{Holding};
ghost use Rattle.clog_segments.specs.Discarding.{
  DropsBy,
  DropsButOne,
  DropsFiles,
  IsWithin,
  fault_of,
};
ghost use Rattle.clog_segments.specs.Discards.{AreDroppable};
ghost use Rattle.clog_due.specs.Dropping.{AreDue};
ghost use Rattle.clog_segments.specs.Grows.{Writes};
ghost use Rattle.clog_segments.specs.Life.{Lives, LivesOn, ReadsAs, StandsHere};
ghost use Rattle.clog_segments.specs.NamesLast.{NamesGoOn};
ghost use Rattle.clog_segments.specs.NoteLog.{HasLog, IsNoteLog, LeavesOthers};
ghost use Rattle.clog_segments.specs.Stepped.{HasLogCause, Passes, StopsBy};
ghost use Rattle.clog_due.specs.StoreDrops.{AreEarlier};
ghost use Rattle.clog_segments.specs.StoreFolder.{IsSound};
ghost use Rattle.clog_store.specs.StoreTakes.{StandsBehind};

use crate::note_log::NoteLog;
use clog_disk::Disk;
use clog_segments::{DropFault, StoreFault};
use std::alloc::Global;

fn is_among(numbers: &[u64], number: u64) -> bool
    ensures { IsTrue result ↔ Contains numbers.now number }
{
    numbers.contains(&number)
}

impl<D: Disk> NoteLog<D> {
    /// Where it takes memory.
    pub(crate) fn alloc(&self) -> Global {
        self.alloc
    }

    /// What it keeps, for contracts alone: the notes stand in its sections, and its segments can
    /// hold these; while the disk has not failed, the one at hand reads so.
    pub(crate) fn tell(&self)
        ensures notes { IsNoteLog self.now }
        ensures sound { IsSound self.now.log }
        ensures reads { self.now.log.is_stopped ≡ false → ReadsAs (D.files self.now.log.disk)
            (segment_name_of 6 self.now.log.id)
            (segment_bytes self.now.log.id self.now.log.sections) }
        ensures stands { StandsHere D.files self.now.log }
    {
        self.log.id();
    }

    /// Whether the disk has failed.
    pub(crate) fn is_stopped(&self) -> bool
        ensures { result ≡ self.now.log.is_stopped }
    {
        self.log.is_stopped()
    }

    /// Where the segment at hand is among those that are due, the log goes on behind it.
    pub(crate) fn go_behind(&mut self, due: &[u64]) -> Result<(), StoreFault>
        requires runs { self.old.log.is_stopped ≡ false }
        requires due { (h : Holding) × (closed : ℕ) × HasLog self.old h
            × AreDue h closed due.now }
        ensures same { self.new ≡ record self.old { log = self.new.log } }
        ensures earlier { OnOk result (AreEarlier self.new due.now) }
        ensures behind { OnOk result (StandsBehind self.old self.new due.now) }
        ensures still { OnErr result (self.new.log.id ≡ self.old.log.id) }
        ensures others { LeavesOthers self.old.log self.new.log (D.files self.old.log.disk)
            (D.files self.new.log.disk) }
        ensures writes { Writes D.changes self.old.log self.new.log }
        ensures names_last { NamesGoOn D.files D.leaves self.old.log self.new.log }
        ensures opened { self.new.log.opened ≡ self.old.log.opened }
        ensures first { self.new.log.first ≡ self.old.log.first }
        ensures later { IsLater D.moment D.read_at D.lasted_at self.old.log.disk
            self.new.log.disk }
        ensures cause { HasLogCause self.old.log.is_stopped (D.faults self.old.log.disk)
            (D.faults self.new.log.disk) result }
        ensures stops { StopsBy self.new.log.is_stopped result }
        ensures lives { Lives D.files D.moment D.since D.leaves D.read_at D.lasted_at self.old.log
            → LivesOn D.files D.moment D.since D.leaves D.read_at D.lasted_at self.old.log
            self.new.log }
    {
        let id = self.log.id();
        if is_among(due, id - self.base) {
            return self.go_on(id + 1);
        }
        Ok(())
    }

    /// Segments of these ordinals go, in their order, each with an archive name first where
    /// `archives`: see `SectionLog::discard`.
    pub(crate) fn discard(&mut self, archives: bool, ordinals: &[u64]) -> Result<(), DropFault>
        requires runs { self.old.log.is_stopped ≡ false }
        requires droppable { AreDroppable (D.files self.old.log.disk) self.old.base ordinals.now }
        requires covered { IfSome (D.files self.old.log.disk) (λ f. (o : ℕ)
            → Contains ordinals.now o → IsCovered f self.old.log.id
            (take self.old.log.synced self.old.log.sections) (self.old.base + o)) }
        ensures notes { self.new ≡ record self.old { log = self.new.log } }
        ensures passes { Passes self.old.log self.new.log (fault_of result) }
        ensures names_last { NamesGoOn D.files D.leaves self.old.log self.new.log }
        ensures within { IsWithin archives (length ordinals.now) result }
        ensures told { SameTold (D.files self.old.log.disk) (D.files self.new.log.disk) }
        ensures files { DropsFiles archives self.old.base ordinals.now
            (D.files self.old.log.disk) (D.files self.new.log.disk) result }
        ensures others { DropsButOne archives self.old.base ordinals.now
            (D.files self.old.log.disk) (D.files self.new.log.disk) result }
        ensures changes { DropsBy archives self.old.base ordinals.now
            (D.changes self.old.log.disk) (D.changes self.new.log.disk) result }
        ensures later { IsLater D.moment D.read_at D.lasted_at self.old.log.disk
            self.new.log.disk }
        ensures cause { HasLogCause self.old.log.is_stopped (D.faults self.old.log.disk)
            (D.faults self.new.log.disk) (fault_of result) }
        ensures stops { StopsBy self.new.log.is_stopped (fault_of result) }
        ensures lives { Lives D.files D.moment D.since D.leaves D.read_at D.lasted_at self.old.log
            → LivesOn D.files D.moment D.since D.leaves D.read_at D.lasted_at self.old.log
            self.new.log }
    {
        self.log.discard(self.base, archives, ordinals)
    }
}
