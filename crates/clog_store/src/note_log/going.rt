//! A log of notes goes on in a later segment for no note, where the one at hand is done with: a
//! table file ends behind it, or it is about to go.
ghost use Rattle.std.specs.Prelude.{
  ◌≡◌,
  ◌↔◌,
  ◌+◌,
  ◌<◌,
  ◌≤◌,
  ◌^◌,
  IsTrue,
  OnOk,
  false,
  take,
  true,
};
ghost use Rattle.clog_base.specs.Positions.{position_of};
ghost use Rattle.clog_disk.specs.Images.{IsLater};
ghost use Rattle.path_core.specs.Keys.{after};
ghost use Rattle.clog_segments.specs.Grows.{Writes};
ghost use Rattle.clog_segments.specs.Life.{Lives, LivesOn};
ghost use Rattle.clog_segments.specs.NamesLast.{NamesGoOn};
ghost use Rattle.clog_segments.specs.NoteLog.{BeginsFrom, IsShortOf, LeavesOthers};
ghost use Rattle.clog_store.specs.NoteSteps.{Enters, GoesOn};
ghost use Rattle.clog_segments.specs.Stepped.{HasLogCause, StopsBy};
ghost use Rattle.clog_segments.specs.StoreFolder.{EndsWithin, IsSound};
ghost use Rattle.clog_store.specs.StoreTakes.{StillTakes};

use crate::note_log::NoteLog;
use crate::note_steps::enter;
use clog_base::{Key, MARKER_SIZE};
use clog_disk::Disk;
use clog_segments::StoreFault;

impl<D: Disk> NoteLog<D> {
    /// The log goes on in the segment of an id, for no note: it is there already, or all of it is
    /// made to last and that segment is a later one. Nothing of what is kept was written, and
    /// none of it stands before that segment.
    pub fn go_on(&mut self, id: u64) -> Result<(), StoreFault>
        requires fits { id < 2 ^ 63 }
        requires on { self.old.log.id ≤ id }
        requires none { self.old.written ≡ 0 }
        requires begins { BeginsFrom self.old.base id self.old.kept }
        ensures same { self.new ≡ record self.old { log = self.new.log } }
        ensures enters { Enters self.old.log self.new.log id result }
        ensures others { LeavesOthers self.old.log self.new.log (D.files self.old.log.disk)
            (D.files self.new.log.disk) }
        ensures writes { Writes D.changes self.old.log self.new.log }
        ensures names_last { NamesGoOn D.files D.leaves self.old.log self.new.log }
        ensures stays { self.old.log.is_stopped ≡ true → self.new ≡ self.old }
        ensures opened { self.new.log.opened ≡ self.old.log.opened }
        ensures first { self.new.log.first ≡ self.old.log.first }
        ensures later { IsLater D.moment D.read_at D.lasted_at self.old.log.disk self.new.log.disk }
        ensures cause { HasLogCause self.old.log.is_stopped (D.faults self.old.log.disk)
            (D.faults self.new.log.disk) result }
        ensures stops { StopsBy self.new.log.is_stopped result }
        ensures lives { Lives D.files D.moment D.since D.leaves D.read_at D.lasted_at self.old.log
            → LivesOn D.files D.moment D.since D.leaves D.read_at D.lasted_at self.old.log
            self.new.log }
    {
        if self.log.is_stopped() {
            return Err(StoreFault::Stopped);
        }
        enter(self.alloc, &mut self.log, id)
    }

    // Whether a file up to a key would end behind the marker of the segment at hand.
    fn is_short_of(&self, upper: Key) -> bool
        ensures short { IsTrue result ↔ IsShortOf self.now upper.0 }
        ensures sound { IsSound self.now.log }
    {
        let last = Key(self.synced);
        if last.position(self.base).id != self.log.id() || last.0 == 0 {
            return false;
        }
        upper.0.saturating_sub(last.0) > MARKER_SIZE as u64
            || upper.position(self.base).id > last.position(self.base).id
    }

    /// The log goes on so far that a file up to a key may be put, up to which it is lasting: into
    /// the next segment, where no marker fits behind the last section.
    pub fn reach(&mut self, upper: Key) -> Result<(), StoreFault>
        requires { upper.0 ≤ after self.old.sizes.capacity self.old.synced }
        ensures same { self.new ≡ record self.old { log = self.new.log } }
        ensures far { OnOk result (EndsWithin self.new.log.id
            (take self.new.log.synced self.new.log.sections)
            (position_of self.new.base upper.0)) }
        ensures takes { StillTakes self.old self.new }
        ensures others { LeavesOthers self.old.log self.new.log (D.files self.old.log.disk)
            (D.files self.new.log.disk) }
        ensures writes { Writes D.changes self.old.log self.new.log }
        ensures stays { self.old.log.is_stopped ≡ true → self.new ≡ self.old }
        ensures cause { HasLogCause self.old.log.is_stopped (D.faults self.old.log.disk)
            (D.faults self.new.log.disk) result }
        ensures stops { StopsBy self.new.log.is_stopped result }
        ensures goes { GoesOn D.files D.moment D.since D.leaves D.read_at D.lasted_at self.old.log
            self.new.log }
    {
        if self.log.is_stopped() {
            return Err(StoreFault::Stopped);
        }
        if !self.is_short_of(upper) {
            return Ok(());
        }
        let next = self.log.id() + 1;
        self.go_on(next)
    }
}
