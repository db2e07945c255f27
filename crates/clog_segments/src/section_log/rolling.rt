//! The log of sections goes on in a later segment: behind the one at hand, all of whose sections
//! last, or in its place, where it has none. So each segment that the log has left has a section.
ghost use Rattle.std.specs.Prelude.{◌≡◌, ◌<◌, ◌^◌, ◌++◌, ◌∷◌, [], OnErr, OnOk, false, length};
ghost use Rattle.clog_segments.specs.Life.{Lives, LivesOn, past_with};
ghost use Rattle.clog_segments.specs.Stepped.{HasLogCause, StopsBy};

use crate::section_log::SectionLog;
use crate::written::{PastSegment, StoreFault};
use clog_disk::Disk;
use std::alloc::Global;
use std::mem;

impl<D: Disk> SectionLog<D> {
    // It goes on in a later segment in place of the one at hand, which has no section.
    fn skip(&mut self, id: u64)
        requires runs { self.old.is_stopped ≡ false }
        requires above { self.old.id < id }
        requires fits { id < 2 ^ 63 }
        requires none { self.old.sections ≡ [] }
        ensures skips { self.new ≡ record self.old { id = id } }
        ensures lives { Lives D.files D.moment D.since D.leaves D.read_at D.lasted_at self.old
            → LivesOn D.files D.moment D.since D.leaves D.read_at D.lasted_at self.old self.new }
    {
        self.id = id;
    }

    // It goes on in a later segment behind the one at hand.
    fn leave(&mut self, alloc: Global, id: u64) -> Result<(), StoreFault>
        requires runs { self.old.is_stopped ≡ false }
        requires above { self.old.id < id }
        requires fits { id < 2 ^ 63 }
        requires some { 0 < length self.old.sections }
        requires all { self.old.synced ≡ length self.old.sections }
        ensures leaves { OnOk result (self.new ≡ record self.old {
          past = self.old.past ++ record { id = self.old.id; sections = self.old.sections } ∷ [];
          id = id;
          sections = [];
          synced = 0;
        }) }
        ensures refused { OnErr result (self.new ≡ self.old) }
        ensures cause { HasLogCause self.old.is_stopped (D.faults self.old.disk)
            (D.faults self.new.disk) result }
        ensures stops { StopsBy self.new.is_stopped result }
        ensures lives { Lives D.files D.moment D.since D.leaves D.read_at D.lasted_at self.old
            → OnOk result
            (LivesOn D.files D.moment D.since D.leaves D.read_at D.lasted_at self.old self.new) }
    {
        self.past.reserve(1)?;
        let sections = mem::replace(&mut self.sections, Vec::new(alloc));
        self.past.push_reserved(PastSegment {
            id: self.id,
            sections,
        });
        self.id = id;
        self.size = 0;
        self.synced = 0;
        Ok(())
    }

    /// The log goes on in a further segment, above the one at hand, all of whose sections last.
    /// Where that has none, it is as if the log had not come to it.
    pub fn roll(&mut self, alloc: Global, id: u64) -> Result<(), StoreFault>
        requires above { self.old.id < id }
        requires fits { id < 2 ^ 63 }
        requires all { self.old.synced ≡ length self.old.sections }
        ensures rolls { OnOk result (self.new ≡ record self.old {
          past = past_with self.old.past self.old.id self.old.sections;
          id = id;
          sections = [];
          synced = 0;
        }) }
        ensures refused { OnErr result (self.new ≡ self.old) }
        ensures cause { HasLogCause self.old.is_stopped (D.faults self.old.disk)
            (D.faults self.new.disk) result }
        ensures stops { StopsBy self.new.is_stopped result }
        ensures lives { Lives D.files D.moment D.since D.leaves D.read_at D.lasted_at self.old
            → OnOk result
            (LivesOn D.files D.moment D.since D.leaves D.read_at D.lasted_at self.old self.new) }
    {
        if self.is_stopped {
            return Err(StoreFault::Stopped);
        }
        if self.sections.is_empty() {
            self.skip(id);
            return Ok(());
        }
        self.leave(alloc, id)
    }
}
