//! Segments go that the log has left. What it promises of its entries stands meanwhile, since table
//! files stand for theirs.
ghost use Rattle.std.specs.Prelude.{
  ◌≡◌,
  ◌+◌,
  ℕ,
  Contains,
  IfSome,
  length,
  false,
  take,
  true,
};
ghost use Rattle.clog_disk.specs.Files.{SameTold};
ghost use Rattle.clog_disk.specs.Images.{IsLater};
ghost use Rattle.clog_crash.specs.Flush.{IsCovered};
ghost use Rattle.clog_segments.specs.Discarding.{
  DropsBy,
  DropsButOne,
  DropsFiles,
  HasDroppedNone,
  IsWithin,
  fault_of,
};
ghost use Rattle.clog_segments.specs.Discards.{AreDroppable};
ghost use Rattle.clog_segments.specs.Life.{Lives, LivesOn};
ghost use Rattle.clog_segments.specs.NamesLast.{NamesGoOn};
ghost use Rattle.clog_segments.specs.Stepped.{HasLogCause, Passes, StopsBy};

use crate::discarding::drop_segments;
use crate::section_log::SectionLog;
use crate::written::StoreFault;
use clog_disk::{Disk, DiskFault};

/// Why segments did not go, and how far it went.
#[derive(Clone, Copy, Debug, PartialEq, Eq)]
pub struct DropFault {
    /// How many have gone, the first ones.
    pub dropped: usize,
    /// The next one has got its archive name.
    pub is_named: bool,
    /// Why it and the others have not.
    pub fault: StoreFault,
}

impl<D: Disk> SectionLog<D> {
    /// Segments of these ordinals from the id `base` on go, in their order, each with an archive
    /// name first where `archives`. They are there and older than the one at hand, and table files
    /// stand for all their cells.
    pub fn discard(&mut self, base: u64, archives: bool, ordinals: &[u64]) -> Result<(), DropFault>
        requires droppable { AreDroppable (D.files self.old.disk) base ordinals.now }
        requires covered { IfSome (D.files self.old.disk) (λ f. (o : ℕ) → Contains ordinals.now o
            → IsCovered f self.old.id (take self.old.synced self.old.sections) (base + o)) }
        ensures passes { Passes self.old self.new (fault_of result) }
        ensures names_last { NamesGoOn D.files D.leaves self.old self.new }
        ensures stays { self.old.is_stopped ≡ true → self.new ≡ self.old }
        ensures none { self.old.is_stopped ≡ true → HasDroppedNone result }
        ensures within { self.old.is_stopped ≡ false
            → IsWithin archives (length ordinals.now) result }
        ensures told { SameTold (D.files self.old.disk) (D.files self.new.disk) }
        ensures files { DropsFiles archives base ordinals.now (D.files self.old.disk)
            (D.files self.new.disk) result }
        ensures others { self.old.is_stopped ≡ false → DropsButOne archives base ordinals.now
            (D.files self.old.disk) (D.files self.new.disk) result }
        ensures changes { DropsBy archives base ordinals.now (D.changes self.old.disk)
            (D.changes self.new.disk) result }
        ensures later { IsLater D.moment D.read_at D.lasted_at self.old.disk self.new.disk }
        ensures cause { HasLogCause self.old.is_stopped (D.faults self.old.disk)
            (D.faults self.new.disk) (fault_of result) }
        ensures stops { StopsBy self.new.is_stopped (fault_of result) }
        ensures lives { Lives D.files D.moment D.since D.leaves D.read_at D.lasted_at self.old
            → LivesOn D.files D.moment D.since D.leaves D.read_at D.lasted_at self.old self.new }
    {
        if self.is_stopped {
            return Err(DropFault {
                dropped: 0,
                is_named: false,
                fault: StoreFault::Stopped,
            });
        }
        let halt = match drop_segments(&mut self.disk, base, archives, ordinals) {
            Ok(()) => return Ok(()),
            Err(halt) => halt,
        };
        match halt.fault {
            DiskFault::OutOfMemory => Err(DropFault {
                dropped: halt.dropped,
                is_named: halt.is_named,
                fault: StoreFault::OutOfMemory,
            }),
            DiskFault::Failed => {
                self.is_stopped = true;
                Err(DropFault {
                    dropped: halt.dropped,
                    is_named: halt.is_named,
                    fault: StoreFault::Stopped,
                })
            }
            DiskFault::NoSuchFile => unreachable!(),
        }
    }
}
