//! The greatest sequences of table files are read off the disk's names, once: that leaves the log
//! of sections as it is. From then on they are kept.
ghost use Rattle.std.specs.Prelude.{◌≡◌, IfOk, true};
ghost use Rattle.clog_disk.specs.Images.{IsLater};
ghost use Rattle.clog_segments.specs.Life.{Lives, LivesOn};
ghost use Rattle.clog_segments.specs.NamesLast.{NamesGoOn};
ghost use Rattle.clog_segments.specs.Numbering.{AreOfNames};
ghost use Rattle.clog_segments.specs.Stepped.{HasLogCause, Passes, StopsBy};

use crate::section_log::SectionLog;
use crate::sequences::Sequences;
use crate::written::StoreFault;
use clog_disk::{Disk, DiskFault};

impl<D: Disk> SectionLog<D> {
    /// The greatest sequence of each table's files, by the disk's names. They are read in the first
    /// call that ends well.
    pub fn table_sequences(&mut self) -> Result<Sequences, StoreFault>
        ensures known { IfOk result (AreOfNames (D.files self.new.disk)) }
        ensures passes { Passes self.old self.new result }
        ensures names_last { NamesGoOn D.files D.leaves self.old self.new }
        ensures stays { self.old.is_stopped ≡ true → self.new ≡ self.old }
        ensures same { D.files self.new.disk ≡ D.files self.old.disk }
        ensures quiet { D.changes self.new.disk ≡ D.changes self.old.disk }
        ensures later { IsLater D.moment D.read_at D.lasted_at self.old.disk self.new.disk }
        ensures cause { HasLogCause self.old.is_stopped (D.faults self.old.disk)
            (D.faults self.new.disk) result }
        ensures stops { StopsBy self.new.is_stopped result }
        ensures lives { Lives D.files D.moment D.since D.leaves D.read_at D.lasted_at self.old
            → LivesOn D.files D.moment D.since D.leaves D.read_at D.lasted_at self.old self.new }
    {
        if self.is_stopped {
            return Err(StoreFault::Stopped);
        }
        if let Some(known) = self.sequences {
            return Ok(known);
        }
        match self.disk.list() {
            Ok(names) => {
                let listed = Sequences::of(names.as_slice());
                self.sequences = Some(listed);
                Ok(listed)
            }
            Err(DiskFault::OutOfMemory) => Err(StoreFault::OutOfMemory),
            Err(DiskFault::Failed) => {
                self.is_stopped = true;
                Err(StoreFault::Stopped)
            }
            Err(DiskFault::NoSuchFile) => unreachable!(),
        }
    }
}
