//! Table files come beside the log of sections. What it promises of its entries stands meanwhile.
ghost use Rattle.std.specs.Prelude.{◌≡◌, Err, IfSome, OnErr, OnOk, take, true};
ghost use Rattle.clog_spec.specs.Names.{table_name_of};
ghost use Rattle.clog_disk.specs.Files.{SameTold};
ghost use Rattle.clog_disk.specs.Images.{IsLater};
ghost use Rattle.clog_segments.specs.AtMost.{IsNextWithin};
ghost use Rattle.clog_segments.specs.Beside.{StayButOne};
ghost use Rattle.clog_segments.specs.Life.{Lives, LivesOn};
ghost use Rattle.clog_segments.specs.NamesLast.{NamesGoOn};
ghost use Rattle.clog_segments.specs.Publishes.{
  HasCome,
  IsNumbered,
  IsTrueHere,
  MayHaveCome,
  file_at,
};
ghost use Rattle.clog_segments.specs.Stepped.{HasLogCause, Passes, StopsBy};
ghost use Rattle.clog_segments.specs.declared.written.StoreFault.TheVariants.{
  OutOfMemory as no_memory,
};

use crate::publishing::{Published, publish_file};
use crate::section_log::SectionLog;
use crate::sequences::with_file;
use crate::written::StoreFault;
use clog_cells::CellMap;
use clog_disk::{Disk, DiskFault};
use std::alloc::Global;

impl<D: Disk> SectionLog<D> {
    /// Puts the file of an interval with these cells, which is true of what lasts. The segment of
    /// ordinal 0 has the id `base`, and the sequence is that of the file's name, which is free: the
    /// next one of its table.
    pub fn publish(
        &mut self,
        alloc: Global,
        base: u64,
        sequence: u64,
        file: Published,
        cells: &CellMap,
    ) -> Result<(), StoreFault>
        requires numbered { IsNumbered base sequence file cells.now }
        requires may { IfSome (D.files self.old.disk) (λ f. IsTrueHere f self.old.id
            (take self.old.synced self.old.sections) (file_at base file cells.now) sequence) }
        requires next { IsNextWithin (D.files self.old.disk) self.old.id
            (file_at base file cells.now) sequence }
        ensures passes { Passes self.old self.new result }
        ensures names_last { NamesGoOn D.files D.leaves self.old self.new }
        ensures stays { self.old.is_stopped ≡ true → self.new ≡ self.old }
        ensures comes { OnOk result (HasCome (D.files self.old.disk) (D.files self.new.disk)
            (D.changes self.old.disk) (D.changes self.new.disk) (file_at base file cells.now)
            sequence) }
        ensures told { SameTold (D.files self.old.disk) (D.files self.new.disk) }
        ensures quiet { OnErr result (D.changes self.new.disk ≡ D.changes self.old.disk) }
        ensures others { StayButOne (table_name_of file.table.0 sequence) (D.files self.old.disk)
            (D.files self.new.disk) }
        ensures maybe { OnErr result (MayHaveCome (D.files self.old.disk) (D.files self.new.disk)
            (file_at base file cells.now) sequence) }
        ensures same { result ≡ Err no_memory → D.files self.new.disk ≡ D.files self.old.disk }
        ensures later { IsLater D.moment D.read_at D.lasted_at self.old.disk self.new.disk }
        ensures cause { HasLogCause self.old.is_stopped (D.faults self.old.disk)
            (D.faults self.new.disk) result }
        ensures stops { StopsBy self.new.is_stopped result }
        ensures lives { Lives D.files D.moment D.since D.leaves D.read_at D.lasted_at self.old
            → LivesOn D.files D.moment D.since D.leaves D.read_at D.lasted_at self.old self.new }
    {
        if self.is_stopped {
            return Err(StoreFault::Stopped);
        }
        match publish_file(alloc, &mut self.disk, base, sequence, file, cells) {
            Ok(()) => {
                self.sequences = with_file(self.sequences, file.table, sequence);
                Ok(())
            }
            Err(DiskFault::OutOfMemory) => Err(StoreFault::OutOfMemory),
            Err(DiskFault::Failed) => {
                self.is_stopped = true;
                Err(StoreFault::Stopped)
            }
            Err(DiskFault::NoSuchFile) => unreachable!(),
        }
    }
}
