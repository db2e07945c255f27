//! Table files come beside a log of notes, which stays as it is.
ghost use Rattle.std.specs.Prelude.{
  ◌≡◌,
  ◌≢◌,
  ◌+◌,
  ◌<◌,
  ◌^◌,
  Err,
  IfOk,
  IfSome,
  OnErr,
  OnOk,
  take,
  true,
};
ghost use Rattle.clog_spec.specs.Names.{table_name_of};
ghost use Rattle.clog_disk.specs.Files.{SameTold};
ghost use Rattle.clog_segments.specs.AtMost.{IsNextWithin};
ghost use Rattle.clog_segments.specs.Beside.{StayButOne};
ghost use Rattle.clog_segments.specs.NoteLog.{IsNoteLog};
ghost use Rattle.clog_store.specs.NoteSteps.{GoesOn};
ghost use Rattle.clog_segments.specs.Publishes.{
  HasCome,
  IsNextSequence,
  IsNumbered,
  IsTrueHere,
  MayHaveCome,
  file_at,
};
ghost use Rattle.clog_segments.specs.Stepped.{HasLogCause, Passes, StopsBy};
ghost use Rattle.clog_segments.specs.declared.written.StoreFault.TheVariants.{
  OutOfMemory as no_memory,
  Stopped as stopped,
};

use crate::note_log::NoteLog;
use clog_base::Table;
use clog_cells::CellMap;
use clog_disk::Disk;
use clog_segments::{Published, StoreFault};

/// The greatest sequence that a name can have.
const GREATEST_SEQUENCE: u64 = 9_223_372_036_854_775_807;

// The sequence behind the greatest one, where a name can have it.
fn next_behind(greatest: u64) -> Result<u64, StoreFault>
    ensures next { IfOk result (λ n. n ≡ greatest + 1) }
    ensures starts { IfOk result (λ n. 0 < n) }
    ensures fits { IfOk result (λ n. n < 2 ^ 63) }
    ensures memory { result ≢ Err stopped }
{
    if greatest >= GREATEST_SEQUENCE {
        return Err(StoreFault::OutOfMemory);
    }
    Ok(greatest + 1)
}

impl<D: Disk> NoteLog<D> {
    /// The next sequence of a table's files, by the names of the disk's files. Where no name can
    /// have it, it is refused like one for which there is no memory.
    pub fn next_sequence(&mut self, table: Table) -> Result<u64, StoreFault>
        ensures log { self.new ≡ record self.old { log = self.new.log } }
        ensures noted { IsNoteLog self.new }
        ensures next { IfOk result (IsNextSequence (D.files self.new.log.disk) table) }
        ensures passes { Passes self.old.log self.new.log result }
        ensures stays { self.old.log.is_stopped ≡ true → self.new ≡ self.old }
        ensures same { D.files self.new.log.disk ≡ D.files self.old.log.disk }
        ensures quiet { D.changes self.new.log.disk ≡ D.changes self.old.log.disk }
        ensures cause { HasLogCause self.old.log.is_stopped (D.faults self.old.log.disk)
            (D.faults self.new.log.disk) result }
        ensures stops { StopsBy self.new.log.is_stopped result }
        ensures goes { GoesOn D.files D.moment D.since D.leaves D.read_at D.lasted_at self.old.log
            self.new.log }
    {
        let known = match self.log.table_sequences() {
            Ok(known) => known,
            Err(fault) => return Err(fault),
        };
        next_behind(known.greatest(table))
    }

    /// Puts the file of an interval with these cells, which is true of what lasts. The sequence is
    /// that of the file's name, which is free: the next one of its table.
    pub fn put(&mut self, sequence: u64, file: Published, cells: &CellMap) -> Result<(), StoreFault>
        requires numbered { IsNumbered self.old.base sequence file cells.now }
        requires may { IfSome (D.files self.old.log.disk) (λ f. IsTrueHere f self.old.log.id
            (take self.old.log.synced self.old.log.sections)
            (file_at self.old.base file cells.now) sequence) }
        requires next { IsNextWithin (D.files self.old.log.disk) self.old.log.id
            (file_at self.old.base file cells.now) sequence }
        ensures log { self.new ≡ record self.old { log = self.new.log } }
        ensures noted { IsNoteLog self.new }
        ensures passes { Passes self.old.log self.new.log result }
        ensures stays { self.old.log.is_stopped ≡ true → self.new ≡ self.old }
        ensures comes { OnOk result (HasCome (D.files self.old.log.disk)
            (D.files self.new.log.disk) (D.changes self.old.log.disk)
            (D.changes self.new.log.disk) (file_at self.old.base file cells.now) sequence) }
        ensures told { SameTold (D.files self.old.log.disk) (D.files self.new.log.disk) }
        ensures quiet { OnErr result
            (D.changes self.new.log.disk ≡ D.changes self.old.log.disk) }
        ensures others { StayButOne (table_name_of file.table.0 sequence)
            (D.files self.old.log.disk) (D.files self.new.log.disk) }
        ensures maybe { OnErr result (MayHaveCome (D.files self.old.log.disk)
            (D.files self.new.log.disk) (file_at self.old.base file cells.now) sequence) }
        ensures same { result ≡ Err no_memory
            → D.files self.new.log.disk ≡ D.files self.old.log.disk }
        ensures cause { HasLogCause self.old.log.is_stopped (D.faults self.old.log.disk)
            (D.faults self.new.log.disk) result }
        ensures stops { StopsBy self.new.log.is_stopped result }
        ensures goes { GoesOn D.files D.moment D.since D.leaves D.read_at D.lasted_at self.old.log
            self.new.log }
    {
        self.log
            .publish(self.alloc, self.base, sequence, file, cells)
    }
}
