//! A store puts table files: a path's publications.
ghost use Rattle.std.specs.Prelude.{◌≡◌, ◌≤◌, ℕ, IfOk, OnErr, OnOk, false, true};
ghost use Rattle.clog_disk.specs.Images.{IsLater};
ghost use Rattle.path_core.specs.Keeper.{HasKeeperCause, MayPublish, PublishRefused, Publishes};
ghost use Rattle.path_core.specs.Keys.{after};
ghost use Rattle.clog_segments.specs.Life.{Lives, LivesOn};
ghost use Rattle.clog_segments.specs.NoteLog.{IsNoteLog};
ghost use Rattle.clog_store.specs.NoteSteps.{GoesOn};
ghost use Rattle.clog_segments.specs.Publishes.{IsNextSequence};
ghost use Rattle.clog_segments.specs.Stepped.{IsQuiet};
ghost use Rattle.clog_segments.specs.StoreState.{HasMoved, HasReached, holding_of, put_of};
ghost use Rattle.clog_store.specs.StoreTakes.{GoesOnTaking};

use crate::store::{Store, told};
use clog_base::{Key, Table};
use clog_cells::CellMap;
use clog_disk::Disk;
use clog_due::StoredFile;
use clog_segments::{Published, StoreFault};
use path_core::KeeperFault;
use std::snapshot::Snapshot;

impl<D: Disk> Store<D> {
    // Takes the memory for one file more, before the disk is called.
    fn make_room_for_file(&mut self) -> Result<(), KeeperFault>
        ensures same { self.new ≡ self.old }
        ensures noted { IsNoteLog self.new.notes }
        ensures cause { HasKeeperCause
            (holding_of D.files D.changes D.moment D.faults D.row.coded.code self.old)
            (holding_of D.files D.changes D.moment D.faults D.row.coded.code self.new) result }
    {
        let faults = self.notes.fault_count();
        if self.notes.is_stopped() {
            return told(self.at_open, faults, Err(StoreFault::Stopped));
        }
        self.files.reserve(1)?;
        Ok(())
    }

    // The log goes on so far that a file may be put up to a key.
    fn reach(&mut self, upper: Key) -> Result<(), KeeperFault>
        requires { upper.0 ≤ after self.old.notes.sizes.capacity self.old.notes.synced }
        ensures moved { HasMoved self.old self.new }
        ensures stays { self.old.notes.log.is_stopped ≡ true → self.new ≡ self.old }
        ensures noted { IsNoteLog self.new.notes }
        ensures far { OnOk result (HasReached self.new.notes upper.0) }
        ensures goes { GoesOn D.files D.moment D.since D.leaves D.read_at D.lasted_at
            self.old.notes.log self.new.notes.log }
        ensures takes { GoesOnTaking self.old self.new }
        ensures quiet { IsQuiet D.faults self.old.notes.log self.new.notes.log }
        ensures cause { HasKeeperCause
            (holding_of D.files D.changes D.moment D.faults D.row.coded.code self.old)
            (holding_of D.files D.changes D.moment D.faults D.row.coded.code self.new) result }
    {
        let outcome = self.notes.reach(upper);
        told(self.at_open, self.notes.fault_count(), outcome)
    }

    // The next sequence of a table's files.
    fn next_sequence(&mut self, table: Table) -> Result<u64, KeeperFault>
        ensures moved { HasMoved self.old self.new }
        ensures stays { self.old.notes.log.is_stopped ≡ true → self.new ≡ self.old }
        ensures noted { IsNoteLog self.new.notes }
        ensures next { IfOk result (IsNextSequence (D.files self.new.notes.log.disk) table) }
        ensures far { (key : ℕ) → HasReached self.old.notes key
            → OnOk result (HasReached self.new.notes key) }
        ensures goes { GoesOn D.files D.moment D.since D.leaves D.read_at D.lasted_at
            self.old.notes.log self.new.notes.log }
        ensures takes { GoesOnTaking self.old self.new }
        ensures quiet { IsQuiet D.faults self.old.notes.log self.new.notes.log }
        ensures cause { HasKeeperCause
            (holding_of D.files D.changes D.moment D.faults D.row.coded.code self.old)
            (holding_of D.files D.changes D.moment D.faults D.row.coded.code self.new) result }
    {
        let outcome = self.notes.next_sequence(table);
        told(self.at_open, self.notes.fault_count(), outcome)
    }

    // Puts a file with the next sequence of its table.
    fn put_next(
        &mut self,
        sequence: u64,
        file: Published,
        cells: &CellMap,
    ) -> Result<(), KeeperFault>
        requires may { MayPublish
            (holding_of D.files D.changes D.moment D.faults D.row.coded.code self.old)
            (put_of file cells.now) }
        requires runs { self.old.notes.log.is_stopped ≡ false }
        requires noted { IsNoteLog self.old.notes }
        requires next { IsNextSequence (D.files self.old.notes.log.disk) file.table sequence }
        requires far { HasReached self.old.notes file.upper.0 }
        ensures publishes { OnOk result (Publishes
            (holding_of D.files D.changes D.moment D.faults D.row.coded.code self.old)
            (holding_of D.files D.changes D.moment D.faults D.row.coded.code self.new)
            (put_of file cells.now)) }
        ensures refused { OnErr result (HasMoved self.old self.new) }
        ensures first { self.new.first ≡ self.old.first }
        ensures noted { IsNoteLog self.new.notes }
        ensures goes { GoesOn D.files D.moment D.since D.leaves D.read_at D.lasted_at
            self.old.notes.log self.new.notes.log }
        ensures takes { GoesOnTaking self.old self.new }
        ensures quiet { IsQuiet D.faults self.old.notes.log self.new.notes.log }
        ensures cause { HasKeeperCause
            (holding_of D.files D.changes D.moment D.faults D.row.coded.code self.old)
            (holding_of D.files D.changes D.moment D.faults D.row.coded.code self.new) result }
    {
        self.files.reserve(1)?;
        match self.notes.put(sequence, file, cells) {
            Ok(()) => {
                self.files.push_reserved(StoredFile {
                    interval: file,
                    cells: Snapshot::of(cells),
                });
                Ok(())
            }
            Err(fault) => told(self.at_open, self.notes.fault_count(), Err(fault)),
        }
    }

    /// Puts a table file for the entries of the table that end above `lower` and not above `upper`:
    /// what a keeper's `publish` does (Cassandra's `Memtable.FlushRunnable`, up to the SSTable that
    /// stands in place). Both are keys: a segment's ordinal and an offset in it, in bytes. Where
    /// the store's log lived, it lives on, and what lasted before is in each image of a crash
    /// meanwhile.
    ///
    /// After an error no file counts as put. `Stopped`: the disk has failed, in this call or in an
    /// earlier one, with its counts of faults at the opening and now; the file may be there.
    /// `OutOfMemory`: memory was refused, or no name can have the next sequence of the table; no
    /// file is there, and the call may be made again. Unless the disk has failed, the log stands
    /// where it takes what may be written next, if it did so before.
    pub fn put_table(
        &mut self,
        table: Table,
        lower: Key,
        upper: Key,
        cells: &CellMap,
    ) -> Result<(), KeeperFault>
        requires { MayPublish
            (holding_of D.files D.changes D.moment D.faults D.row.coded.code self.old) (record {
              table = table.0;
              lower = lower.0;
              upper = upper.0;
              cells = cells.now;
            }) }
        ensures publishes { OnOk result (Publishes
            (holding_of D.files D.changes D.moment D.faults D.row.coded.code self.old)
            (holding_of D.files D.changes D.moment D.faults D.row.coded.code self.new) (record {
              table = table.0;
              lower = lower.0;
              upper = upper.0;
              cells = cells.now;
            })) }
        ensures refused { OnErr result (PublishRefused
            (holding_of D.files D.changes D.moment D.faults D.row.coded.code self.old)
            (holding_of D.files D.changes D.moment D.faults D.row.coded.code self.new) (record {
              table = table.0;
              lower = lower.0;
              upper = upper.0;
              cells = cells.now;
            })) }
        ensures cause { HasKeeperCause
            (holding_of D.files D.changes D.moment D.faults D.row.coded.code self.old)
            (holding_of D.files D.changes D.moment D.faults D.row.coded.code self.new) result }
        ensures quiet { self.new.notes.log.is_stopped ≡ false
            → D.faults self.new.notes.log.disk ≡ D.faults self.old.notes.log.disk }
        ensures takes { GoesOnTaking self.old self.new }
        ensures stays { self.old.notes.log.is_stopped ≡ true → self.new ≡ self.old }
        ensures first { self.new.first ≡ self.old.first }
        ensures noted { IsNoteLog self.new.notes }
        ensures later { IsLater D.moment D.read_at D.lasted_at self.old.notes.log.disk
            self.new.notes.log.disk }
        ensures lives { Lives D.files D.moment D.since D.leaves D.read_at D.lasted_at
            self.old.notes.log
            → LivesOn D.files D.moment D.since D.leaves D.read_at D.lasted_at self.old.notes.log
            self.new.notes.log }
    {
        self.make_room_for_file()?;
        self.reach(upper)?;
        let sequence = self.next_sequence(table)?;
        let file = Published {
            table,
            lower,
            upper,
        };
        self.put_next(sequence, file, cells)
    }
}
