//! A store makes entries last: a sync of a path.
ghost use Rattle.std.specs.Prelude.{◌≡◌, OnErr, OnOk, false, true};
ghost use Rattle.clog_disk.specs.Images.{IsLater};
ghost use Rattle.path_core.specs.Keeper.{HasKeeperCause, MaySync, SyncRefused, Syncs};
ghost use Rattle.clog_segments.specs.Life.{AllLasts, Lives, LivesOn};
ghost use Rattle.clog_segments.specs.NoteLog.{IsNoteLog};
ghost use Rattle.clog_segments.specs.StoreState.{holding_of};
ghost use Rattle.clog_store.specs.StoreTakes.{GoesOnTaking};

use crate::store::{Store, told};
use clog_base::Key;
use clog_disk::Disk;
use path_core::{EntryNote, KeeperFault};

impl<D: Disk> Store<D> {
    /// Makes all pending entries up to a key lasting, and keeps the others pending: what a keeper's
    /// `sync` does (Cassandra's `CommitLog.sync`, which writes a `SyncSegment` for each section). A
    /// key is a segment's ordinal and an offset in it, in bytes. Where the store's log lived, it
    /// lives on, and what lasted before is in each image of a crash meanwhile. At its end a crash
    /// leaves the segment at hand just as it is, whatever lasted at the opening.
    ///
    /// After an error all are pending as before. `Stopped`: the disk has failed, in this call or in
    /// an earlier one; it has the disk's counts of faults at the opening and now, and each later
    /// call answers so and changes nothing. `OutOfMemory`: memory was refused, or a note stands in
    /// a segment that the log has left; the sections that the disk took stay, and the call may be
    /// made again.
    ///
    /// Unless the disk has failed, the log stands where it takes what may be written next, if it
    /// did so before.
    pub fn make_lasting(
        &mut self,
        pending: &mut Vec<EntryNote>,
        upto: Key,
    ) -> Result<(), KeeperFault>
        requires { MaySync
            (holding_of D.files D.changes D.moment D.faults D.row.coded.code self.old) upto.0
            pending.old.items }
        ensures syncs { OnOk result (Syncs
            (holding_of D.files D.changes D.moment D.faults D.row.coded.code self.old)
            (holding_of D.files D.changes D.moment D.faults D.row.coded.code self.new) upto.0
            pending.old.items pending.new.items) }
        ensures refused { OnErr result (SyncRefused
            (holding_of D.files D.changes D.moment D.faults D.row.coded.code self.old)
            (holding_of D.files D.changes D.moment D.faults D.row.coded.code self.new) upto.0
            pending.old.items pending.new.items) }
        ensures lasts { OnOk result (AllLasts D.files D.leaves self.new.notes.log) }
        ensures cause { HasKeeperCause
            (holding_of D.files D.changes D.moment D.faults D.row.coded.code self.old)
            (holding_of D.files D.changes D.moment D.faults D.row.coded.code self.new) result }
        ensures quiet { self.new.notes.log.is_stopped ≡ false
            → D.faults self.new.notes.log.disk ≡ D.faults self.old.notes.log.disk }
        ensures takes { GoesOnTaking self.old self.new }
        ensures stays { self.old.notes.log.is_stopped ≡ true → self.new ≡ self.old }
        ensures first { self.new.first ≡ self.old.first }
        ensures noted { IsNoteLog self.new.notes }
        ensures later { IsLater D.moment D.read_at D.lasted_at self.old.notes.log.disk
            self.new.notes.log.disk }
        ensures lives { Lives D.files D.moment D.since D.leaves D.read_at D.lasted_at
            self.old.notes.log
            → LivesOn D.files D.moment D.since D.leaves D.read_at D.lasted_at self.old.notes.log
            self.new.notes.log }
    {
        let outcome = self.notes.sync(pending, upto);
        told(self.at_open, self.notes.fault_count(), outcome)
    }
}
