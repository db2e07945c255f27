//! A store drops segments: those for all of whose entries table files stand go, each with its
//! archive name first where the store archives.
ghost use Rattle.std.specs.Prelude.{
  ◌≡◌,
  ℕ,
  ◌+◌,
  ◌≤◌,
  ◌++◌,
  if◌then◌else◌,
  false,
  true,
  length,
  vec_capacity,
  vec_len,
  IfOk,
  OnErr,
  OnOk,
};
ghost use Rattle.clog_disk.specs.Images.{IsLater};
ghost use Rattle.path_core.specs.Keeper.{DropRefused, Drops, HasKeeperCause};
ghost use Rattle.clog_segments.specs.Discarding.{IsWithin, fault_of};
ghost use Rattle.clog_segments.specs.Life.{Lives, LivesOn};
ghost use Rattle.clog_segments.specs.NoteLog.{IsNoteLog};
ghost use Rattle.clog_segments.specs.Stepped.{HasLogCause, StopsBy};
ghost use Rattle.clog_due.specs.StoreDrops.{
  AreDueIn,
  AreEarlier,
  DropsDue,
  HasLetGo,
  archived_by,
  dropped_by,
};
ghost use Rattle.clog_segments.specs.StoreState.{HasMoved, holding_of};
ghost use Rattle.clog_store.specs.StoreTakes.{StandsBehind, TakesBehind};

use crate::store::{Store, told};
use clog_base::OutOfMemory;
use clog_disk::Disk;
use clog_segments::{DropFault, StoreFault};
use path_core::KeeperFault;
use std::alloc::AllocError;

// ---- what has gone

// Takes memory for so many numbers more in each list.
fn make_room(a: &mut Vec<u64>, b: &mut Vec<u64>, more: usize) -> Result<(), AllocError>
    ensures a { a.new.items ≡ a.old.items }
    ensures b { b.new.items ≡ b.old.items }
    ensures room_a { OnOk result (vec_len a.new + more ≤ vec_capacity a.new) }
    ensures room_b { OnOk result (vec_len b.new + more ≤ vec_capacity b.new) }
{
    a.reserve(more)?;
    b.reserve(more)
}

// Puts numbers behind others, where there is room.
fn add_all(list: &mut Vec<u64>, more: &[u64])
    requires room { vec_len list.old + length more.now ≤ vec_capacity list.old }
    ensures { list.new.items ≡ list.old.items ++ more.now }
{
    match list.extend_from_slice(more) {
        Ok(()) => {}
        Err(_) => unreachable!(),
    }
}

// The same where archive names are given.
fn add_archived(list: &mut Vec<u64>, archives: bool, more: &[u64])
    requires room { vec_len list.old + length more.now ≤ vec_capacity list.old }
    ensures { list.new.items
        ≡ (if archives then list.old.items ++ more.now else list.old.items) }
{
    if archives {
        add_all(list, more);
    }
}

// How many segments have gone, of so many.
fn dropped_by(all: usize, outcome: Result<(), DropFault>) -> usize
    ensures { result ≡ dropped_by all outcome }
{
    match outcome {
        Ok(()) => all,
        Err(why) => why.dropped,
    }
}

// How many have got their archive names, where they get one.
fn archived_by(archives: bool, all: usize, outcome: Result<(), DropFault>) -> usize
    requires { IsWithin archives all outcome }
    ensures { result ≡ archived_by all outcome }
{
    match outcome {
        Ok(()) => all,
        Err(why) => why.dropped + usize::from(why.is_named),
    }
}

fn fault_of(outcome: Result<(), DropFault>) -> Result<(), StoreFault>
    ensures { result ≡ fault_of outcome }
{
    match outcome {
        Ok(()) => Ok(()),
        Err(why) => Err(why.fault),
    }
}

impl<D: Disk> Store<D> {
    // The segments that are due. The memory for their numbers is taken here, before the disk is
    // called.
    fn due_below(&mut self, closed: u32) -> Result<Vec<u64>, OutOfMemory>
        ensures due { IfOk result (λ due. AreDueIn self.old closed due.items) }
        ensures same { self.new ≡ self.old }
    {
        let due = self.due_counted(closed)?;
        make_room(&mut self.dropped, &mut self.archived, due.len())?;
        Ok(due)
    }

    // Where the segment at hand is among those that are due, the log goes on behind it.
    fn go_behind(&mut self, due: &[u64]) -> Result<(), StoreFault>
        requires runs { self.old.notes.log.is_stopped ≡ false }
        requires due { (closed : ℕ) × AreDueIn self.old closed due.now }
        ensures earlier { OnOk result (AreEarlier self.new.notes due.now) }
        ensures behind { OnOk result (StandsBehind self.old.notes self.new.notes due.now) }
        ensures still { OnErr result (self.new.notes.log.id ≡ self.old.notes.log.id) }
        ensures moved { HasMoved self.old self.new }
        ensures later { IsLater D.moment D.read_at D.lasted_at self.old.notes.log.disk
            self.new.notes.log.disk }
        ensures cause { HasLogCause self.old.notes.log.is_stopped
            (D.faults self.old.notes.log.disk) (D.faults self.new.notes.log.disk) result }
        ensures stops { StopsBy self.new.notes.log.is_stopped result }
        ensures lives { Lives D.files D.moment D.since D.leaves D.read_at D.lasted_at
            self.old.notes.log
            → LivesOn D.files D.moment D.since D.leaves D.read_at D.lasted_at self.old.notes.log
            self.new.notes.log }
    {
        let outcome = self.notes.go_behind(due);
        self.notes.tell();
        outcome
    }

    // The segments that are due, all of them older than the one at hand: where that is due itself,
    // the log goes on behind it first.
    fn due_behind(&mut self, closed: u32) -> Result<Vec<u64>, StoreFault>
        requires runs { self.old.notes.log.is_stopped ≡ false }
        ensures due { IfOk result (λ due. AreDueIn self.old closed due.items) }
        ensures earlier { IfOk result (λ due. AreEarlier self.new.notes due.items) }
        ensures behind { IfOk result (λ due. StandsBehind self.old.notes self.new.notes
            due.items) }
        ensures still { OnErr result (self.new.notes.log.id ≡ self.old.notes.log.id) }
        ensures moved { HasMoved self.old self.new }
        ensures later { IsLater D.moment D.read_at D.lasted_at self.old.notes.log.disk
            self.new.notes.log.disk }
        ensures cause { HasLogCause self.old.notes.log.is_stopped
            (D.faults self.old.notes.log.disk) (D.faults self.new.notes.log.disk) result }
        ensures stops { StopsBy self.new.notes.log.is_stopped result }
        ensures lives { Lives D.files D.moment D.since D.leaves D.read_at D.lasted_at
            self.old.notes.log
            → LivesOn D.files D.moment D.since D.leaves D.read_at D.lasted_at self.old.notes.log
            self.new.notes.log }
    {
        let due = self.due_below(closed)?;
        self.go_behind(&due)?;
        Ok(due)
    }

    // Older segments that are due go, in their order.
    fn let_go(&mut self, due: &[u64]) -> Result<(), StoreFault>
        requires runs { self.old.notes.log.is_stopped ≡ false }
        requires due { (closed : ℕ) × AreDueIn self.old closed due.now }
        requires earlier { AreEarlier self.old.notes due.now }
        ensures goes { HasLetGo self.old self.new due.now result }
        ensures still { self.new.notes.log.id ≡ self.old.notes.log.id }
        ensures later { IsLater D.moment D.read_at D.lasted_at self.old.notes.log.disk
            self.new.notes.log.disk }
        ensures cause { HasLogCause self.old.notes.log.is_stopped
            (D.faults self.old.notes.log.disk) (D.faults self.new.notes.log.disk) result }
        ensures stops { StopsBy self.new.notes.log.is_stopped result }
        ensures lives { Lives D.files D.moment D.since D.leaves D.read_at D.lasted_at
            self.old.notes.log
            → LivesOn D.files D.moment D.since D.leaves D.read_at D.lasted_at self.old.notes.log
            self.new.notes.log }
    {
        self.notes.tell();
        make_room(&mut self.dropped, &mut self.archived, due.len())?;
        let outcome = self.notes.discard(self.archives, due);
        let gone = dropped_by(due.len(), outcome);
        add_all(&mut self.dropped, &due[..gone]);
        let named = archived_by(self.archives, due.len(), outcome);
        add_archived(&mut self.archived, self.archives, &due[..named]);
        fault_of(outcome)
    }

    // Drops what is due, where the disk has not failed.
    fn let_due_go(&mut self, closed: u32) -> Result<u32, StoreFault>
        requires runs { self.old.notes.log.is_stopped ≡ false }
        ensures drops { DropsDue
            (holding_of D.files D.changes D.moment D.faults D.row.coded.code self.old)
            (holding_of D.files D.changes D.moment D.faults D.row.coded.code self.new) closed
            result }
        ensures takes { TakesBehind self.old self.new closed result }
        ensures first { self.new.first ≡ self.old.first }
        ensures later { IsLater D.moment D.read_at D.lasted_at self.old.notes.log.disk
            self.new.notes.log.disk }
        ensures cause { HasLogCause self.old.notes.log.is_stopped
            (D.faults self.old.notes.log.disk) (D.faults self.new.notes.log.disk) result }
        ensures stops { StopsBy self.new.notes.log.is_stopped result }
        ensures lives { Lives D.files D.moment D.since D.leaves D.read_at D.lasted_at
            self.old.notes.log
            → LivesOn D.files D.moment D.since D.leaves D.read_at D.lasted_at self.old.notes.log
            self.new.notes.log }
    {
        let due = self.due_behind(closed)?;
        self.let_go(&due)?;
        Ok(due.len() as u32)
    }

    // The same, whether or not the disk has failed.
    fn try_drop(&mut self, closed: u32) -> Result<u32, StoreFault>
        ensures drops { DropsDue
            (holding_of D.files D.changes D.moment D.faults D.row.coded.code self.old)
            (holding_of D.files D.changes D.moment D.faults D.row.coded.code self.new) closed
            result }
        ensures takes { TakesBehind self.old self.new closed result }
        ensures stays { self.old.notes.log.is_stopped ≡ true → self.new ≡ self.old }
        ensures first { self.new.first ≡ self.old.first }
        ensures later { IsLater D.moment D.read_at D.lasted_at self.old.notes.log.disk
            self.new.notes.log.disk }
        ensures cause { HasLogCause self.old.notes.log.is_stopped
            (D.faults self.old.notes.log.disk) (D.faults self.new.notes.log.disk) result }
        ensures stops { StopsBy self.new.notes.log.is_stopped result }
        ensures lives { Lives D.files D.moment D.since D.leaves D.read_at D.lasted_at
            self.old.notes.log
            → LivesOn D.files D.moment D.since D.leaves D.read_at D.lasted_at self.old.notes.log
            self.new.notes.log }
    {
        if self.notes.is_stopped() {
            return Err(StoreFault::Stopped);
        }
        self.let_due_go(closed)
    }

    /// Drops the segments of ordinals below `closed` that are due, and answers how many: what a
    /// keeper's `discard` does (Cassandra's `CommitLog.discardCompletedSegments`, and
    /// `CommitLogArchiver` where the store archives). Where the store's log lived, it lives on, and
    /// what lasted before is in each image of a crash meanwhile. Where the segment at hand is due,
    /// the log goes on behind it, and that stands where its removal is refused.
    ///
    /// After an error the first of them have gone, and the next one may have its archive name.
    /// `Stopped`: the disk has failed, in this call or in an earlier one, with its counts of faults
    /// at the opening and now. `OutOfMemory`: memory was refused; that for the numbers of segments
    /// is taken before the disk is called. The call may be made again.
    ///
    /// Unless the disk has failed, the log stands where it takes what may be written next, if it
    /// did so before, but for one case: the call was refused and the segment at hand was due. That
    /// may stay then, and a sync of further notes in it is refused: so make the call again first.
    pub fn drop_due(&mut self, closed: u32) -> Result<u32, KeeperFault>
        ensures drops { IfOk result (Drops
            (holding_of D.files D.changes D.moment D.faults D.row.coded.code self.old)
            (holding_of D.files D.changes D.moment D.faults D.row.coded.code self.new) closed) }
        ensures refused { OnErr result (DropRefused
            (holding_of D.files D.changes D.moment D.faults D.row.coded.code self.old)
            (holding_of D.files D.changes D.moment D.faults D.row.coded.code self.new) closed) }
        ensures cause { HasKeeperCause
            (holding_of D.files D.changes D.moment D.faults D.row.coded.code self.old)
            (holding_of D.files D.changes D.moment D.faults D.row.coded.code self.new) result }
        ensures quiet { self.new.notes.log.is_stopped ≡ false
            → D.faults self.new.notes.log.disk ≡ D.faults self.old.notes.log.disk }
        ensures takes { TakesBehind self.old self.new closed result }
        ensures stays { self.old.notes.log.is_stopped ≡ true → self.new ≡ self.old }
        ensures first { self.new.first ≡ self.old.first }
        ensures noted { IsNoteLog self.new.notes }
        ensures later { IsLater D.moment D.read_at D.lasted_at self.old.notes.log.disk
            self.new.notes.log.disk }
        ensures lives { Lives D.files D.moment D.since D.leaves D.read_at D.lasted_at
            self.old.notes.log
            → LivesOn D.files D.moment D.since D.leaves D.read_at D.lasted_at self.old.notes.log
            self.new.notes.log }
    {
        let outcome = self.try_drop(closed);
        told(self.at_open, self.notes.fault_count(), outcome)
    }
}
