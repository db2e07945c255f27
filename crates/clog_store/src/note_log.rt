//! A log of notes: it makes the entries lasting that it is lent, in sections over segments, and
//! keeps them in mind. Its sections hold just those notes, each at its place (`IsNoteLog`).
//!
//! What it is lent moves into the log once it lasts. After a sync that was refused all of it is the
//! caller's still, and some of it may stand in the sections: the log keeps in mind in which
//! segments these notes are, and for contracts which they are (`Kept`); the next sync begins with
//! them and goes on behind what was written.
ghost use Rattle.std.specs.Prelude.{
  ◌≡◌,
  ◌↔◌,
  ◌+◌,
  ◌<◌,
  ◌≤◌,
  ◌^◌,
  [],
  IsTrue,
  OnErr,
  OnOk,
  drop,
  false,
  length,
  true,
  vec_capacity,
};
ghost use Rattle.clog_base.specs.Positions.{ordinal_of};
ghost use Rattle.clog_disk.specs.Images.{IsLater};
ghost use Rattle.clog_segments.specs.Grows.{Grows, Writes};
ghost use Rattle.clog_spec.specs.Names.{segment_name_of};
ghost use Rattle.clog_crash.specs.Sections.{segment_bytes};
ghost use Rattle.clog_segments.specs.Life.{LastsHere, Lives, LivesOn, ReadsAs, StandsHere};
ghost use Rattle.clog_segments.specs.NamesLast.{NamesGoOn};
ghost use Rattle.clog_segments.specs.StoreFolder.{IsSound};
ghost use Rattle.clog_segments.specs.NoteLog.{
  BeginsFrom,
  HasRefused,
  HasSynced,
  IsNoteLog,
  LeavesOthers,
  MayLog,
};
ghost use Rattle.clog_store.specs.NoteSteps.{GoesOn, Leaves, Logs, LogsNot, MayRun};
ghost use Rattle.clog_segments.specs.Stepped.{HasLogCause, StopsBy};
ghost use Rattle.clog_store.specs.StoreTakes.{StillTakes};

mod dropping;
mod going;
mod putting;
mod telling;

use crate::kept::Kept;
use crate::note_order::{move_behind, part_at};
use crate::note_writing::write_all;
use clog_base::{Key, Sizes, drop_in_background};
use clog_disk::Disk;
use clog_segments::{SectionLog, StoreFault};
use path_core::EntryNote;
use std::alloc::Global;
use std::marker::Model;
use std::snapshot::Snapshot;
use std::thread::Threads;

/// A log of notes over a disk (what Cassandra's `AbstractCommitLogSegmentManager` writes).
#[derive(Drop)]
pub struct NoteLog<D: Disk> {
    alloc: Global,
    log: SectionLog<D>,
    /// The id of the segment of ordinal 0.
    base: u64,
    sizes: Sizes,
    /// The start of the last sync's marker, 0 before the first.
    synced: u64,
    logged: Vec<EntryNote>,
    /// The notes of a sync that was refused.
    kept: Kept,
    /// How many of these stand in the log's sections.
    written: usize,
}

impl<D: Disk> Model for NoteLog<D> {
    ghost use Rattle.clog_segments.specs.NoteLog.{IsNoteLog, NoteState};

    ghost Value = { NoteState D };

    ghost view = { λ s. record {
      log = s.log;
      base = s.base;
      sizes = s.sizes;
      synced = s.synced;
      logged = s.logged.items;
      kept = s.kept;
      written = s.written;
    } };

    ghost invariant = { λ s. IsNoteLog (record {
      log = s.log;
      base = s.base;
      sizes = s.sizes;
      synced = s.synced;
      logged = s.logged.items;
      kept = s.kept;
      written = s.written;
    }) };
}

// Whether a key lies in the segment of an id or in a later one.
fn is_from(base: u64, id: u64, key: Key) -> bool
    requires { base < 2 ^ 62 }
    ensures { IsTrue result ↔ (id ≤ base + ordinal_of key.0) }
{
    id <= key.position(base).id
}

impl<D: Disk> NoteLog<D> {
    /// A log of notes over a log of sections that was just opened. Its first segment is the one of
    /// ordinal 0.
    pub fn begin(alloc: Global, log: SectionLog<D>, sizes: Sizes) -> NoteLog<D>
        requires fits { log.id < 2 ^ 62 }
        requires no_past { log.past ≡ [] }
        requires none { log.sections ≡ [] }
        requires none_lasts { log.synced ≡ 0 }
        ensures { result ≡ record {
          log = log;
          base = log.id;
          sizes = sizes;
          synced = 0;
          logged = [];
          kept = [];
          written = 0;
        } }
    {
        let base = log.id();
        NoteLog {
            alloc,
            log,
            base,
            sizes,
            synced: 0,
            logged: Vec::new(alloc),
            kept: Kept::none(alloc),
            written: 0,
        }
    }

    // Logs the run, which moves into the log. Where this is refused it is there still; what was
    // begun is kept in mind.
    fn log_run(&mut self, run: &mut Vec<EntryNote>, upto: u64) -> Result<(), StoreFault>
        requires runs { self.old.log.is_stopped ≡ false }
        requires may { MayRun self.old upto run.old.items }
        ensures logs { OnOk result (Logs self.old self.new upto run.old.items) }
        ensures refused { OnErr result (LogsNot self.old self.new run.old.items) }
        ensures moved { OnOk result (run.new.items ≡ []) }
        ensures there { OnErr result (run.new.items ≡ run.old.items) }
        ensures room { vec_capacity run.new ≡ vec_capacity run.old }
        ensures all { OnOk result (self.new.log.synced ≡ length self.new.log.sections) }
        ensures goes { GoesOn D.files D.moment D.since D.leaves D.read_at D.lasted_at self.old.log
            self.new.log }
        ensures leaves { Leaves D.files D.changes self.old.log self.new.log }
        ensures takes { StillTakes self.old self.new }
        ensures cause { HasLogCause self.old.log.is_stopped (D.faults self.old.log.disk)
            (D.faults self.new.log.disk) result }
        ensures stops { StopsBy self.new.log.is_stopped result }
    {
        let kept = Kept::of(self.alloc, run)?;
        self.logged.reserve(run.len())?;
        self.kept = kept;
        let seen = Snapshot::of(&*run);
        write_all(
            self.alloc,
            &mut self.log,
            self.base,
            run.as_slice(),
            &seen,
            &mut self.written,
        )?;
        move_behind(&mut self.logged, run);
        self.kept = Kept::none(self.alloc);
        self.written = 0;
        self.synced = upto;
        Ok(())
    }

    // Whether the first of the notes that are to come stands in the segment at hand or a later one.
    fn may_begin(&self, notes: &[EntryNote]) -> bool
        ensures { IsTrue result
            ↔ BeginsFrom self.now.base self.now.log.id (drop self.now.written notes.now) }
    {
        if self.written >= notes.len() {
            return true;
        }
        is_from(self.base, self.log.id(), notes[self.written].start)
    }

    /// Makes all pending notes up to a key lasting, and keeps the others pending. Where it is
    /// refused all are pending; the sections that the disk took stay, and the next call goes on
    /// behind them. Notes of a segment that the log has left for no note are refused like those for
    /// which there is no memory. Unless the disk has failed, the log takes what comes next still,
    /// if it did so before (`takes`).
    pub fn sync(&mut self, pending: &mut Vec<EntryNote>, upto: Key) -> Result<(), StoreFault>
        requires { MayLog self.old upto.0 pending.old.items }
        ensures syncs { OnOk result (HasSynced self.old self.new upto.0 pending.old.items
            pending.new.items) }
        ensures refused { OnErr result (HasRefused self.old self.new upto.0 pending.old.items
            pending.new.items) }
        ensures all { OnOk result (self.new.log.synced ≡ length self.new.log.sections) }
        ensures others { LeavesOthers self.old.log self.new.log (D.files self.old.log.disk)
            (D.files self.new.log.disk) }
        ensures grows { self.new.log.is_stopped ≡ false
            → Grows D.changes self.old.log self.new.log }
        ensures writes { Writes D.changes self.old.log self.new.log }
        ensures names_last { NamesGoOn D.files D.leaves self.old.log self.new.log }
        ensures stays { self.old.log.is_stopped ≡ true → self.new ≡ self.old }
        ensures takes { StillTakes self.old self.new }
        ensures opened { self.new.log.opened ≡ self.old.log.opened }
        ensures first { self.new.log.first ≡ self.old.log.first }
        ensures later { IsLater D.moment D.read_at D.lasted_at self.old.log.disk self.new.log.disk }
        ensures cause { HasLogCause self.old.log.is_stopped (D.faults self.old.log.disk)
            (D.faults self.new.log.disk) result }
        ensures stops { StopsBy self.new.log.is_stopped result }
        ensures lives { Lives D.files D.moment D.since D.leaves D.read_at D.lasted_at self.old.log
            → LivesOn D.files D.moment D.since D.leaves D.read_at D.lasted_at self.old.log
            self.new.log }
    {
        if self.log.is_stopped() {
            return Err(StoreFault::Stopped);
        }
        let count = part_at(pending, upto.0);
        let mut others = pending.split_off(count)?;
        if !self.may_begin(pending) {
            move_behind(pending, &mut others);
            return Err(StoreFault::OutOfMemory);
        }
        let outcome = self.log_run(pending, upto.0);
        move_behind(pending, &mut others);
        outcome
    }

    /// The id of the segment of ordinal 0.
    pub fn base(&self) -> u64
        ensures base { result ≡ self.now.base }
        ensures fits { self.now.base < 2 ^ 62 }
    {
        self.base
    }

    /// The disk's count of faults. Its segments can hold the log's sections; while the disk has not
    /// failed, the one at hand reads so.
    pub fn fault_count(&self) -> u64
        ensures count { result ≡ D.faults self.now.log.disk }
        ensures fits { D.faults self.now.log.disk < 2 ^ 64 }
        ensures noted { IsNoteLog self.now }
        ensures sound { IsSound self.now.log }
        ensures reads { self.now.log.is_stopped ≡ false → ReadsAs (D.files self.now.log.disk)
            (segment_name_of 6 self.now.log.id)
            (segment_bytes self.now.log.id self.now.log.sections) }
        ensures here { self.now.log.is_stopped ≡ false
            → LastsHere D.files D.leaves self.now.log }
        ensures stands { StandsHere D.files self.now.log }
    {
        self.log.fault_count()
    }

    /// The log of sections in which its notes stand. The notes go, in a thread for which nobody
    /// waits where they are many and one can be started.
    pub fn into_log<R: Threads>(self, rt: &R) -> SectionLog<D>
        ensures log { result ≡ self.log }
        ensures notes { IsNoteLog self }
    {
        let NoteLog {
            alloc: _,
            log,
            base: _,
            sizes: _,
            synced: _,
            logged,
            kept: _,
            written: _,
        } = self;
        drop_in_background(rt, logged.len(), logged);
        log
    }
}
