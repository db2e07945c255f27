//! Notes are written behind a log of sections, section by section: what stands in it goes on to be
//! known (`IsReady`), and where the disk has not failed, what a log of notes keeps stays true. What
//! was seen of the notes is for contracts alone.
ghost use Rattle.std.specs.Prelude.{◌≡◌, ◌<◌, ◌≤◌, ◌^◌, length, false, OnOk};
ghost use Rattle.clog_store.specs.NoteSteps.{
  GoesOn,
  IsReady,
  Leaves,
  StaysHeld,
  StaysReady,
  StaysStanding,
};
ghost use Rattle.clog_segments.specs.Stepped.{HasLogCause, StopsBy};

use crate::note_sections::section_length;
use crate::note_steps::{enter, keep_notes};
use clog_disk::Disk;
use clog_segments::{Payloads, SectionLog, StoreFault};
use path_core::EntryNote;
use std::alloc::Global;
use std::snapshot::Snapshot;

// Writes the first section of the notes that are to come.
fn write_next<D: Disk>(
    alloc: Global,
    log: &mut SectionLog<D>,
    base: u64,
    notes: &[EntryNote],
    seen: &Snapshot<Vec<EntryNote>>,
    written: &mut usize,
) -> Result<(), StoreFault>
    requires fits { base < 2 ^ 62 }
    requires runs { log.old.is_stopped ≡ false }
    requires seen { seen.now.value.items ≡ notes.now }
    requires ready { IsReady base log.old notes.now written.old }
    requires some { written.old < length notes.now }
    ensures held { StaysHeld base notes.now log.old written.old log.new written.new }
    ensures stands { StaysStanding base notes.now log.old written.old log.new written.new }
    ensures few { written.new ≤ length notes.now }
    ensures ready { OnOk result (StaysReady base notes.now log.old written.old log.new
        written.new) }
    ensures more { OnOk result (written.old < written.new) }
    ensures runs { OnOk result (log.new.is_stopped ≡ false) }
    ensures goes { GoesOn D.files D.moment D.since D.leaves D.read_at D.lasted_at log.old log.new }
    ensures leaves { Leaves D.files D.changes log.old log.new }
    ensures cause { HasLogCause log.old.is_stopped (D.faults log.old.disk) (D.faults log.new.disk)
        result }
    ensures stops { StopsBy log.new.is_stopped result }
{
    let rest = &notes[*written..];
    let count = section_length(rest);
    let first = &rest[..count];
    enter(alloc, log, rest[0].start.position(base).id)?;
    let payloads = Payloads::of(seen, *written, count);
    keep_notes(alloc, log, base, first, payloads)?;
    *written += count;
    Ok(())
}

// Writes all the notes that are to come.
fn write_rest<D: Disk>(
    alloc: Global,
    log: &mut SectionLog<D>,
    base: u64,
    notes: &[EntryNote],
    seen: &Snapshot<Vec<EntryNote>>,
    written: &mut usize,
) -> Result<(), StoreFault>
    requires fits { base < 2 ^ 62 }
    requires runs { log.old.is_stopped ≡ false }
    requires seen { seen.now.value.items ≡ notes.now }
    requires ready { IsReady base log.old notes.now written.old }
    ensures held { StaysHeld base notes.now log.old written.old log.new written.new }
    ensures stands { StaysStanding base notes.now log.old written.old log.new written.new }
    ensures few { written.new ≤ length notes.now }
    ensures ready { OnOk result (StaysReady base notes.now log.old written.old log.new
        written.new) }
    ensures all { OnOk result (written.new ≡ length notes.now) }
    ensures still { written.old ≡ length notes.now → log.new.id ≡ log.old.id }
    ensures runs { OnOk result (log.new.is_stopped ≡ false) }
    ensures goes { GoesOn D.files D.moment D.since D.leaves D.read_at D.lasted_at log.old log.new }
    ensures leaves { Leaves D.files D.changes log.old log.new }
    ensures cause { HasLogCause log.old.is_stopped (D.faults log.old.disk) (D.faults log.new.disk)
        result }
    ensures stops { StopsBy log.new.is_stopped result }
{
    while *written < notes.len() {
        match write_next(alloc, log, base, notes, seen, written) {
            Ok(()) => {}
            Err(fault) => return Err(fault),
        }
    }
    Ok(())
}

/// Writes all the notes that are to come, and makes them last.
pub(crate) fn write_all<D: Disk>(
    alloc: Global,
    log: &mut SectionLog<D>,
    base: u64,
    notes: &[EntryNote],
    seen: &Snapshot<Vec<EntryNote>>,
    written: &mut usize,
) -> Result<(), StoreFault>
    requires fits { base < 2 ^ 62 }
    requires runs { log.old.is_stopped ≡ false }
    requires seen { seen.now.value.items ≡ notes.now }
    requires ready { IsReady base log.old notes.now written.old }
    ensures held { StaysHeld base notes.now log.old written.old log.new written.new }
    ensures stands { StaysStanding base notes.now log.old written.old log.new written.new }
    ensures few { written.new ≤ length notes.now }
    ensures ready { OnOk result (StaysReady base notes.now log.old written.old log.new
        written.new) }
    ensures all { OnOk result (written.new ≡ length notes.now) }
    ensures lasts { OnOk result (log.new.synced ≡ length log.new.sections) }
    ensures still { written.old ≡ length notes.now → log.new.id ≡ log.old.id }
    ensures goes { GoesOn D.files D.moment D.since D.leaves D.read_at D.lasted_at log.old log.new }
    ensures leaves { Leaves D.files D.changes log.old log.new }
    ensures cause { HasLogCause log.old.is_stopped (D.faults log.old.disk) (D.faults log.new.disk)
        result }
    ensures stops { StopsBy log.new.is_stopped result }
{
    match write_rest(alloc, log, base, notes, seen, written) {
        Ok(()) => log.settle(),
        Err(fault) => Err(fault),
    }
}
