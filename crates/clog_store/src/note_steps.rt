//! The steps by which a log of notes writes: the log goes on in the segment of the next note, and
//! notes that stand end to end are its next section.
ghost use Rattle.std.specs.Prelude.{◌≡◌, ◌<◌, ◌≤◌, ◌^◌, length, false};
ghost use Rattle.clog_crash.specs.Sections.{next_section};
ghost use Rattle.clog_segments.specs.NoteSections.{MayBeNext, payloads_in};
ghost use Rattle.clog_store.specs.NoteSteps.{Enters, GoesOn, Leaves};
ghost use Rattle.clog_segments.specs.Stepped.{HasLogCause, Keeps, StopsBy};

use crate::note_sections::section_of;
use clog_disk::Disk;
use clog_segments::{Payloads, SectionLog, StoreFault};
use path_core::EntryNote;
use std::alloc::Global;

/// Puts the notes as the next section of the segment at hand.
pub(crate) fn keep_notes<D: Disk>(
    alloc: Global,
    log: &mut SectionLog<D>,
    base: u64,
    notes: &[EntryNote],
    payloads: Payloads,
) -> Result<(), StoreFault>
    requires fits { base < 2 ^ 62 }
    requires runs { log.old.is_stopped ≡ false }
    requires payloads { payloads ≡ payloads_in notes.now }
    requires next { MayBeNext base log.old notes.now }
    ensures few { log.old.synced ≤ length log.old.sections }
    ensures keeps { Keeps log.old log.new (next_section log.old.sections (payloads_in notes.now))
        result }
    ensures goes { GoesOn D.files D.moment D.since D.leaves D.read_at D.lasted_at log.old log.new }
    ensures leaves { Leaves D.files D.changes log.old log.new }
    ensures cause { HasLogCause log.old.is_stopped (D.faults log.old.disk) (D.faults log.new.disk)
        result }
    ensures stops { StopsBy log.new.is_stopped result }
{
    let at = notes[0].start.position(base).offset;
    match section_of(alloc, log.id(), at, notes, payloads) {
        Ok((section, bytes)) => log.keep(section, &bytes),
        Err(_) => Err(StoreFault::OutOfMemory),
    }
}

/// The log goes on in the segment of an id.
pub(crate) fn enter<D: Disk>(
    alloc: Global,
    log: &mut SectionLog<D>,
    id: u64,
) -> Result<(), StoreFault>
    requires runs { log.old.is_stopped ≡ false }
    requires fits { id < 2 ^ 63 }
    requires on { log.old.id ≤ id }
    ensures enters { Enters log.old log.new id result }
    ensures goes { GoesOn D.files D.moment D.since D.leaves D.read_at D.lasted_at log.old log.new }
    ensures leaves { Leaves D.files D.changes log.old log.new }
    ensures cause { HasLogCause log.old.is_stopped (D.faults log.old.disk) (D.faults log.new.disk)
        result }
    ensures stops { StopsBy log.new.is_stopped result }
{
    if log.id() == id {
        return Ok(());
    }
    log.settle()?;
    log.roll(alloc, id)
}
