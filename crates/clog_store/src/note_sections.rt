//! Notes of entries as sections: how many of them stand end to end, and their bytes.
ghost use Rattle.std.specs.Prelude.{◌≡◌, ◌++◌, ◌+◌, ◌<◌, ◌≤◌, ◌^◌, IfOk, OnOk, length};
ghost use Rattle.clog_spec.specs.Sizes.{greatest_capacity};
ghost use Rattle.clog_crash.specs.Sections.{next_bytes};
ghost use Rattle.clog_segments.specs.NoteSections.{
  AreOneSection,
  bytes_in,
  payloads_in,
  size_before,
};

use crate::next::front_of;
use clog_base::{FRONT_SIZE, MARKER_SIZE};
use clog_segments::{Payloads, Written};
use path_core::EntryNote;
use std::alloc::{AllocError, Global};

// How many of the notes, from the first on, stand end to end.
pub(crate) fn section_length(notes: &[EntryNote]) -> usize
    requires some { 0 < length notes.now }
    ensures { AreOneSection notes.now result }
{
    let mut count = 1;
    while count < notes.len() && notes[count].start.0 == notes[count - 1].end.0 {
        count += 1;
    }
    count
}

// How many bytes their entries have.
fn length_of(notes: &[EntryNote]) -> u32
    requires room { length (bytes_in notes.now) < 2 ^ 31 }
    ensures { result ≡ length (bytes_in notes.now) }
{
    let mut long = 0;
    for note in notes {
        long += note.bytes.len() as u32;
    }
    long
}

fn push_entries(bytes: &mut Vec<u8>, notes: &[EntryNote]) -> Result<(), AllocError>
    ensures { OnOk result (bytes.new.items ≡ bytes.old.items ++ bytes_in notes.now) }
{
    for note in notes {
        bytes.extend_from_slice(note.bytes.as_slice())?;
    }
    Ok(())
}

// ---- the next section

// The length of the segment's file in front of the section.
fn size_of(at: u32) -> u32
    ensures { result ≡ size_before at }
{
    if at == FRONT_SIZE as u32 {
        0
    } else {
        at.saturating_sub(MARKER_SIZE as u32)
    }
}

// The section whose first entry stands at an offset, and the bytes that bring it.
pub(crate) fn section_of(
    alloc: Global,
    id: u64,
    at: u32,
    notes: &[EntryNote],
    payloads: Payloads,
) -> Result<(Written, Vec<u8>), AllocError>
    requires payloads { payloads ≡ payloads_in notes.now }
    requires room { at + length (bytes_in notes.now) ≤ greatest_capacity }
    ensures { IfOk result (λ made.
        (made.0 ≡ record {
          until = at + length (bytes_in notes.now);
          payloads = payloads_in notes.now;
        })
        × (made.1.items ≡ next_bytes id (size_before at) (bytes_in notes.now))) }
{
    let long = length_of(notes);
    let mut bytes = front_of(alloc, id, size_of(at), long)?;
    push_entries(&mut bytes, notes)?;
    let section = Written {
        until: u64::from(at) + u64::from(long),
        payloads,
    };
    Ok((section, bytes))
}
