//! The sections of a folder's segments, read from their headers on, and what stands in them.
use crate::plan::writer_of;
use crate::segments::SegmentRead;
use anyhow::{Result, bail};
use clog_base::{HEADER_SIZE, MARKER_SIZE};
use clog_entry::{Marker, read_header, read_marker};
use std::alloc::Global;

/// A section of a segment.
#[derive(Clone, Copy, Debug, PartialEq, Eq)]
pub struct Section {
    /// The segment's id.
    pub id: u64,
    /// Where its marker stands.
    pub marker: u32,
    /// Where it ends, exclusive: its marker's target.
    pub target: u32,
}

/// An entry that a receipt is of.
#[derive(Clone, Copy, Debug, PartialEq, Eq)]
pub struct Entry {
    /// The segment's id.
    pub id: u64,
    /// Where it begins.
    pub start: u32,
    /// Where it ends, exclusive: the offset of the receipt's position.
    pub end: u32,
    /// The receipt's line.
    pub line: u32,
}

// Adds the sections of a segment.
fn add_sections(sections: &mut Vec<Section>, id: u64, bytes: &[u8]) -> Result<()> {
    if read_header(bytes, id).is_err() {
        bail!("segment {id} has no header");
    }
    let mut marker = HEADER_SIZE as u32;
    // Each section has at least a byte.
    for _ in 0..bytes.len() {
        match read_marker(bytes, id, marker) {
            Ok(Marker::Section(target)) => {
                sections.push(Section { id, marker, target })?;
                marker = target;
            }
            Ok(Marker::End) => return Ok(()),
            Err(_) => bail!("segment {id}: no marker stands at {marker}"),
        }
    }
    bail!("segment {id} does not end")
}

/// The sections of segments, in order.
pub fn sections_in(alloc: Global, segments: &[SegmentRead]) -> Result<Vec<Section>> {
    let mut sections = Vec::new(alloc);
    for read in segments {
        add_sections(&mut sections, read.id, read.bytes.as_slice())?;
    }
    Ok(sections)
}

// How many of the entries, from the first on, lie in a section.
fn count_in(section: &Section, entries: &[Entry]) -> usize {
    let mut count = 0usize;
    for entry in entries {
        if entry.id != section.id || entry.end > section.target {
            break;
        }
        count = count.saturating_add(1);
    }
    count
}

// A section's entries stand behind its marker, one behind another, and the last one ends it.
fn check_entries(section: &Section, entries: &[Entry]) -> Result<()> {
    let mut end = section.marker.saturating_add(MARKER_SIZE as u32);
    for entry in entries {
        if entry.start != end {
            bail!(
                "segment {}: line {} does not begin at {end}",
                section.id,
                entry.line
            );
        }
        end = entry.end;
    }
    if entries.is_empty() || end != section.target {
        bail!(
            "segment {}: no entry ends at {}",
            section.id,
            section.target
        );
    }
    Ok(())
}

// No two entries of a section are of one of these writers, of whom there are at most 64.
fn check_writers(section: &Section, entries: &[Entry], writers: u8) -> Result<()> {
    let mut seen = 0u64;
    for entry in entries {
        let writer = writer_of(entry.line, writers);
        let bit = 1u64 << (writer % 64);
        if seen & bit != 0 {
            bail!(
                "segment {}: the section at {} has two entries of writer {writer}",
                section.id,
                section.marker
            );
        }
        seen |= bit;
    }
    Ok(())
}

// Checks a section's entries, in batch mode also who wrote them.
fn check_section(section: &Section, entries: &[Entry], writers: u8, is_batch: bool) -> Result<()> {
    check_entries(section, entries)?;
    if is_batch {
        check_writers(section, entries, writers)?;
    }
    Ok(())
}

/// Checks that each section begins behind its marker and ends with an entry, without a gap between,
/// and that each entry lies in one; in batch mode that none has two entries of a writer. Sections
/// and entries are in order.
pub fn check_sections(
    sections: &[Section],
    entries: &[Entry],
    writers: u8,
    is_batch: bool,
) -> Result<()> {
    let mut rest = entries;
    for section in sections {
        let count = count_in(section, rest).min(rest.len());
        let (here, behind) = rest.split_at(count);
        check_section(section, here, writers, is_batch)?;
        rest = behind;
    }
    match rest.first() {
        Some(entry) => bail!("line {} stands in no section", entry.line),
        None => Ok(()),
    }
}
