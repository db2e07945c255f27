//! The disk of a store is read again: it has as many entries as were made lasting, they end where
//! the commits were answered, and its sections are of these.
use crate::plan::Plan;
use crate::sections::{Entry, check_sections, sections_in};
use crate::segments::{SegmentRead, segments_on};
use anyhow::{Result, bail};
use clog_base::Position;
use clog_disk::Disk;
use clog_io::OpenGate;
use clog_scan::Found;
use replay_merge::replay;
use std::alloc::Global;
use std::sync::Wait;
use std::thread::Threads;
use write_path::Receipt;

// Adds an entry for each that was found in a segment, by the receipts of which it takes the next.
fn add_entries(entries: &mut Vec<Entry>, read: &SegmentRead, receipts: &[Receipt]) -> Result<()> {
    for found in read.entries.as_slice() {
        let Some(receipt) = receipts.get(entries.len()) else {
            bail!("more entries than receipts");
        };
        entries.push(entry_of(read.id, *found, receipt)?)?;
    }
    Ok(())
}

// The entry that was found in the segment of an id, where the receipt is of it.
fn entry_of(id: u64, found: Found, receipt: &Receipt) -> Result<Entry> {
    let end = Position {
        id,
        offset: found.end,
    };
    if receipt.position != end {
        bail!("line {} does not stand on the disk", receipt.line);
    }
    Ok(Entry {
        id,
        start: found.start,
        end: found.end,
        line: receipt.line,
    })
}

/// The entries of segments, in order, each with its receipt, whose position is its end. There are
/// as many receipts, which are in the order of their positions then.
pub fn entries_in(
    alloc: Global,
    segments: &[SegmentRead],
    receipts: &mut Vec<Receipt>,
) -> Result<Vec<Entry>> {
    receipts.sort_unstable_by_key(|receipt| receipt.position);
    let mut entries = Vec::new(alloc);
    for read in segments {
        add_entries(&mut entries, read, receipts.as_slice())?;
    }
    if entries.len() != receipts.len() {
        bail!("{} entries of {} receipts", entries.len(), receipts.len());
    }
    Ok(entries)
}

// How many entries a disk is replayed with.
fn replayed_on<R: Threads + Wait + Sync, D: Disk>(
    rt: &R,
    alloc: Global,
    disk: &mut D,
) -> Result<u64> {
    match replay(rt, alloc, disk, 1, false, &OpenGate::new()) {
        Ok(restored) => Ok(restored.counts.entries),
        Err(_) => bail!("the disk is not replayed"),
    }
}

/// Reads a disk again: it is replayed with one entry for each receipt, each receipt's position is
/// the end of one, and they stand in sections without a gap. Answers how many there are; the
/// receipts are in the order of their positions then.
pub fn read_again<R: Threads + Wait + Sync, D: Disk>(
    rt: &R,
    alloc: Global,
    disk: &mut D,
    receipts: &mut Vec<Receipt>,
    writers: u8,
    plan: Plan,
) -> Result<u64> {
    let replayed = replayed_on(rt, alloc, disk)?;
    let segments = segments_on(alloc, disk)?;
    let entries = entries_in(alloc, segments.as_slice(), receipts)?;
    let sections = sections_in(alloc, segments.as_slice())?;
    let is_batch = plan.is_batch();
    check_sections(sections.as_slice(), entries.as_slice(), writers, is_batch)?;
    if replayed != entries.len() as u64 {
        bail!("{replayed} entries are replayed of {}", entries.len());
    }
    Ok(replayed)
}
