//! Two commits of one writer over a store in memory: each byte that they leave, and what the checks
//! say of sections that are wrong.
use crate::plan::Plan;
use crate::rereading::entries_in;
use crate::sections::{Entry, Section, check_sections, sections_in};
use crate::segments::segments_on;
use crate::stores::{check_run, run_recorded};
use anyhow::{Result, bail};
use clog_base::{HEADER_SIZE, MARKER_SIZE};
use clog_disk::MemDisk;
use std::alloc::Global;
use std::io::Print;
use std::sync::Wait;
use std::thread::Threads;
use std::time::Clock;
use write_path::Receipt;

// Prints a part of a segment in hexadecimal digits.
fn print_part<R: Print>(rt: &R, name: &str, bytes: &[u8], start: u32, end: u32) -> Result<()> {
    print!(rt; "  {name} {start}..{end} ")?;
    for byte in bytes.iter().take(end as usize).skip(start as usize) {
        print!(rt; "{byte:02x}")?;
    }
    println!(rt; "")?;
    Ok(())
}

// Prints the header of a segment, its markers and its entries.
fn print_parts<R: Print>(
    rt: &R,
    bytes: &[u8],
    sections: &[Section],
    entries: &[Entry],
) -> Result<()> {
    print_part(rt, "header", bytes, 0, HEADER_SIZE as u32)?;
    for section in sections {
        let behind = section.marker.saturating_add(MARKER_SIZE as u32);
        print_part(rt, "marker", bytes, section.marker, behind)?;
    }
    for entry in entries {
        print_part(rt, "entry", bytes, entry.start, entry.end)?;
    }
    Ok(())
}

// Prints why wrong sections of entries of one writer are refused.
fn print_refusal<R: Print>(
    rt: &R,
    sections: &[Section],
    entries: &[Entry],
    is_batch: bool,
) -> Result<()> {
    match check_sections(sections, entries, 1, is_batch) {
        Ok(()) => bail!("wrong sections are not refused"),
        Err(error) => println!(rt; "  refused: {error}")?,
    }
    Ok(())
}

// Prints why these sections are refused where a section should begin earlier or end later, there
// should be none, or the mode were batch mode.
fn print_refusals<R: Print>(rt: &R, section: Section, entries: &[Entry]) -> Result<()> {
    let mut early = section;
    early.marker = early.marker.saturating_sub(1);
    print_refusal(rt, &[early], entries, false)?;
    let mut long = section;
    long.target = long.target.saturating_add(1);
    print_refusal(rt, &[long], entries, false)?;
    print_refusal(rt, &[], entries, false)?;
    print_refusal(rt, &[section], entries, true)
}

// Prints what the writer left on a disk.
fn print_disk<R: Print>(
    rt: &R,
    alloc: Global,
    disk: &mut MemDisk,
    receipts: &mut Vec<Receipt>,
    plan: Plan,
) -> Result<()> {
    let segments = segments_on(alloc, disk)?;
    let entries = entries_in(alloc, segments.as_slice(), receipts)?;
    let sections = sections_in(alloc, segments.as_slice())?;
    for read in segments.as_slice() {
        let bytes = read.bytes.as_slice();
        println!(rt; "segment {} has {} bytes", read.id, bytes.len())?;
        print_parts(rt, bytes, sections.as_slice(), entries.as_slice())?;
    }
    match sections.first() {
        Some(section) if !plan.is_batch() => print_refusals(rt, *section, entries.as_slice()),
        _ => Ok(()),
    }
}

/// One writer commits by a plan over a disk in memory. Prints what that leaves.
pub fn print_commits<R: Threads + Wait + Clock + Print + Sync>(
    rt: &R,
    alloc: Global,
    plan: Plan,
) -> Result<()> {
    let disk = MemDisk::new(alloc);
    let (mut ran, mut lent, store) = run_recorded(rt, alloc, disk, 1, plan)?;
    let (_entries, mut disk) = check_run(rt, alloc, &mut ran, &mut lent, store, 1, plan)?;
    print_disk(rt, alloc, &mut disk, &mut ran.receipts, plan)
}
