//! What runs make of what a crash might have left: of each moment of the last run over a folder in
//! memory a sample of its images is recovered by a run that takes nothing. What that leaves is told
//! by another, so the recovery itself is read back; each answer is told once, or how many cells
//! each moment's answers have at least.
use crate::outcome::put_printed;
use crate::play::{clock_of, words_of};
use anyhow::Result;
use clog_disk::{Disk, MemDisk};
use clog_engine::run;
use clog_io::{MemSink, MemSource, OpenGate};
use std::alloc::Global;
use std::io::Write;
use std::sync::Wait;
use std::thread::Threads;

// A run with no lines over a folder: its status, what it printed, and what it left.
fn run_over<T: Threads + Wait + Sync>(
    rt: &T,
    alloc: Global,
    disk: MemDisk,
    words: &str,
) -> Result<(u8, MemSink, MemDisk)> {
    let mut source = MemSource::new(Vec::new(alloc), 65536, Vec::new(alloc));
    let mut sink = MemSink::new(alloc, Vec::new(alloc));
    let clock = clock_of(alloc, &[1000])?;
    let words = words_of(alloc, words)?;
    let gate = OpenGate::new();
    let (status, left) = run(
        rt,
        alloc,
        &words,
        &mut source,
        &mut sink,
        disk,
        &clock,
        &gate,
    );
    Ok((status.number(), sink, left))
}

// What becomes of an image: it is recovered, and then told by a run with a dump.
fn opened<T: Threads + Wait + Sync>(rt: &T, alloc: Global, image: MemDisk) -> Result<Vec<u8>> {
    let (recovered, _, left) = run_over(rt, alloc, image, "apply")?;
    let (status, sink, _) = run_over(rt, alloc, left, "apply --dump")?;
    let mut out = Vec::new(alloc);
    writeln!(out, "image status {}", recovered.max(status))?;
    put_printed(&mut out, sink.as_slice())?;
    Ok(out)
}

// Whether a text is among these.
fn is_among(told: &[Vec<u8>], text: &[u8]) -> bool {
    for other in told {
        if other.as_slice() == text {
            return true;
        }
    }
    false
}

// Puts what comes of these images, where it was not told before.
fn put_opened<T: Threads + Wait + Sync>(
    rt: &T,
    alloc: Global,
    images: Vec<MemDisk>,
    told: &mut Vec<Vec<u8>>,
    out: &mut Vec<u8>,
) -> Result<()> {
    for image in images {
        let text = opened(rt, alloc, image)?;
        if !is_among(told.as_slice(), &text) {
            out.extend_from_slice(&text)?;
            told.push(text)?;
        }
    }
    Ok(())
}

/// Puts what comes of the images of a folder's moments from one on, each answer once, in the order
/// in which they come first.
pub fn put_images<T: Threads + Wait + Sync>(
    rt: &T,
    alloc: Global,
    out: &mut Vec<u8>,
    disk: &MemDisk,
    first: u64,
) -> Result<()> {
    let mut told = Vec::new(alloc);
    for moment in first..disk.moment_count().saturating_add(1) {
        put_opened(rt, alloc, disk.images(moment)?, &mut told, out)?;
    }
    Ok(())
}

// How many lines a text has behind its first two, which tell of the image and of the run.
fn cell_count(text: &[u8]) -> usize {
    text.iter()
        .filter(|byte| **byte == b'\n')
        .count()
        .saturating_sub(2)
}

// How many cells come at least of these images.
fn least_cells<T: Threads + Wait + Sync>(
    rt: &T,
    alloc: Global,
    images: Vec<MemDisk>,
) -> Result<usize> {
    let mut least = usize::MAX;
    for image in images {
        least = least.min(cell_count(&opened(rt, alloc, image)?));
    }
    Ok(least)
}

/// Puts how many cells come at least of the images of each moment from one on, in order, each
/// number once where moments behind one another have the same: what lasts at a moment lasts at
/// later ones, so they rise.
pub fn put_least<T: Threads + Wait + Sync>(
    rt: &T,
    alloc: Global,
    out: &mut Vec<u8>,
    disk: &MemDisk,
    first: u64,
) -> Result<()> {
    let mut before = None;
    out.extend_from_slice(b"least")?;
    for moment in first..disk.moment_count().saturating_add(1) {
        let least = least_cells(rt, alloc, disk.images(moment)?)?;
        if before != Some(least) {
            write!(out, " {least}")?;
        }
        before = Some(least);
    }
    out.push(b'\n')?;
    Ok(())
}
