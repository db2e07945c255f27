//! The scan: a cursor goes over the bytes once. It keeps that everything in front of it is a header
//! and markers and entries in their places.
ghost use Rattle.std.specs.Prelude.{◌<◌, ◌^◌, length, IfOk};
ghost use Rattle.clog_entry.specs.Spelled.{IsHeaderAt};
ghost use Rattle.clog_scan.specs.Laws.{HasRanges};
ghost use Rattle.clog_scan.specs.Segment.{Scans};

use crate::answer::{End, Found, Founds, Scan};
use crate::step::{Step, next_step};
use clog_base::{FRAME_SIZE, HEADER_SIZE, MARKER_SIZE, OutOfMemory};
use clog_entry::read_header;
use std::alloc::Global;

/// What the bytes of the segment of an id hold. No bytes are refused.
pub fn scan(alloc: Global, bytes: &[u8], id: u64) -> Result<Scan, OutOfMemory>
    requires { length bytes.now < 2 ^ 31 }
    ensures held { IfOk result (Scans bytes.now id) }
    ensures ranges { IfOk result (HasRanges (length bytes.now)) }
{
    scan_whole(alloc, bytes, id)
}

fn scan_whole(alloc: Global, bytes: &[u8], id: u64) -> Result<Scan, OutOfMemory>
    requires { length bytes.now < 2 ^ 31 }
    ensures { IfOk result (Scans bytes.now id) }
{
    match read_header(bytes, id) {
        Ok(()) => scan_sections(alloc, bytes, id),
        Err(cause) => Ok(Scan {
            entries: Founds::new(Vec::new(alloc)),
            end: End::Torn(0, cause),
        }),
    }
}

fn scan_sections(alloc: Global, bytes: &[u8], id: u64) -> Result<Scan, OutOfMemory>
    requires short { length bytes.now < 2 ^ 31 }
    requires header { IsHeaderAt bytes.now id }
    ensures { IfOk result (Scans bytes.now id) }
{
    let mut entries = Vec::new(alloc);
    let mut at = HEADER_SIZE as u32;
    let mut until = at;
    loop {
        match next_step(bytes, id, at, until) {
            Step::Section(next) => {
                at += MARKER_SIZE as u32;
                until = next;
            }
            Step::Entry(size) => {
                let end = at + size + FRAME_SIZE as u32;
                entries.push(Found { start: at, end })?;
                at = end;
            }
            Step::End(end) => {
                let entries = Founds::new(entries);
                return Ok(Scan { entries, end });
            }
        }
    }
}
