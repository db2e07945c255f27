//! What comes next in a segment of which only the bytes that were fed are there. What can be told
//! without further bytes is told.
ghost use Rattle.std.specs.Prelude.{◌≡◌, ◌<◌, ◌≤◌, ◌+◌, ◌-◌, ◌^◌, ℕ, List, length, IfSome, IfNone};
ghost use Rattle.std.specs.Prelude.{Some, Ok};
ghost use Rattle.clog_spec.specs.Sizes.{header_size, marker_size, frame_size};
ghost use Rattle.clog_entry.specs.Reading.{header_read, marker_read, entry_read};
ghost use Rattle.clog_entry.specs.Spelled.{IsHeaderAt, IsEntryAt};
ghost use Rattle.clog_scan.specs.Ahead.{HeaderIs, MarkerIs, EntryIs};
ghost use Rattle.clog_scan.specs.Pieces.{NextIs};

use crate::answer::End;
use byteorder::{BigEndian, ByteOrder};
use clog_base::{FRAME_SIZE, MARKER_SIZE};
use clog_entry::{
    Cause, ENTRY_FRONT_SIZE, Marker, judge_body, judge_marker, judge_size, read_header,
};

// A header up to its parameters, and one without them.
const FIELDS_SIZE: usize = 14;

const PARAMETERS_SIZE_AT: usize = 12;

const BARE_HEADER_SIZE: usize = 18;

/// What comes next.
pub enum Next {
    /// A marker, whose section ends at this offset.
    Section(u32),
    /// An entry, whose payload has this size.
    Entry(u32),
    /// Neither: the segment ends.
    End(End),
    /// More bytes are wanted.
    Wait,
}

/// The header of a file of `len` bytes that begins with these. None where more are wanted.
pub(crate) fn next_header(len: u32, id: u64, window: &[u8]) -> Option<Result<(), Cause>>
    ensures { HeaderIs len id window.now result }
{
    if (len as usize) < FIELDS_SIZE {
        return Some(Err(Cause::Short));
    }
    if window.len() < FIELDS_SIZE {
        return None;
    }
    let size = usize::from(BigEndian::read_u16(&window[PARAMETERS_SIZE_AT..]));
    if (len as usize) < BARE_HEADER_SIZE + size {
        return Some(Err(Cause::Short));
    }
    if window.len() < BARE_HEADER_SIZE + size {
        return None;
    }
    Some(read_header(window, id))
}

/// The marker at an offset of a file of `len` bytes. None where more are wanted.
fn next_marker(len: u32, id: u64, window: &[u8], at: u32) -> Option<Result<Marker, Cause>>
    ensures { MarkerIs len id window.now at result }
{
    if u64::from(len) < u64::from(at) + MARKER_SIZE as u64 {
        return Some(Ok(Marker::End));
    }
    if window.len() < MARKER_SIZE {
        return None;
    }
    let target = BigEndian::read_u32(window);
    let check = BigEndian::read_u32(&window[4..]);
    Some(judge_marker(u64::from(len), id, at, target, check))
}

/// The entry that begins here, where `room` bytes are left in its section: the size of its payload.
/// None where more bytes are wanted.
fn next_entry(window: &[u8], room: u32) -> Option<Result<u32, Cause>>
    requires { room < 2 ^ 31 }
    ensures { EntryIs window.now room result }
{
    if (room as usize) < ENTRY_FRONT_SIZE {
        return Some(Err(Cause::Short));
    }
    if window.len() < ENTRY_FRONT_SIZE {
        return None;
    }
    let size = BigEndian::read_u32(window);
    let check = BigEndian::read_u32(&window[4..]);
    if let Err(cause) = judge_size(room, size, check) {
        return Some(Err(cause));
    }
    let behind = ENTRY_FRONT_SIZE + size as usize;
    if window.len() < behind + 4 {
        return None;
    }
    let last = BigEndian::read_u32(&window[behind..]);
    match judge_body(size, last, &window[ENTRY_FRONT_SIZE..behind]) {
        Ok(()) => Some(Ok(size)),
        Err(cause) => Some(Err(cause)),
    }
}

/// What comes next at an offset, in a section that ends at `until`.
pub(crate) fn next_of(len: u32, id: u64, window: &[u8], at: u32, until: u32) -> Next
    requires short { len < 2 ^ 31 }
    requires order { at ≤ until }
    requires within { until ≤ len }
    ensures { NextIs len id window.now at until result }
{
    if at < until {
        return match next_entry(window, until - at) {
            Some(Ok(size)) => Next::Entry(size),
            Some(Err(cause)) => Next::End(End::Torn(at, cause)),
            None => Next::Wait,
        };
    }
    match next_marker(len, id, window, at) {
        Some(Ok(Marker::Section(next))) => Next::Section(next),
        Some(Ok(Marker::End)) => Next::End(End::Clean(at)),
        Some(Err(cause)) => Next::End(End::Torn(at, cause)),
        None => Next::Wait,
    }
}
