//! Reading headers, markers and entries where they lie in the bytes of a whole segment. The rules
//! on what is found there are those of `judging`.
ghost use Rattle.std.specs.Prelude.{◌≡◌, ◌≤◌, ◌<◌, ◌^◌, ◌⊎◌, ℕ, List, length};
ghost use Rattle.clog_entry.specs.Reading.{header_read, marker_read, entry_read};
ghost use Rattle.clog_entry.specs.Soft.{IsSoft, IsOfHeader, PassesAsHeader};
ghost use Rattle.clog_entry.specs.Spelled.{IsHeaderAt, IsMarkerAt, IsEntryAt, payload_at};

use crate::cause::Cause;
use crate::check::ENTRY_FRONT_SIZE;
use crate::judging::{judge_body, judge_header, judge_marker, judge_size};
use crate::marker::Marker;
use byteorder::{BigEndian, ByteOrder};
use clog_base::MARKER_SIZE;

// Where the fields of a header stand: behind the version the id, the length of the parameters, and
// these.
const HEADER_ID_AT: usize = 4;

const PARAMETERS_SIZE_AT: usize = 12;

const PARAMETERS_AT: usize = 14;

// A header without its parameters.
const BARE_HEADER_SIZE: usize = 18;

/// Reads the header of the segment of an id, at the front of the segment's bytes. Where it is of
/// another version, id or parameters, its check is right.
pub fn read_header(bytes: &[u8], id: u64) -> Result<(), Cause>
    ensures rule { result ≡ header_read bytes.now id }
    ensures written { result ≡ Ok tt → IsHeaderAt bytes.now id }
    ensures again { IsHeaderAt bytes.now id → result ≡ Ok tt }
    ensures passed { (cause : Cause) → PassesAsHeader bytes.now → result ≡ Err cause
        → IsOfHeader cause }
    ensures refused { (cause : Cause) → result ≡ Err cause
        → IsSoft cause ⊎ (IsOfHeader cause × PassesAsHeader bytes.now) }
{
    header_of(bytes, id)
}

/// Reads the marker at an offset in the bytes of the segment of an id. That the bytes end before
/// the marker does, or that it is zero, is the segment's end.
pub fn read_marker(bytes: &[u8], id: u64, at: u32) -> Result<Marker, Cause>
    ensures rule { result ≡ marker_read bytes.now id at }
    ensures written { (end : ℕ) → result ≡ Ok (Marker.Section end)
        → IsMarkerAt bytes.now id at end }
    ensures again { (end : ℕ) → end < 2 ^ 32 → IsMarkerAt bytes.now id at end
        → result ≡ Ok (Marker.Section end) }
    ensures soft { (cause : Cause) → result ≡ Err cause → IsSoft cause }
{
    marker_of(bytes, id, at)
}

/// Reads the entry at an offset in a section that ends at `end`, exclusive: the size of its payload
/// in bytes. The payload lies `ENTRY_FRONT_SIZE` behind the offset, and 4 bytes stand behind it.
pub fn read_entry(bytes: &[u8], at: u32, end: u32) -> Result<u32, Cause>
    requires inside { at < end }
    requires within { end ≤ length bytes.now }
    ensures rule { result ≡ entry_read bytes.now at end }
    ensures written { (size : ℕ) → result ≡ Ok size
        → IsEntryAt bytes.now at end (payload_at bytes.now at size) }
    ensures again { (payload : List ℕ) → length payload < 2 ^ 32
        → IsEntryAt bytes.now at end payload → result ≡ Ok (length payload) }
    ensures soft { (cause : Cause) → result ≡ Err cause → IsSoft cause }
{
    entry_of(bytes, at, end)
}

#[tactic(auto, unfolding(crate::specs::Reading::header_read))]
fn header_of(bytes: &[u8], id: u64) -> Result<(), Cause>
    ensures { result ≡ header_read bytes.now id }
{
    if bytes.len() < PARAMETERS_AT {
        return Err(Cause::Short);
    }
    let size = usize::from(BigEndian::read_u16(&bytes[PARAMETERS_SIZE_AT..]));
    if bytes.len() < BARE_HEADER_SIZE + size {
        return Err(Cause::Short);
    }
    let version = BigEndian::read_u32(bytes);
    let found = BigEndian::read_u64(&bytes[HEADER_ID_AT..]);
    let check = BigEndian::read_u32(&bytes[PARAMETERS_AT + size..]);
    judge_header(
        version,
        found,
        &bytes[PARAMETERS_AT..PARAMETERS_AT + size],
        check,
        id,
    )
}

#[tactic(auto, unfolding(crate::specs::Reading::marker_read))]
fn marker_of(bytes: &[u8], id: u64, at: u32) -> Result<Marker, Cause>
    ensures { result ≡ marker_read bytes.now id at }
{
    let start = at as usize;
    if bytes.len() < start + MARKER_SIZE {
        return Ok(Marker::End);
    }
    let target = BigEndian::read_u32(&bytes[start..]);
    let check = BigEndian::read_u32(&bytes[start + 4..]);
    judge_marker(bytes.len() as u64, id, at, target, check)
}

#[tactic(auto, unfolding(crate::specs::Reading::entry_read))]
fn entry_of(bytes: &[u8], at: u32, end: u32) -> Result<u32, Cause>
    requires inside { at < end }
    requires within { end ≤ length bytes.now }
    ensures { result ≡ entry_read bytes.now at end }
{
    if ((end - at) as usize) < ENTRY_FRONT_SIZE {
        return Err(Cause::Short);
    }
    let start = at as usize;
    let size = BigEndian::read_u32(&bytes[start..]);
    judge_size(end - at, size, BigEndian::read_u32(&bytes[start + 4..]))?;
    let from = start + ENTRY_FRONT_SIZE;
    let behind = from + size as usize;
    let payload = &bytes[from..behind];
    judge_body(size, BigEndian::read_u32(&bytes[behind..]), payload)?;
    Ok(size)
}
