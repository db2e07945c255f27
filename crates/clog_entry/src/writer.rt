//! Writing headers, markers and entries. What is written here has one spelling.
ghost use Rattle.std.specs.Prelude.{◌≡◌, ◌≤◌, ◌+◌, ◌^◌, ◌++◌, ℕ, List, length, drop};
ghost use Rattle.std.specs.Prelude.{OnOk, OnErr, IsOk, IfOk, vec_len, vec_capacity};
ghost use Rattle.clog_spec.specs.Crc.{crc32_of};
ghost use Rattle.clog_spec.specs.Segment.{header_bytes, marker_bytes, entry_bytes};
ghost use Rattle.clog_spec.specs.Segment.{entry_front, size_bytes};
ghost use Rattle.clog_spec.specs.Sizes.{frame_size, least_payload};
ghost use Rattle.clog_entry.specs.Fields.{entry_front_size};

use crate::check::{ENTRY_FRONT_SIZE, body_check, header_check, marker_check, number_check};
use clog_base::{FRAME_SIZE, HEADER_SIZE, MARKER_SIZE, OutOfMemory, put};
use std::alloc::{AllocError, Global};

/// The header of the segment of an id.
pub fn write_header(id: u64) -> [u8; HEADER_SIZE]
    ensures { result ≡ header_bytes id }
{
    let mut row = [0; HEADER_SIZE];
    let at = put(&mut row, 0, &6u32.to_be_bytes());
    let at = put(&mut row, at, &id.to_be_bytes());
    let at = put(&mut row, at, &2u16.to_be_bytes());
    let at = put(&mut row, at, b"{}");
    put(&mut row, at, &header_check(6, id, b"{}").to_be_bytes());
    row
}

/// The marker at a place in the segment of an id. `end` is where its section ends, exclusive.
pub fn write_marker(id: u64, at: u32, end: u32) -> [u8; MARKER_SIZE]
    ensures { result ≡ marker_bytes id at end }
{
    let mut row = [0; MARKER_SIZE];
    let filled = put(&mut row, 0, &end.to_be_bytes());
    put(&mut row, filled, &marker_check(id, at).to_be_bytes());
    row
}

/// The entry of a payload, `FRAME_SIZE` longer than it.
pub fn write_entry(alloc: Global, payload: &[u8]) -> Result<Vec<u8>, OutOfMemory>
    requires least { least_payload ≤ length payload.now }
    requires most { length payload.now ≤ 2 ^ 30 }
    ensures { IfOk result (λ v. v.items ≡ entry_bytes payload.now) }
{
    let mut out = Vec::new(alloc);
    put_entry(&mut out, payload)?;
    Ok(out)
}

/// Puts the entry of a payload behind what is there. Both checks take one pass over the payload.
pub fn put_entry(out: &mut Vec<u8>, payload: &[u8]) -> Result<(), OutOfMemory>
    requires least { least_payload ≤ length payload.now }
    requires most { length payload.now ≤ 2 ^ 30 }
    ensures ok { OnOk result (out.new.items ≡ out.old.items ++ entry_bytes payload.now) }
    ensures err { OnErr result (out.new.items ≡ out.old.items) }
{
    out.reserve(payload.len() + FRAME_SIZE)?;
    Ok(put_pieces(out, payload)?)
}

fn put_pieces(out: &mut Vec<u8>, payload: &[u8]) -> Result<(), AllocError>
    requires most { length payload.now ≤ 2 ^ 30 }
    requires room { vec_len out.old + length payload.now + frame_size ≤ vec_capacity out.old }
    ensures ok { IsOk result }
    ensures items { out.new.items ≡ out.old.items ++ entry_bytes payload.now }
{
    let size = payload.len() as u32;
    let first = number_check(size);
    out.extend_from_slice(&size.to_be_bytes())?;
    out.extend_from_slice(&first.to_be_bytes())?;
    out.extend_from_slice(payload)?;
    out.extend_from_slice(&body_check(first, size, payload).to_be_bytes())
}

/// Begins the entry of a payload of `size` bytes, which the caller puts behind it, and then calls
/// `end_entry`. Is not refused where there is room for `ENTRY_FRONT_SIZE`.
pub fn begin_entry(out: &mut Vec<u8>, size: u32) -> Result<(), OutOfMemory>
    ensures ok { OnOk result (out.new.items ≡ out.old.items ++ entry_front size) }
    ensures err { OnErr result (out.new.items ≡ out.old.items) }
    ensures room { vec_len out.old + entry_front_size ≤ vec_capacity out.old → IsOk result }
{
    let mut row = [0; ENTRY_FRONT_SIZE];
    let at = put(&mut row, 0, &size.to_be_bytes());
    put(&mut row, at, &number_check(size).to_be_bytes());
    Ok(out.extend_from_slice(&row)?)
}

/// Ends the entry that begins at `from`, with the check of its payload, which is all that stands
/// behind its front. Is not refused where there is room for 4 bytes.
pub fn end_entry(out: &mut Vec<u8>, from: usize) -> Result<(), OutOfMemory>
    requires begun { from + entry_front_size ≤ length out.old.items }
    requires most { length out.old.items ≤ from + entry_front_size + 2 ^ 30 }
    ensures ok { (front payload : List ℕ) → length front ≡ from
        → out.old.items ≡ front ++ entry_front (length payload) ++ payload
        → OnOk result (out.new.items ≡ front ++ entry_bytes payload) }
    ensures err { OnErr result (out.new.items ≡ out.old.items) }
    ensures room { vec_len out.old + 4 ≤ vec_capacity out.old → IsOk result }
{
    let check = check_behind(out.as_slice(), from + ENTRY_FRONT_SIZE);
    Ok(out.extend_from_slice(&check.to_be_bytes())?)
}

// The second check of the entry whose payload runs from a place to the end.
fn check_behind(bytes: &[u8], from: usize) -> u32
    requires begun { from ≤ length bytes.now }
    requires most { length bytes.now ≤ from + 2 ^ 30 }
    ensures { result ≡ crc32_of (size_bytes (drop from bytes.now) ++ drop from bytes.now) }
{
    let payload = &bytes[from..];
    let size = payload.len() as u32;
    body_check(number_check(size), size, payload)
}
