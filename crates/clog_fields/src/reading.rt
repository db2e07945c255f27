//! Fields are read from the left: a field gives its value and the bytes behind it, or the first
//! fault, at the offset of what is refused. The bytes are the last ones of `end` bytes, from whose
//! beginning offsets count. Nothing is copied.
ghost use Rattle.std.specs.Prelude.{◌≡◌};
ghost use Rattle.std.specs.Int.{w16, w32};
ghost use Rattle.clog_fields.specs.Refusals.{place};
ghost use Rattle.clog_fields.specs.Reading.{
  Finds,
  field_at,
  number_at,
  byte_at,
  length_at,
  tag_at,
  text_at,
  ts_at,
  name_at,
  live_at,
  tagged_at,
};

use byteorder::{BigEndian, ByteOrder};
use clog_base::{Kind, LONGEST_NAME, PayloadFault};
use std::str;

/// Where the rest of so many bytes begins.
pub fn place(end: usize, rest: &[u8]) -> u64
    ensures { result ≡ place end rest.now }
{
    end.saturating_sub(rest.len()) as u64
}

fn field(end: usize, size: usize, bytes: &[u8]) -> Result<(&[u8], &[u8]), PayloadFault>
    ensures { Finds (λ x. (x.0.now, x.1.now)) result (field_at end size bytes.now) }
{
    if bytes.len() < size {
        return Err(PayloadFault::Short(place(end, bytes)));
    }
    Ok(bytes.split_at(size))
}

/// A number of two bytes. `Short` where fewer are left.
pub fn short_number(end: usize, bytes: &[u8]) -> Result<(u16, &[u8]), PayloadFault>
    ensures { Finds (λ x. (x.0, x.1.now)) result (number_at w16 end bytes.now) }
{
    let (number, rest) = field(end, 2, bytes)?;
    Ok((BigEndian::read_u16(number), rest))
}

fn long_number(end: usize, bytes: &[u8]) -> Result<(u32, &[u8]), PayloadFault>
    ensures { Finds (λ x. (x.0, x.1.now)) result (number_at w32 end bytes.now) }
{
    let (number, rest) = field(end, 4, bytes)?;
    Ok((BigEndian::read_u32(number), rest))
}

/// A timestamp, eight bytes. `Short` where fewer are left.
#[tactic(auto, unfolding(crate::specs::Reading::ts_at))]
pub fn timestamp(end: usize, bytes: &[u8]) -> Result<(i64, &[u8]), PayloadFault>
    ensures { Finds (λ x. (x.0, x.1.now)) result (ts_at end bytes.now) }
{
    let (number, rest) = field(end, 8, bytes)?;
    Ok((BigEndian::read_i64(number), rest))
}

/// A byte. `Short` where none is left.
pub fn byte(end: usize, bytes: &[u8]) -> Result<(u8, &[u8]), PayloadFault>
    ensures { Finds (λ x. (x.0, x.1.now)) result (byte_at end bytes.now) }
{
    let (byte, rest) = field(end, 1, bytes)?;
    Ok((byte[0], rest))
}

#[tactic(auto, unfolding(crate::specs::Reading::length_at))]
fn name_length(end: usize, bytes: &[u8]) -> Result<(u16, &[u8]), PayloadFault>
    ensures { Finds (λ x. (x.0, x.1.now)) result (length_at end bytes.now) }
{
    let (length, rest) = short_number(end, bytes)?;
    if length == 0 || length as usize > LONGEST_NAME {
        return Err(PayloadFault::NameLength(place(end, bytes)));
    }
    Ok((length, rest))
}

#[tactic(auto, unfolding(crate::specs::Reading::tag_at))]
fn tag(end: usize, bytes: &[u8]) -> Result<(u8, &[u8]), PayloadFault>
    ensures { Finds (λ x. (x.0, x.1.now)) result (tag_at end bytes.now) }
{
    let (tag, rest) = byte(end, bytes)?;
    if tag > 1 {
        return Err(PayloadFault::BadTag(place(end, bytes)));
    }
    Ok((tag, rest))
}

#[tactic(auto, using(crate::proofs::Texts::utf8_tests), unfolding(crate::specs::Reading::text_at))]
fn text(end: usize, size: usize, bytes: &[u8]) -> Result<(&str, &[u8]), PayloadFault>
    ensures { Finds (λ x. (x.0.now, x.1.now)) result (text_at end size bytes.now) }
{
    let (text, rest) = field(end, size, bytes)?;
    let Ok(text) = str::from_utf8(text) else {
        return Err(PayloadFault::NotUtf8(place(end, bytes)));
    };
    Ok((text, rest))
}

/// A key or a column. `Short`, `NameLength` of a length that is 0 or above the longest, `NotUtf8`.
/// A text that does not fit is `Short` before its UTF-8 is looked at.
#[tactic(auto, unfolding(crate::specs::Reading::name_at))]
pub fn name(end: usize, bytes: &[u8]) -> Result<(&str, &[u8]), PayloadFault>
    ensures { Finds (λ x. (x.0.now, x.1.now)) result (name_at end bytes.now) }
{
    let (length, rest) = name_length(end, bytes)?;
    text(end, length as usize, rest)
}

#[tactic(auto, unfolding(crate::specs::Reading::live_at))]
fn live_value(end: usize, bytes: &[u8]) -> Result<(&str, &[u8]), PayloadFault>
    ensures { Finds (λ x. (x.0.now, x.1.now)) result (live_at end bytes.now) }
{
    let (length, rest) = long_number(end, bytes)?;
    text(end, length as usize, rest)
}

/// A value behind its tag, no bytes at a deletion. `Short`, `BadTag` of a tag above 1, `NotUtf8`.
#[tactic(auto, unfolding(crate::specs::Reading::tagged_at))]
pub fn value(end: usize, bytes: &[u8]) -> Result<((Kind, &str), &[u8]), PayloadFault>
    ensures { Finds (λ x. ((x.0.0, x.0.1.now), x.1.now)) result (tagged_at end bytes.now) }
{
    let (tag, rest) = tag(end, bytes)?;
    if tag == 0 {
        return Ok(((Kind::Deletion, ""), rest));
    }
    let (value, rest) = live_value(end, rest)?;
    Ok(((Kind::Live, value), rest))
}
