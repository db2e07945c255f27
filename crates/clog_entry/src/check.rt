//! The checks of headers, markers and entries. Each goes on from number to number, and takes no
//! memory.
ghost use Rattle.std.specs.Prelude.{◌≡◌, ◌++◌, ◌<◌, ◌^◌, length};
ghost use Rattle.std.specs.Int.{to_be_bytes, w32};
ghost use Rattle.clog_spec.specs.Crc.{crc32_of};
ghost use Rattle.clog_spec.specs.Segment.{low_half, high_half, marker_checked};
ghost use Rattle.clog_entry.specs.Fields.{header_fields};

use clog_base::{crc32_int, crc32_more};

/// What stands before the payload in an entry: its size, and the size's check.
pub const ENTRY_FRONT_SIZE: usize = 8;

fn halves(id: u64) -> (u32, u32)
    ensures low { result.0 ≡ low_half id }
    ensures high { result.1 ≡ high_half id }
{
    ((id & 0xffff_ffff) as u32, (id >> 32) as u32)
}

/// The check of a header with these fields.
pub fn header_check(version: u32, id: u64, parameters: &[u8]) -> u32
    requires { length parameters.now < 2 ^ 16 }
    ensures { result ≡ crc32_of (header_fields version id parameters.now) }
{
    let (low, high) = halves(id);
    let check = number_check(version);
    let check = crc32_int(check, low);
    let check = crc32_int(check, high);
    let check = crc32_int(check, parameters.len() as u32);
    crc32_more(check, parameters)
}

/// The check of a marker at a place.
pub fn marker_check(id: u64, at: u32) -> u32
    ensures { result ≡ crc32_of (marker_checked id at) }
{
    let (low, high) = halves(id);
    let check = number_check(low);
    let check = crc32_int(check, high);
    crc32_int(check, at)
}

/// The check of a number's four bytes: the first check of an entry of this size.
#[tactic(auto, unfolding(clog_spec::specs::Crc::crc32_of))]
pub fn number_check(number: u32) -> u32
    ensures { result ≡ crc32_of (to_be_bytes w32 number) }
{
    crc32_int(0, number)
}

/// The second check of an entry, which goes on from the first.
pub fn body_check(first: u32, size: u32, payload: &[u8]) -> u32
    requires { first ≡ crc32_of (to_be_bytes w32 size) }
    ensures { result ≡ crc32_of (to_be_bytes w32 size ++ payload.now) }
{
    crc32_more(first, payload)
}
