//! The checks of a table file, each of the bytes before it.
ghost use Rattle.std.specs.Prelude.{◌≡◌, ◌≤◌, ◌++◌, ◌↔◌, length, take, drop, OnOk, IsTrue};
ghost use Rattle.clog_table.specs.Format.{check_bytes};

use byteorder::{BigEndian, ByteOrder};
use clog_base::crc32;
use std::alloc::AllocError;

/// Whether the first four bytes are the check of others.
pub(crate) fn is_check_of(check: &[u8], bytes: &[u8]) -> bool
    requires { 4 ≤ length check.now }
    ensures { IsTrue result ↔ (take 4 check.now ≡ check_bytes bytes.now) }
{
    BigEndian::read_u32(check) == crc32(bytes)
}

/// Adds the check of all bytes from a place on.
pub(crate) fn put_check(out: &mut Vec<u8>, from: usize) -> Result<(), AllocError>
    requires { from ≤ length out.old.items }
    ensures { OnOk result (out.new.items ≡ out.old.items ++ check_bytes (drop from out.old.items)) }
{
    let check = crc32(&out[from..]);
    out.extend_from_slice(&check.to_be_bytes())
}
