//! CRC-32 (`java.util.zip.CRC32`): eight bytes at a time by eight tables, and, in the plain program
//! beside it, one byte at a time by one table. Both keep in a register what the division left.
ghost use Rattle.std.specs.Prelude.{◌≡◌, ◌+◌, ◌*◌, ◌<◌, length, bit_xor};
ghost use Rattle.clog_spec.specs.Crc.{crc32_of, crc32_after, divide, polynomial_of};
ghost use Rattle.std.specs.Int.{to_be_bytes, w32};

use crate::crc_tables::TABLES;

/// The check of the bytes.
pub fn crc32(bytes: &[u8]) -> u32
    ensures { result ≡ crc32_of bytes.now }
{
    crc32_more(0, bytes)
}

/// The check of what came before, whose check is `state` (0 for nothing), and of the bytes behind
/// it.
pub fn crc32_more(state: u32, bytes: &[u8]) -> u32
    ensures { result ≡ crc32_after state bytes.now }
{
    let mut register = state ^ 0xffff_ffff;
    let mut rest = bytes;
    while let Some((block, behind)) = rest.split_first_chunk::<8>() {
        register = divide_block(register, block);
        rest = behind;
    }
    divide_bytes(register, rest) ^ 0xffff_ffff
}

/// The same as `crc32_more`, one byte at a time: the plain program of the definition.
pub fn crc32_plain(state: u32, bytes: &[u8]) -> u32
    ensures { result ≡ crc32_after state bytes.now }
{
    divide_bytes(state ^ 0xffff_ffff, bytes) ^ 0xffff_ffff
}

/// The same of a number's four bytes, the highest first.
pub fn crc32_int(state: u32, n: u32) -> u32
    ensures { result ≡ crc32_after state (to_be_bytes w32 n) }
{
    crc32_more(state, &n.to_be_bytes())
}

fn divide_bytes(register: u32, bytes: &[u8]) -> u32
    ensures { result ≡ divide (8 * length bytes.now) (bit_xor register (polynomial_of bytes.now)) }
{
    let mut left = register;
    for byte in bytes {
        let low = (left ^ u32::from(*byte)) & 0xff;
        left = division_of(0, low as u8) ^ (left >> 8);
    }
    left
}

// Each of the eight bytes is divided with the zeros of those behind it. The register lies over the
// first four.
#[inline]
fn divide_block(register: u32, block: &[u8; 8]) -> u32
    ensures { result ≡ divide 64 (bit_xor register (polynomial_of block.now)) }
{
    let [first, second, third, fourth] = register.to_le_bytes();
    division_of(7, first ^ block[0])
        ^ division_of(6, second ^ block[1])
        ^ division_of(5, third ^ block[2])
        ^ division_of(4, fourth ^ block[3])
        ^ division_of(3, block[4])
        ^ division_of(2, block[5])
        ^ division_of(1, block[6])
        ^ division_of(0, block[7])
}

// What is left of a byte and this many zero bytes behind it.
#[inline]
fn division_of(zeros: usize, byte: u8) -> u32
    requires { zeros < 8 }
    ensures { result ≡ divide (8 * (zeros + 1)) byte }
{
    TABLES[zeros][byte as usize]
}
