//! The text of a name, put into a row piece by piece, without memory.
ghost use Rattle.std.specs.Prelude.{◌≡◌, ◌≤◌, ◌+◌, ◌*◌, ◌++◌, length, take, decimal};
ghost use Rattle.clog_base.specs.NameText.{most_digits, numbered, two_numbered};

use crate::row::put;
use itoa::Buffer;

/// Puts a number in decimal behind what stands in a row, and says where it ends.
pub(crate) fn put_number(row: &mut [u8], at: usize, number: u64) -> usize
    requires { at + most_digits ≤ length row.old }
    ensures end { result ≡ at + length (decimal number) }
    ensures front { take result row.new ≡ take at row.old ++ decimal number }
    ensures short { result ≤ at + most_digits }
{
    let mut buffer = Buffer::new();
    let digits = buffer.format(number).as_bytes();
    put(row, at, digits)
}

/// Puts a front, a number and a back, and says how long that is.
pub(crate) fn put_numbered(row: &mut [u8], front: &[u8], number: u64, back: &[u8]) -> usize
    requires { length front.now + length back.now + most_digits ≤ length row.old }
    ensures within { result ≤ length row.old }
    ensures text { take result row.new ≡ numbered front.now number back.now }
{
    let at = put(row, 0, front);
    let at = put_number(row, at, number);
    put(row, at, back)
}

/// Puts a front, two numbers with a dash between them and a back, and says how long that is.
pub(crate) fn put_two_numbered(
    row: &mut [u8],
    front: &[u8],
    first: u64,
    second: u64,
    back: &[u8],
) -> usize
    requires { length front.now + length back.now + 2 * most_digits + 1 ≤ length row.old }
    ensures within { result ≤ length row.old }
    ensures text { take result row.new ≡ two_numbered front.now first second back.now }
{
    let at = put(row, 0, front);
    let at = put_number(row, at, first);
    let at = put(row, at, b"-");
    let at = put_number(row, at, second);
    put(row, at, back)
}
