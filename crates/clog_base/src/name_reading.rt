//! The numbers in a text, read only where they are written as this project writes them: in decimal,
//! without sign and without leading zeros.
ghost use Rattle.std.specs.Prelude.{
  ◌≡◌,
  ◌<◌,
  ◌^◌,
  ◌==◌,
  ◌↔◌,
  ◌++◌,
  IsTrue,
  IfSome,
  MatchOption,
  codes,
  decimal,
};
ghost use Rattle.std.specs.List.{position};
ghost use Rattle.clog_base.specs.NameReading.{IsNoNumber, IsNoPair, IsNotBetween};

use itoa::Buffer;
use std::str;

/// What stands between a front and a back.
pub(crate) fn between<'a>(bytes: &'a [u8], front: &[u8], back: &[u8]) -> Option<&'a [u8]>
    ensures { MatchOption result (IsNotBetween front.now back.now bytes.now)
        (λ middle. bytes.now ≡ front.now ++ middle.now ++ back.now) }
{
    match bytes.strip_prefix(front) {
        Some(rest) => rest.strip_suffix(back),
        None => None,
    }
}

fn is_written(number: u64, bytes: &[u8]) -> bool
    ensures { IsTrue result ↔ (bytes.now ≡ decimal number) }
{
    let mut buffer = Buffer::new();
    buffer.format(number).as_bytes() == bytes
}

/// The number that the bytes are.
pub(crate) fn number_of(bytes: &[u8]) -> Option<u64>
    ensures { MatchOption result (IsNoNumber bytes.now) (λ n. bytes.now ≡ decimal n) }
{
    let Ok(text) = str::from_utf8(bytes) else {
        return None;
    };
    let Ok(number) = text.parse::<u64>() else {
        return None;
    };
    if is_written(number, bytes) {
        Some(number)
    } else {
        None
    }
}

fn dash_in(bytes: &[u8]) -> Option<usize>
    ensures { result ≡ position (λ b. b == 45) bytes.now }
{
    bytes.iter().position(|byte| *byte == b'-')
}

/// The two numbers that the bytes are, with a dash between them.
pub(crate) fn two_numbers_of(bytes: &[u8]) -> Option<(u64, u64)>
    ensures read { MatchOption result (IsNoPair bytes.now)
        (λ pair. bytes.now ≡ decimal pair.0 ++ codes "-" ++ decimal pair.1) }
    ensures fit { IfSome result (λ pair. (pair.0 < 2 ^ 64) × (pair.1 < 2 ^ 64)) }
{
    let Some(at) = dash_in(bytes) else {
        return None;
    };
    let Some(first) = number_of(&bytes[..at]) else {
        return None;
    };
    let Some(second) = number_of(&bytes[at + 1..]) else {
        return None;
    };
    Some((first, second))
}
