//! Keys of the log, and where claims stand. A claim that does not fit a segment moves the log to
//! the next one, behind the header and the first marker.
ghost use Rattle.std.specs.Prelude.{◌≡◌, ◌↔◌, ◌+◌, ◌≤◌, ◌<◌, IsTrue};
ghost use Rattle.clog_spec.specs.Sizes.{greatest_capacity};
ghost use Rattle.path_core.specs.Keys.{
  ordinal_of,
  offset_of,
  key_of,
  fits,
  claimed_size,
  MovesLog,
  claim_start,
  claim_end,
  behind_marker,
  after,
};

use clog_base::FRONT_SIZE;
use path_core::ClaimKind;

/// The bytes of a segment's header and of its first marker.
pub(crate) const FIRST_OFFSET: u64 = FRONT_SIZE as u64;
/// The bytes of a marker.
const MARKER_SIZE: u64 = clog_base::MARKER_SIZE as u64;
/// The least entry: a payload of 18 bytes and 12 around it.
const LEAST_ENTRY: u64 = 30;

pub(crate) fn ordinal(key: u64) -> u64
    ensures { result ≡ ordinal_of key }
{
    key >> 31
}

pub(crate) fn offset(key: u64) -> u64
    ensures { result ≡ offset_of key }
{
    key & 0x7fff_ffff
}

// Whether a claim of some bytes at a key fits its segment.
fn fits(capacity: u32, key: u64, size: u64) -> bool
    requires { size < 4294967296 }
    ensures { result ≡ fits capacity key size }
{
    offset(key) + size < u64::from(capacity)
}

// The bytes of the entry whose claim moved the log from one key to another.
fn claimed_size(from: u64, to: u64) -> u64
    ensures { result ≡ claimed_size from to }
{
    if ordinal(to) == ordinal(from) {
        to.saturating_sub(from)
    } else {
        offset(to).saturating_sub(FIRST_OFFSET)
    }
}

// Whether the second key is the one of an offset in the segment behind that of the first.
fn is_in_next(from: u64, to: u64, at: u64) -> bool
    requires { at < 2147483648 }
    ensures { IsTrue result ↔ (to ≡ key_of (ordinal_of from + 1) at) }
{
    ordinal(to) == ordinal(from) + 1 && offset(to) == at
}

/// Whether a claim may move the log from one key to another: an entry of a size that may be, in a
/// segment that there is, or a marker.
pub(crate) fn moves_log(what: ClaimKind, capacity: u32, ordinals: u32, from: u64, to: u64) -> bool
    requires { capacity ≤ greatest_capacity }
    ensures { IsTrue result ↔ MovesLog what capacity ordinals from to }
{
    match what {
        ClaimKind::Entry => moves_by_entry(capacity, ordinals, from, to),
        ClaimKind::Marker => moves_by_marker(capacity, from, to),
    }
}

fn moves_by_entry(capacity: u32, ordinals: u32, from: u64, to: u64) -> bool
    requires { capacity ≤ greatest_capacity }
    ensures { IsTrue result ↔ MovesLog ClaimKind.Entry capacity ordinals from to }
{
    let size = claimed_size(from, to);
    if size < LEAST_ENTRY || size > u64::from(capacity / 2) {
        return false;
    }
    if ordinal(to) >= u64::from(ordinals) {
        return false;
    }
    if fits(capacity, from, size) {
        to - size == from
    } else {
        is_in_next(from, to, FIRST_OFFSET + size)
    }
}

fn moves_by_marker(capacity: u32, from: u64, to: u64) -> bool
    ensures { IsTrue result ↔ (to ≡ behind_marker capacity from) }
{
    if fits(capacity, from, MARKER_SIZE) {
        to >= MARKER_SIZE && to - MARKER_SIZE == from
    } else {
        is_in_next(from, to, FIRST_OFFSET)
    }
}

/// Where the range begins that a claim takes which moved the log from one key to another.
pub(crate) fn claim_start(what: ClaimKind, from: u64, to: u64) -> u64
    ensures { result ≡ claim_start what from to }
{
    match what {
        ClaimKind::Entry => to.saturating_sub(claimed_size(from, to)),
        ClaimKind::Marker => from,
    }
}

/// Where that range ends.
pub(crate) fn claim_end(what: ClaimKind, capacity: u32, from: u64, to: u64) -> u64
    requires { what ≡ ClaimKind.Marker → to ≡ behind_marker capacity from }
    ensures { result ≡ claim_end what capacity from to }
{
    match what {
        ClaimKind::Entry => to,
        ClaimKind::Marker => {
            if fits(capacity, from, MARKER_SIZE) {
                to
            } else {
                from
            }
        }
    }
}

/// Whether a key is at or below the one at which the log goes on behind the synced key.
pub(crate) fn is_below_after(capacity: u32, synced: u64, key: u64) -> bool
    ensures { IsTrue result ↔ (key ≤ after capacity synced) }
{
    if synced == 0 {
        key <= FIRST_OFFSET
    } else if fits(capacity, synced, MARKER_SIZE) {
        key.saturating_sub(MARKER_SIZE) <= synced
    } else {
        let next = ordinal(synced) + 1;
        ordinal(key) < next || ordinal(key) == next && offset(key) <= FIRST_OFFSET
    }
}
