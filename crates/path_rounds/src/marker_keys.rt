//! Where the log goes on behind a marker: in its segment, or in the next one where the marker does
//! not fit.
ghost use Rattle.std.specs.Prelude.{◌≡◌, ◌↔◌, ◌<◌, ◌^◌, IsTrue};
ghost use Rattle.path_core.specs.Holders.{behind_last};
ghost use Rattle.path_core.specs.Keys.{behind_marker, fits, marker_size};

use clog_base::FRONT_SIZE;
use path_core::LastMarker;

/// The bytes of a segment's header and of its first marker.
pub const FIRST_OFFSET: u64 = FRONT_SIZE as u64;
/// How many keys a segment has.
pub const SEGMENT_KEYS: u64 = 0x8000_0000;
/// The bytes of a marker.
const MARKER_SIZE: u64 = clog_base::MARKER_SIZE as u64;

// Whether a marker fits the segment of a key.
fn fits_marker(capacity: u64, key: u64) -> bool
    ensures { result ≡ fits capacity key marker_size }
{
    key % SEGMENT_KEYS + MARKER_SIZE < capacity
}

/// The log key behind a marker that starts at a key.
pub fn key_behind_marker(capacity: u64, key: u64) -> u64
    requires { key < 2 ^ 62 }
    ensures { result ≡ behind_marker capacity key }
{
    if fits_marker(capacity, key) {
        key + MARKER_SIZE
    } else {
        (key / SEGMENT_KEYS + 1) * SEGMENT_KEYS + FIRST_OFFSET
    }
}

// Whether the log stands above the key behind a marker that starts at a key.
fn is_above_marker(capacity: u64, start: u64, log: u64) -> bool
    ensures { IsTrue result ↔ (behind_marker capacity start < log) }
{
    if fits_marker(capacity, start) {
        log.saturating_sub(MARKER_SIZE) > start
    } else {
        let next = start / SEGMENT_KEYS + 1;
        let ordinal = log / SEGMENT_KEYS;
        ordinal > next || ordinal == next && log % SEGMENT_KEYS > FIRST_OFFSET
    }
}

/// Whether an entry was claimed since the last marker, or at all where there is none: the log
/// stands above the key at which it went on behind that marker.
pub(crate) fn is_entry_since(capacity: u64, marker: Option<LastMarker>, log: u64) -> bool
    ensures { IsTrue result ↔ (behind_last capacity marker < log) }
{
    match marker {
        Some(last) => is_above_marker(capacity, last.start, log),
        None => log > FIRST_OFFSET,
    }
}
