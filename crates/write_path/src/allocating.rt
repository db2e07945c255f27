//! Where the log goes on behind a claim: the rule of allocation.
ghost use Rattle.std.specs.Prelude.{◌≡◌, ◌/◌, ◌<◌, ◌≤◌, IfSome, IsNone};
ghost use Rattle.path_core.specs.declared.event.ClaimKind.TheVariants.{Entry};
ghost use Rattle.path_core.specs.Keys.{MovesLog, claimed_size, entry_end, ordinal_of};

use path_rounds::{FIRST_OFFSET, SEGMENT_KEYS};
use path_rule::PathSize;

/// The log key behind an entry of some bytes that is claimed at a key: in its segment, or in the
/// next one where it does not fit (`CommitLogSegment.allocate`). There is none where the path has
/// no such segment.
pub(crate) fn log_after(size: &PathSize, key: u64, bytes: u64) -> Option<u64>
    requires sizes { (size.now.capacity ≤ 33554432) × (size.now.ordinals ≤ 2147483647) }
    requires bytes { (30 ≤ bytes) × (bytes ≤ size.now.capacity / 2) }
    ensures moves { IfSome result (λ to. MovesLog Entry size.now.capacity size.now.ordinals key to
        × (claimed_size key to ≡ bytes)) }
    ensures spent { IsNone result
        → size.now.ordinals ≤ ordinal_of (entry_end size.now.capacity key bytes) }
{
    let ordinal = key / SEGMENT_KEYS;
    let offset = key % SEGMENT_KEYS;
    if offset + bytes < size.capacity {
        if ordinal >= size.ordinals {
            return None;
        }
        return Some(key + bytes);
    }
    if ordinal + 1 >= size.ordinals {
        return None;
    }
    Some((ordinal + 1) * SEGMENT_KEYS + FIRST_OFFSET + bytes)
}
