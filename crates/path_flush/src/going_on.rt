//! Where the log goes on behind the synced key.
ghost use Rattle.std.specs.Prelude.{◌≡◌, ◌<◌, ◌^◌};
ghost use Rattle.path_core.specs.Keys.{after};

use path_rounds::{FIRST_OFFSET, key_behind_marker};

/// The log key at which the log goes on behind a synced key, which is 0 before the first marker:
/// all that is lasting ends at or below it.
pub(crate) fn key_behind(capacity: u64, synced: u64) -> u64
    requires { synced < 2 ^ 62 }
    ensures { result ≡ after capacity synced }
{
    if synced == 0 {
        FIRST_OFFSET
    } else {
        key_behind_marker(capacity, synced)
    }
}
