//! The edges of both modes.
use crate::{Decision, SyncCore};

#[test]
fn a_sync_is_due_when_its_mode_says_so(rt: HostRuntime) {
    let end = u64::MAX;
    for (mode, now_ms, last_ms, wants, wanted) in [
        (SyncCore::batch(), 0, 9, 0, Decision::Not),
        (SyncCore::batch(), 0, 9, 1, Decision::Sync),
        (SyncCore::periodic(10), 19, 10, 5, Decision::Not),
        (SyncCore::periodic(10), 20, 10, 0, Decision::Sync),
        (SyncCore::periodic(10), 4, 10, 7, Decision::Not),
        (SyncCore::periodic(0), 10, 10, 0, Decision::Sync),
        (SyncCore::periodic(end), end, 0, 0, Decision::Sync),
        (SyncCore::periodic(end), end, 1, 1, Decision::Not),
    ] {
        assert!(rt; mode.decide(now_ms, last_ms, wants) == wanted);
    }
}
