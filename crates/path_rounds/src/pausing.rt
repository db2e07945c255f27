//! Who waits leaves the processor to who works. Nobody yields who may sleep instead: beside busy
//! programs a yield costs the time slice of one of them, and who sleeps is run at once when woken.
use crossbeam_utils::Backoff;
use path_core::Keeper;
use path_table::PathTable;
use std::alloc::Allocator;
use std::sync::Wait;
use std::thread::Parker;
use std::time::Duration;

// How long a wait sleeps that nobody ends, in microseconds.
const SLEEP_MICROS: u64 = 50;

// How often the Sync turn is looked at before a wait for it sleeps. A round of a sync over a disk in
// memory is over by then.
const LOOKS: u32 = 5;

/// Sleeps 50 microseconds.
pub fn sleep_a_little<R: Wait>(rt: &R) {
    Parker::new().park_timeout(rt, Duration::from_micros(SLEEP_MICROS));
}

/// A turn of a wait for other seats' operations, which nobody ends by a wake: it spins, then yields,
/// and then sleeps 50 microseconds at a time.
pub fn wait_a_turn<R: Wait>(rt: &R, backoff: &Backoff) {
    if backoff.is_completed() {
        sleep_a_little(rt);
    } else {
        backoff.snooze();
    }
}

/// A turn of a wait for the Sync turn, which was looked at so often before and found taken: it
/// spins, or, behind the fifth look, sleeps until the turn is given back. Returns how often it was
/// looked at, 5 at most.
pub fn wait_for_turn<K: Keeper, A: Allocator, R: Wait>(
    path: &PathTable<K, A>,
    rt: &R,
    backoff: &Backoff,
    looked: u32,
) -> u32 {
    if looked < LOOKS {
        backoff.spin();
        return looked + 1;
    }
    path.sleep_beside_turn(rt);
    looked
}
