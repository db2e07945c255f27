//! What several steps of a seat make that has the Sync turn: barriers of both orders, which wait
//! until all operations before them are closed, the gathering of all boxes behind one, and a whole
//! round of a sync. Each goes over `PathTable`, whose methods are the single steps.
#![tactic(auto)]

mod advancing;
mod ending;
mod marker_keys;
mod marking;
mod pausing;
mod round_ends;
mod rounding;
mod sweeping;
mod waiting;

pub use advancing::{Advance, try_advance};
pub use ending::end_sync;
pub use marker_keys::{FIRST_OFFSET, SEGMENT_KEYS, key_behind_marker};
pub use marking::claim_next;
pub use pausing::{sleep_a_little, wait_a_turn, wait_for_turn};
pub use round_ends::end_round;
pub use rounding::{bar_round, sync_round};
pub use sweeping::{gather_all, settle};
pub use waiting::{Holder, issue_write, marker_barrier};
