//! The write path as its callers use it: a path is opened, its seats are handed out, and it is
//! closed; what a write takes before it commits, so that a periodic commit takes no memory; commits
//! and syncs; switches and flushes of a table's memtable; and the single tries of a write.
#![tactic(auto)]

mod accepting;
mod acknowledging;
mod allocating;
mod applying;
mod claimed;
mod claiming;
mod closed_laws;
mod closing;
mod commit;
mod committing;
mod copies;
mod deposited;
mod depositing;
mod fault;
mod finishing;
mod flushing;
mod laws;
mod opening;
mod prepared;
mod resting;
mod seats;
mod switch_laws;
mod syncing;
mod turning;
mod writing;

pub use accepting::Accept;
pub use claimed::Claimed;
pub use claiming::TryClaim;
pub use closed_laws::{what_a_flush_covers, what_a_retired_memtable_leaves};
pub use closing::Outcome;
pub use commit::{Commit, Receipt, SyncFault};
pub use deposited::Deposited;
pub use fault::PrepareFault;
pub use laws::{
    note_laws, what_a_round_reaches, what_close_keeps, what_seals_a_write, what_spends_a_path,
    where_a_log_begins,
};
pub use path_flush::{Flush, Switch};
pub use path_rounds::Advance;
pub use path_rule::SyncAnswer;
pub use path_table::{Begun, PathSeat, Seen};
pub use prepared::Prepared;
pub use seats::{Appending, MOST_ISSUED, WritePath};
pub use switch_laws::{
    only_flushes_retire, what_a_flush_leaves, what_a_switch_tells, what_opens_no_memtable,
};
pub use turning::TurnSeat;
pub use writing::Written;
