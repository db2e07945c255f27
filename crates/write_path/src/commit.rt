//! What a commit answers: how far a write has got, and by what it is known. A write is placed when
//! it has its memtable at each of its tables, and its updates are put there.
use crate::prepared::Prepared;
use clog_base::{Key, Position};

/// What a write is known by once it is logged.
#[derive(Clone, Copy, Debug, PartialEq, Eq)]
pub struct Receipt {
    /// The line of the mutation file that it comes from.
    pub line: u32,
    /// The end of its range in the log, exclusive: its position.
    pub position: Position,
}

/// Why a write that is logged and placed was not made lasting by its commit.
#[derive(Clone, Copy, Debug, PartialEq, Eq)]
pub enum SyncFault {
    /// The log is stopped.
    Stopped {
        /// The keeper's count of faults at its opening.
        at_open: u64,
        /// The count with which the log is stopped.
        now: u64,
    },
    /// The keeper wants memory.
    OutOfMemory,
}

/// What a commit answers.
#[derive(Drop)]
pub enum Commit {
    /// The write is logged and placed. It lasts once a sync has come up to its position.
    Logged(Receipt),
    /// The write is logged and placed, and the log is lasting up to its position.
    Durable(Receipt),
    /// The write is logged and placed, but the sync that it waited for was refused.
    Unsynced(Receipt, SyncFault),
    /// The write was neither logged nor placed: at this key, which was found in this call, there
    /// is no room for it, and no further segment. It comes back.
    Spent(Prepared, Key),
}
