//! What a sync answers.

/// The answer of a sync.
#[derive(Clone, Copy, Drop)]
pub enum SyncAnswer {
    /// The log is lasting up to this key.
    Done(u64),
    /// The keeper has stopped: its count of faults at its opening, and the one with which the log
    /// is stopped.
    Stopped {
        /// The count at its opening.
        at_open: u64,
        /// The count that the log tells.
        now: u64,
    },
    /// The keeper wants memory. All is pending still.
    OutOfMemory,
}
