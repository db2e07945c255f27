//! What the boxes of the table hold: each has notes, but for the first, which is the desk of the
//! Sync turn.
use crate::view::Progress;
use path_core::EntryNote;
use std::collections::LinkedList;

/// The desk of the Sync turn, which its holder has in hand. The notes on it were gathered and are
/// not yet lasting: those that a keeper was lent and left, and behind them those that came since.
#[derive(Drop)]
pub struct Desk<K> {
    /// What makes entries lasting.
    pub keeper: K,
    /// Notes that a keeper was lent and did not make lasting.
    pub lent: Vec<EntryNote>,
    /// Notes that were gathered since.
    pub gathered: LinkedList<EntryNote>,
    /// How far the last barrier of the append order has got.
    pub progress: Progress,
    /// The upper key of each table's last table file, 0 before the first.
    pub uppers: [u64; 16],
}

/// A box of the table.
#[derive(Drop)]
pub enum Slot<K> {
    /// What a seat deposited and nobody has gathered, or what it put into a table's memtable.
    Notes(LinkedList<EntryNote>),
    /// The desk of the Sync turn.
    Turn(Desk<K>),
}
