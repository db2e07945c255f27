//! What one seat does: the operation that it runs, the turns that it holds, and what it last found.

use crate::state::Bound;
use op_core::Order;

/// A range of the log.
#[derive(Clone, Copy, Debug, PartialEq, Eq)]
pub struct Range {
    /// The key of its first byte.
    pub start: u64,
    /// The key behind its last byte.
    pub end: u64,
}

/// How far the holder of the Sync turn has got with a barrier.
#[derive(Clone, Copy, Debug, PartialEq, Eq)]
pub enum Issue {
    /// None is being issued.
    Rest,
    /// The next group is made, and not yet current.
    Opened(Order),
    /// The next group is current, and the one before it not yet expired.
    Moved(Order),
}

/// What a seat last found, or put there itself, of the groups of one order.
#[derive(Clone, Copy, Debug, PartialEq, Eq)]
pub struct FoundGroups {
    /// The group in which operations registered.
    pub current: Option<u64>,
    /// The least group that was not known to be finished.
    pub oldest: Option<u64>,
    /// A group whose count it found finished.
    pub finished: Option<u64>,
}

/// What a seat last found, or put there itself, of the words of no table. A current group counts as
/// found only where the seat looked at it.
#[derive(Clone, Copy, Debug, PartialEq, Eq)]
pub struct Found {
    /// Of the write order.
    pub write: FoundGroups,
    /// Of the append order.
    pub append: FoundGroups,
    /// The key behind the last claim.
    pub log: Option<u64>,
    /// The key up to which the log was lasting.
    pub synced: Option<u64>,
    /// The keeper's count of faults, 0 while the log ran.
    pub stopped: Option<u64>,
}

/// The last marker of the log, as the holder of the Sync turn keeps it.
#[derive(Clone, Copy, Debug, PartialEq, Eq)]
pub struct LastMarker {
    /// The seat that claimed it.
    pub by: u8,
    /// The key at which it starts.
    pub start: u64,
    /// The group of the append order's barrier that was issued for it.
    pub barrier: Option<u64>,
}

/// The Sync turn in a seat's hand. What is kept of the words was found or put while it is held.
#[derive(Clone, Copy, Debug, PartialEq, Eq)]
pub struct SyncTurn {
    /// How far it has got with a barrier.
    pub issue: Issue,
    /// Whether it retired a memtable with a file.
    pub filed: bool,
    /// The last marker of the log, whoever claimed it; none before the first.
    pub marker: Option<LastMarker>,
    /// What it found of the write order.
    pub write: FoundGroups,
    /// What it found of the append order.
    pub append: FoundGroups,
    /// The key up to which the log is lasting.
    pub synced: Option<u64>,
    /// The keeper's count of faults, 0 while the log runs.
    pub stopped: Option<u64>,
}

/// A memtable's bound as it was last found, or put there.
#[derive(Clone, Copy, Debug, PartialEq, Eq)]
pub struct FoundBound {
    /// The number of the memtable.
    pub memtable: u64,
    /// What stood there.
    pub bound: Bound,
}

/// The memtable that the holder of a Flush turn has marked and not yet made final.
#[derive(Clone, Copy, Debug, PartialEq, Eq)]
pub struct Marked {
    /// The number of the memtable.
    pub memtable: u64,
    /// The log key that it found since.
    pub key: Option<u64>,
    /// Whether it raised the bound since.
    pub raised: bool,
}

/// How far the holder of a Flush turn has got with a switch.
#[derive(Clone, Copy, Debug, PartialEq, Eq)]
pub enum Switching {
    /// The newest switch of the table is through.
    Settled,
    /// It made this memtable the newest; the one below is still live.
    Begun(u64),
    /// It marked the one below, which is raising.
    Marked(Marked),
    /// It made this one final, and it waits for its barrier.
    Waiting(u64),
    /// The barrier of this one is issued.
    WithBarrier {
        /// The memtable.
        memtable: u64,
        /// Its barrier's group.
        group: u64,
    },
}

/// A Flush turn in a seat's hand. What is kept of the words was found or put while it is held.
#[derive(Clone, Copy, Debug, PartialEq, Eq)]
pub struct FlushTurn {
    /// How far it has got with a switch.
    pub stage: Switching,
    /// The number of the newest memtable.
    pub newest: Option<u64>,
    /// The number of the least memtable that is not retired.
    pub oldest_live: Option<u64>,
    /// The bound that it last found or put.
    pub bound: Option<FoundBound>,
    /// The memtable to come, once its place is cleared for it.
    pub cleared: Option<u64>,
}

/// What a seat does at one table.
#[derive(Clone, Copy, Debug, PartialEq, Eq)]
pub struct SeatTable {
    /// The memtable that its write tries.
    pub trying: Option<u64>,
    /// The memtable that took its write.
    pub place: Option<u64>,
    /// The bound that it last found.
    pub bound: Option<FoundBound>,
    /// The table's Flush turn, while it holds it.
    pub flush: Option<FlushTurn>,
}

/// What a seat does. It is idle where it is in no group.
#[derive(Clone, Copy, Debug, PartialEq, Eq)]
pub struct Seat {
    /// The group of the write order that it is in.
    pub write: Option<u64>,
    /// The group of the append order that it is in.
    pub append: Option<u64>,
    /// The range that it claimed for its entry.
    pub claim: Option<Range>,
    /// The tables of its note, once it is deposited: bit `t` for table `t`.
    pub note: Option<u16>,
    /// What it does at each table, by the table's number.
    pub tables: [SeatTable; 16],
    /// Whether a marker that it claimed has no barrier yet.
    pub marker_waits: bool,
    /// The Sync turn, while it holds it.
    pub sync: Option<SyncTurn>,
    /// What it last found.
    pub found: Found,
}
