//! The single steps of the write path: one step acts on one word.
use crate::note::EntryNote;
use crate::state::Bound;
use clog_base::{Key, Rows, Table};
use op_core::{Order, Tally};

/// What one holder at a time may do.
#[derive(Clone, Copy, Debug, PartialEq, Eq)]
pub enum Turn {
    /// To sync the log, and to issue barriers.
    Sync,
    /// To flush a table.
    Flush(Table),
}

/// A number that is put by the holder of a turn.
#[derive(Clone, Copy, Debug, PartialEq, Eq)]
pub enum Cursor {
    /// Up to where the log is lasting: the start of a marker, 0 at first.
    Synced,
    /// The least memtable of a table that is not retired.
    OldestLive(Table),
    /// 0 while the log runs, then the keeper's count of faults.
    Stopped,
}

/// A word that steps act on.
#[derive(Clone, Copy, Debug, PartialEq, Eq)]
pub enum Place {
    /// The count of a group.
    Count(Order, u64),
    /// The group in which operations of an order register.
    Current(Order),
    /// The least group of an order that is not known to be finished.
    Oldest(Order),
    /// The key behind the last claim.
    Log,
    /// The newest memtable of a table.
    Newest(Table),
    /// The bound of a table's memtable.
    Bound(Table, u64),
    /// 1 while a seat holds the turn, else 0.
    TurnWord(Turn),
    /// A number that a turn's holder puts.
    CursorWord(Cursor),
}

/// What stands at a place.
#[derive(Clone, Copy, Debug, PartialEq, Eq)]
pub enum Reading {
    /// The count of a group.
    Operations(Tally),
    /// A key, a group, a memtable, or a count of faults.
    Number(u64),
    /// The bound of a memtable.
    Limit(Bound),
}

/// What a range of the log is claimed for.
#[derive(Clone, Copy, Debug, PartialEq, Eq)]
pub enum ClaimKind {
    /// An entry, by a seat in both orders.
    Entry,
    /// A marker, by the holder of the Sync turn.
    Marker,
}

/// Which part of a switch a step makes.
#[derive(Clone, Copy, Debug, PartialEq, Eq)]
pub enum SwitchPart {
    /// Clears the place of the new memtable's bound, which an older one had.
    Clear,
    /// Makes the new memtable the newest.
    Open,
    /// Makes the old one raising, from key 0.
    Mark,
}

/// What a seat carries to a group's close.
#[derive(Drop)]
pub enum Carried {
    /// No note and no place.
    Nothing,
    /// The entry that it put into its box.
    Deposit(EntryNote),
    /// For each table of its entry the memtable that took the updates.
    Applied(Rows<(Table, u64)>),
}

/// A step. Seats, groups and memtables are named by their numbers.
#[derive(Drop)]
pub enum Event {
    /// It reads the word at a place.
    Look {
        /// The seat that makes it.
        by: u8,
        /// The place.
        at: Place,
    },
    /// It enters a group of an order.
    Register {
        /// The seat that makes it.
        by: u8,
        /// The order.
        order: Order,
        /// The group that it enters.
        group: u64,
    },
    /// It leaves a group of an order.
    Close {
        /// The seat that makes it.
        by: u8,
        /// The order.
        order: Order,
        /// The group that it leaves.
        group: u64,
        /// What it carries there.
        carried: Carried,
    },
    /// It makes the next group of an order.
    OpenGroup {
        /// The seat that makes it.
        by: u8,
        /// The order.
        order: Order,
        /// The group that is made.
        group: u64,
    },
    /// It makes that group the current one; what waits for a barrier gets the one before.
    MoveCurrent {
        /// The seat that makes it.
        by: u8,
        /// The order.
        order: Order,
        /// The group that becomes the current one.
        group: u64,
    },
    /// It ends registering in the group before the current one.
    Expire {
        /// The seat that makes it.
        by: u8,
        /// The order.
        order: Order,
        /// The group in which registering ends.
        group: u64,
    },
    /// It makes the next group the oldest one that is not known to be finished.
    Advance {
        /// The seat that makes it.
        by: u8,
        /// The order.
        order: Order,
        /// The group that becomes the oldest one.
        group: u64,
    },
    /// It moves the log key, from the one that stands there to the one behind what it claims.
    Claim {
        /// The seat that makes it.
        by: u8,
        /// The log key that stands there.
        from: Key,
        /// The key behind the claimed range.
        to: Key,
        /// What the range is for.
        what: ClaimKind,
    },
    /// It makes one part of the switch of a table to a new memtable.
    Switch {
        /// The seat that makes it.
        by: u8,
        /// The table.
        table: Table,
        /// The memtable that is opened or marked, or whose place is cleared.
        memtable: u64,
        /// Which part.
        part: SwitchPart,
    },
    /// It raises the bound of a memtable to a key, where that is greater.
    Raise {
        /// The seat that makes it.
        by: u8,
        /// The table.
        table: Table,
        /// The memtable whose bound is raised.
        memtable: u64,
        /// The key that the bound is raised to.
        to: Key,
    },
    /// It makes the bound of a memtable final.
    Finalise {
        /// The seat that makes it.
        by: u8,
        /// The table.
        table: Table,
        /// The memtable whose bound becomes final.
        memtable: u64,
    },
    /// It takes a turn that nobody holds.
    TakeTurn {
        /// The seat that makes it.
        by: u8,
        /// The turn.
        turn: Turn,
    },
    /// It gives a turn back.
    GiveTurn {
        /// The seat that makes it.
        by: u8,
        /// The turn.
        turn: Turn,
    },
    /// It puts a number at a cursor.
    Put {
        /// The seat that makes it.
        by: u8,
        /// The cursor.
        cursor: Cursor,
        /// The number.
        value: u64,
    },
}
