//! The state of the write path, one value per moment.
//!
//! A key, a group, a memtable or an ordinal is a plain `u64` here and in a seat's part. A contract
//! reads it as a natural number, and its clauses compare and add such numbers as they stand; a type
//! of its own would be unwrapped in each clause and lemma. Steps name a `Key` or a `Table`, since a
//! caller writes them. Groups, memtables, seats and tables count from 0.

use crate::event::ClaimKind;
use crate::note::EntryNote;
use crate::seat::Seat;
use clog_base::{Key, Rows};
use op_core::Tally;

/// Up to where a memtable takes writes.
#[derive(Clone, Copy, Debug, PartialEq, Eq)]
pub enum Bound {
    /// No barrier is set.
    Live,
    /// It takes each write, which raises it.
    Raising(Key),
    /// It takes the writes at or below it.
    Final(Key),
}

/// A claimed range of the log.
#[derive(Clone, Copy, Debug, PartialEq, Eq)]
pub struct Claim {
    /// The seat that claimed it.
    pub by: u8,
    /// The key of its first byte.
    pub start: u64,
    /// The key behind its last byte: of an entry its position, of a marker that does not fit its
    /// start.
    pub end: u64,
    /// Whether it is for an entry or a marker.
    pub what: ClaimKind,
    /// The group of the append order's barrier that was issued for a marker.
    pub barrier: Option<u64>,
}

/// The groups of one order, from the first.
#[derive(Drop)]
pub struct OrderGroups {
    /// The count of each group made, in operations.
    pub tallies: Rows<Tally>,
    /// The group in which operations register.
    pub current: u64,
    /// The least group that is not known to be finished.
    pub oldest: u64,
}

/// A memtable of a table, which takes writes up to its bound.
#[derive(Clone, Copy, Debug, PartialEq, Eq)]
pub struct Memtable {
    /// The greatest position that it takes, itself included.
    pub bound: Bound,
    /// The log key when it was marked.
    pub mark: Option<u64>,
    /// The group of the write order's barrier that was issued for it.
    pub barrier: Option<u64>,
}

/// A table's memtables, from the first.
#[derive(Drop)]
pub struct TableState {
    /// The number of the last memtable made.
    pub newest: u64,
    /// The least that is not retired.
    pub oldest_live: u64,
    /// All that were made, those that are retired among them.
    pub memtables: Rows<Memtable>,
}

/// The entry that ends at a key was placed in a table's memtable.
#[derive(Clone, Copy, Debug, PartialEq, Eq)]
pub struct Placed {
    /// The table's number.
    pub table: u64,
    /// The position of the entry: the key behind its last byte.
    pub entry: u64,
    /// The number of the memtable.
    pub memtable: u64,
}

/// A table file: what its memtable held, the entries with `lower < end <= upper`.
#[derive(Clone, Copy, Debug, PartialEq, Eq)]
pub struct WrittenFile {
    /// The table's number.
    pub table: u64,
    /// The number of the memtable that it was written from.
    pub memtable: u64,
    /// The key above which its entries end.
    pub lower: u64,
    /// The key at or below which they end.
    pub upper: u64,
}

/// The state. The numbers of tables and of seats are the lengths of their lists.
#[derive(Drop)]
pub struct PathState {
    /// The id of the segment of ordinal 0.
    pub base: u64,
    /// The bytes of a segment.
    pub capacity: u32,
    /// How many segments may be used.
    pub ordinals: u32,
    /// The key behind the last claim.
    pub log: u64,
    /// The claimed ranges, in the order of the log.
    pub claims: Rows<Claim>,
    /// The deposited entries, in the order of the log.
    pub notes: Rows<EntryNote>,
    /// The groups of the write order.
    pub write: OrderGroups,
    /// The groups of the append order.
    pub append: OrderGroups,
    /// The tables, by number.
    pub tables: Rows<TableState>,
    /// The entries that closed writes placed.
    pub placed: Rows<Placed>,
    /// The seats, by number.
    pub seats: Rows<Seat>,
    /// Up to where the log is lasting: the key at which a marker starts, 0 at first.
    pub synced: u64,
    /// 0 while the log runs, then the keeper's count of faults.
    pub stopped: u64,
    /// The positions of the entries that a sync made lasting, in the order of the log.
    pub logged: Rows<u64>,
    /// The table files, in the order in which they were written.
    pub files: Rows<WrittenFile>,
    /// The ordinals of the segments that may have gone.
    pub dropped: Rows<u64>,
}
