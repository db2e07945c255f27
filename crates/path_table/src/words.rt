//! Where the words of the table stand. `Layout` of `path_rule` has the place of each, and the law
//! that of those that share a word one is shown. The words of no table and the counts are eight
//! apart: what a seat changes in one takes no other from a seat that only looks at that.

/// How many words there are.
pub(crate) const WORDS: usize = 704;

/// The number of the current group of the write order.
pub(crate) const CURRENT_WRITE: usize = 0;

/// The number of the current group of the append order.
pub(crate) const CURRENT_APPEND: usize = 8;

/// The number of the oldest group of the write order.
pub(crate) const OLDEST_WRITE: usize = 16;

/// The number of the oldest group of the append order.
pub(crate) const OLDEST_APPEND: usize = 24;

/// The log key: where the next claim begins.
pub(crate) const LOG: usize = 32;

/// The key up to which the log is lasting.
pub(crate) const SYNCED: usize = 40;

/// The keeper's count of faults, 0 while the log runs.
pub(crate) const STOPPED: usize = 48;

/// 1 while a seat holds the Sync turn.
pub(crate) const SYNC_TURN: usize = 56;

/// The newest memtable of table 0: four words on for each next table.
pub(crate) const NEWEST: usize = 64;

/// The Flush turn of table 0, 1 while a seat holds it: four words on for each next table.
pub(crate) const FLUSH_TURN: usize = 65;

/// The oldest live memtable of table 0: four words on for each next table.
pub(crate) const OLDEST_LIVE: usize = 66;

/// The bounds of the tables' first memtables: one word on for each next table, sixteen for each
/// next memtable. There are four for each table, which are used again.
pub(crate) const BOUNDS: usize = 640;

/// The mark of a raising bound, above all keys.
pub(crate) const RAISING: u64 = 0x4000_0000_0000_0000;

/// The mark of a final bound.
pub(crate) const FINAL: u64 = 0x8000_0000_0000_0000;

/// The counts of the groups of the write order: sixteen words on for each next group, 32 in all,
/// which are used again.
pub(crate) const WRITE_COUNTS: usize = 128;

/// The counts of the groups of the append order, between those of the write order.
pub(crate) const APPEND_COUNTS: usize = 136;

/// The highest bit of a count, which marks an expired group.
pub const EXPIRED: u64 = 0x8000_0000_0000_0000;

/// What a group's number adds to the word of its count.
pub const ONE_GROUP: u64 = 65_536;

/// Where the log begins, in the first segment.
pub(crate) const FIRST_KEY: u64 = 28;
