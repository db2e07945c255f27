//! What a scan answers.
use clog_base::Rows;
use clog_entry::Cause;

/// Where an entry lies: offsets in the segment's file, in bytes. `end` is exclusive, and is the
/// offset of the entry's position. The payload begins `ENTRY_FRONT_SIZE` behind `start`, and ends 4
/// bytes before `end`.
#[derive(Clone, Copy, Debug, PartialEq, Eq)]
pub struct Found {
    /// Where the entry begins.
    pub start: u32,
    /// Where it ends, exclusive.
    pub end: u32,
}

/// Entries in their order.
pub type Founds = Rows<Found>;

/// How a segment ends, and at which offset.
#[derive(Clone, Copy, Debug, PartialEq, Eq)]
pub enum End {
    /// No marker stands here: fewer than 8 bytes are left, or the next 8 are zero.
    Clean(u32),
    /// What stands here is no header, marker or entry.
    Torn(u32, Cause),
}

/// The entries of a segment in front of its end, and the end.
#[derive(Drop)]
pub struct Scan {
    /// The entries, in the order of the file.
    pub entries: Founds,
    /// How the segment ends, behind them.
    pub end: End,
}
