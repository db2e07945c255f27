//! What each writer of a run is to do.
use sync_core::SyncCore;

/// Key `ab`, and one update of table 0: 20 bytes, and so an entry of 32.
const ONE_UPDATE: &[u8] = b"\x00\x02ab\x00\x01\x00\x00\x02cd\x00\x00\x00\x00\x00\x00\x00\x05\x00";

/// Key `ab`, and one update of table 0 and of table 3 each: 34 bytes.
const TWO_TABLES: &[u8] = b"\x00\x02ab\x00\x02\x00\x00\x02cd\x00\x00\x00\x00\x00\x00\x00\x05\x00\
\x03\x00\x02cd\x00\x00\x00\x00\x00\x00\x00\x05\x00";

/// A mutation that all writes of a run have.
#[derive(Clone, Copy, Debug, PartialEq, Eq)]
pub enum Payload {
    /// It updates one table.
    OneUpdate,
    /// It updates two tables.
    TwoTables,
}

impl Payload {
    /// Its bytes.
    pub fn bytes(self) -> &'static [u8] {
        match self {
            Payload::OneUpdate => ONE_UPDATE,
            Payload::TwoTables => TWO_TABLES,
        }
    }
}

/// What each writer is to do.
#[derive(Clone, Copy, Debug, PartialEq, Eq)]
pub struct Plan {
    /// How its writes are made lasting.
    pub mode: SyncCore,
    /// What each of its writes updates.
    pub payload: Payload,
    /// The bytes of a segment.
    pub capacity: u32,
    /// How many lines it commits.
    pub lines: u32,
    /// It syncs the log behind so many of its lines each time, and at the end. Where it is 0 it
    /// never does.
    pub sync_after: u32,
    /// How often other threads are let run before each sync. A sync over a disk in memory takes
    /// hardly any time, in which few writers come to wait for the next one.
    pub turns: u8,
}

impl Plan {
    /// Whether each write is made lasting by its commit.
    pub fn is_batch(&self) -> bool {
        self.mode == SyncCore::Batch
    }

    /// Whether a sync is due behind the line at a place, from 0, of a writer's share.
    pub fn is_due_behind(&self, place: u32) -> bool {
        self.sync_after > 0 && place.wrapping_add(1) % self.sync_after == 0
    }
}

/// The line, from 1, at a place, from 0, of the share of the writer of a number: the writers take
/// the lines in turn.
pub fn line_of(place: u32, number: u32, writers: u8) -> u32 {
    place
        .wrapping_mul(u32::from(writers))
        .wrapping_add(number)
        .wrapping_add(1)
}

/// The number of the writer of a line.
pub fn writer_of(line: u32, writers: u8) -> u32 {
    line.wrapping_sub(1) % u32::from(writers).max(1)
}
