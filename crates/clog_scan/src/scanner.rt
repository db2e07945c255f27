//! A segment's file is read in pieces of any size, in their order.
ghost use Rattle.std.specs.Prelude.{◌≡◌, ◌<◌, ◌≤◌, ◌^◌, ◌+◌, ◌++◌, [], List, ℕ, length, drop, map};
ghost use Rattle.std.specs.Prelude.{vec_len, IfOk, OnOk, OnErr};
ghost use Rattle.clog_scan.specs.Pieces.{entry_of};

use crate::answer::End;
use std::alloc::Global;

/// What of a segment was not read yet, and where it begins.
#[derive(Drop)]
pub struct Scanner {
    pub(crate) alloc: Global,
    /// The id in the segment's name.
    pub(crate) id: u64,
    /// How many bytes the file has.
    pub(crate) len: u32,
    /// How many of them were fed.
    pub(crate) fed: u32,
    /// The end of the section that is read, once the header was.
    pub(crate) until: u32,
    /// Whether the header was read.
    pub(crate) begun: bool,
    /// The segment's end, once it was come to.
    pub(crate) end: Option<End>,
    /// The last bytes that were fed and not read: fewer than an entry and a piece.
    pub(crate) held: Vec<u8>,
    pub ghost small: { len < 2 ^ 31 },
    pub ghost most: { fed ≤ len },
    pub ghost behind: { vec_len held ≤ fed },
    pub ghost order: { fed ≤ until + vec_len held },
    pub ghost within: { until ≤ len },
}
