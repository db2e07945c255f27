//! Faults that several layers hand on.

use std::alloc::{AllocError, AllocFailed};

/// Memory was refused.
#[derive(Clone, Copy, Debug, PartialEq, Eq)]
pub struct OutOfMemory;

impl From<AllocError> for OutOfMemory {
    fn from(_: AllocError) -> Self {
        OutOfMemory
    }
}

impl<T: Drop> From<AllocFailed<T>> for OutOfMemory {
    fn from(_: AllocFailed<T>) -> Self {
        OutOfMemory
    }
}

/// The outside has failed, and has counted it.
#[derive(Clone, Copy, Debug, PartialEq, Eq)]
pub struct Failed;

/// What a limit counts.
#[derive(Clone, Copy, Debug, PartialEq, Eq)]
pub enum Quantity {
    /// The bytes of the mutation file.
    FileBytes,
    /// The lines of the mutation file.
    Lines,
    /// The bytes of a segment file that is read.
    SegmentBytes,
    /// The ids that the folder names.
    Ids,
    /// The sequences of a table's files.
    TableFiles,
}

/// Why bytes are no mutation's payload. A number is the offset, in bytes, of the field refused.
#[derive(Clone, Copy, Debug, PartialEq, Eq)]
pub enum PayloadFault {
    /// The field does not fit the bytes that are left.
    Short(u64),
    /// The tag of a cell is neither 0 nor 1.
    BadTag(u64),
    /// The number of updates is 0.
    Count,
    /// The text is not UTF-8.
    NotUtf8(u64),
    /// Bytes stand behind the last update, from this offset on.
    Trailing(u64),
    /// The length of a key or a column is 0 or above 255.
    NameLength(u64),
    /// The table is above 15.
    BadTable(u64),
    /// Memory was refused.
    OutOfMemory,
}
