//! An entry of a segment that is read in pieces.

/// Where an entry lies, and its payload.
#[derive(Drop)]
pub struct Whole {
    /// Where the entry begins.
    pub start: u32,
    /// Where it ends, exclusive.
    pub end: u32,
    /// Its payload.
    pub payload: Vec<u8>,
}
