//! Mutations as their payloads hold them: nothing is copied.
use clog_base::{Kind, Table};

/// One cell that a mutation writes, as its payload holds it.
#[derive(Clone, Copy)]
pub struct LentUpdate<'a> {
    /// The table.
    pub table: Table,
    /// The column's name: 1 to 255 bytes.
    pub column: &'a str,
    /// The timestamp that its writer gave it.
    pub ts: i64,
    /// Whether it is deleted or lives.
    pub kind: Kind,
    /// The value of a live cell; no bytes at a deletion.
    pub value: &'a str,
}

/// The updates of one key, as their payload holds them. The first stands apart, so that one update
/// takes no memory.
#[derive(Drop)]
pub struct LentMutation<'a> {
    /// The partition's key: 1 to 255 bytes.
    pub key: &'a str,
    /// The first update.
    pub first: LentUpdate<'a>,
    /// The others, in order: at most 65534.
    pub more: Vec<LentUpdate<'a>>,
}
