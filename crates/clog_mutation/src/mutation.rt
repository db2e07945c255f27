//! Mutations: the cells that one write puts under one key.
use clog_base::{Cell, Rows, Table, Text};

/// One cell that a mutation writes (Cassandra's column of a `PartitionUpdate`).
#[derive(Drop)]
pub struct Update {
    /// The table.
    pub table: Table,
    /// The column's name: 1 to 255 bytes.
    pub column: Text,
    /// What is written there.
    pub cell: Cell,
}

/// Updates, in their order.
pub type Updates = Rows<Update>;

/// The updates of one key (Cassandra's `Mutation`).
#[derive(Drop)]
pub struct Mutation {
    /// The partition's key: 1 to 255 bytes.
    pub key: Text,
    /// What is written under it, in order: 1 to 65535 updates.
    pub updates: Updates,
}

/// Mutations, in their order.
pub type Mutations = Rows<Mutation>;
