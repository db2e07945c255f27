//! What is published in these tests.

/// The value of a key.
#[derive(Clone, Copy, Debug, PartialEq, Eq)]
pub struct Row {
    pub key: u64,
    pub value: u64,
}
