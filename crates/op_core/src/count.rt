//! What is counted: the operations of a group, in one of two orders.

/// The two orders in which operations run.
#[derive(Clone, Copy, Debug, PartialEq, Eq)]
pub enum Order {
    /// From before the claim until the last update is applied; flushes issue its barriers.
    Write,
    /// From before the claim until the entry is deposited; syncs issue its barriers.
    Append,
}

/// The running count of a group. As a signed number an open one with `r` operations is `r`, and an
/// expired one with `r` left is `-(r + 1)`; -1 is finished.
#[derive(Clone, Copy, Debug, PartialEq, Eq)]
pub enum Tally {
    /// Operations may still register: how many are in it.
    Open(u64),
    /// None may register any more: how many are left.
    Expired(u64),
}

/// Why a call on a group was refused; the number is the count that was found.
#[derive(Clone, Copy, Debug, PartialEq, Eq)]
pub enum GroupFault {
    /// No operation may register in it any more.
    Expired(i64),
    /// The group was not made.
    NoGroup,
    /// No operation runs in it.
    Idle(i64),
    /// As many groups were made as may be.
    Last,
}
