//! Which part of the log a table may forget: the hull of a table's entries in a segment, and the
//! union of the intervals that its files hold (Cassandra's `CommitLogSegment`, dirty and clean).
#![tactic(auto)]

mod cleans;
mod hull;
mod interval;

pub use cleans::Cleans;
pub use clog_base::{OutOfMemory, Position};
pub use hull::Hull;
pub use interval::Interval;
