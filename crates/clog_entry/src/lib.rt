//! The framing of a segment: its header, the markers of its sections and its entries, written and
//! read (Cassandra's `CommitLogDescriptor`, and the sync markers of its `CommitLogSegment`).
//! Writers and readers meet only in the format, the definitions of `clog_spec`.
#![tactic(auto)]

mod cause;
mod cause_text;
mod check;
mod judging;
mod marker;
mod reader;
mod writer;

pub use cause::Cause;
pub use check::ENTRY_FRONT_SIZE;
pub use judging::{judge_body, judge_header, judge_marker, judge_size};
pub use marker::Marker;
pub use reader::{read_entry, read_header, read_marker};
pub use writer::{begin_entry, end_entry, put_entry, write_entry, write_header, write_marker};
