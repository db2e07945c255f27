//! What any bytes of a segment hold: the range of each entry, and where and why the segment ends.
//! The definition cuts the whole string; the code reads with a cursor (Cassandra's
//! `CommitLogReader`).
#![tactic(auto)]

mod answer;
mod feeding;
mod laws;
mod next;
mod piece_laws;
mod reading;
mod scanner;
mod step;
mod walking;
mod whole;

pub use answer::{End, Found, Founds, Scan};
pub use clog_entry::Cause;
pub use laws::{
    bytes_behind_the_end, entries_in_order, one_answer_for_any_bytes, reading_stops_at_the_end,
    sections_are_appended, tears_are_soft_behind_the_header, what_was_written_is_held,
};
pub use next::Next;
pub use piece_laws::{given_up_to, told_at_the_end};
pub use reading::scan;
pub use scanner::Scanner;
pub use walking::Walked;
pub use whole::Whole;
