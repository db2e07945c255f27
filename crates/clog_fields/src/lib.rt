//! The fields that payloads and table files are made of: names and values with their lengths, tags
//! and timestamps. How each is written and read, and its limits. Numbers are big endian.
#![tactic(auto)]

mod reading;
mod writing;

pub use reading::{byte, name, place, short_number, timestamp, value};
pub use writing::{put_name, put_timestamp, put_value, value_size};
