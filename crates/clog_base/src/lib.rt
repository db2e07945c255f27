//! Positions, keys, sizes, names of files, cells and checks, the faults that several layers hand
//! on, how many threads share a piece of work, and values that one drops in the background.
#![tactic(auto)]

mod cell;
mod crc;
mod crc_tables;
mod fault;
mod file_name;
mod format;
mod name;
mod name_reading;
mod name_text;
mod parsed_name;
mod position;
mod row;
mod rows;
mod sizes;
mod text;
mod text_row;
mod threads;

pub use cell::{Cell, CellKey, Kind, Table, Writer};
pub use crc::{crc32, crc32_int, crc32_more, crc32_plain};
pub use fault::{Failed, OutOfMemory, PayloadFault, Quantity};
pub use file_name::{archive_name, segment_name, table_name};
pub use format::{
    FILE_LIMIT, FRAME_SIZE, FRONT_SIZE, GREATEST_CAPACITY, HEADER_SIZE, LEAST_CAPACITY,
    LEAST_PAYLOAD, LINE_LIMIT, LONGEST_FILE_NAME, LONGEST_NAME, MARKER_SIZE, MOST_SEGMENTS,
    MOST_TABLES, MOST_UPDATES, MOST_WRITERS, format_laws,
};
pub use name::Name;
pub use parsed_name::{
    SegmentName, name_laws, parse_archive_name, parse_segment_name, parse_table_name,
};
pub use position::{Key, Position, position_laws};
pub use row::put;
pub use rows::{Bytes, Rows};
pub use sizes::Sizes;
pub use text::Text;
pub use text_row::TextRow;
pub use threads::{drop_in_background, thread_count};
