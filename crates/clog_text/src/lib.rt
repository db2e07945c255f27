//! Texts: the lines of a mutation file, what each says or why it is refused, cells as lines, and
//! made lines for drills.
#![tactic(auto)]

mod cell_text;
mod file;
mod generator;
mod read;
mod refusal;
mod split;
mod tokens;
mod usual;

pub use cell_text::{CellPrinter, cell_line};
pub use file::{read_lines, read_lines_in_parts, reading_laws};
pub use generator::{made, made_laws};
pub use read::read_line;
pub use refusal::{BadLine, Part};
pub use split::{Lines, SplitFault, line_laws, split_file};
