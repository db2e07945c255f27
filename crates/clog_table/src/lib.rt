//! Table files: the cells of one table that an interval of the log holds, in version 1 of the
//! format.
#![tactic(auto)]

mod check;
mod checking;
mod decoding;
mod fault;
mod fault_text;
mod head;
mod laws;
mod raw_cell;
mod table_file;
mod writing;

pub use checking::check_file;
pub use clog_cells::{CellMap, OutOfMemory, Table};
pub use decoding::decode;
pub use fault::TableFault;
pub use fault_text::FaultText;
pub use head::Head;
pub use laws::table_laws;
pub use table_file::TableFile;
pub use writing::{encode, encode_parts};
