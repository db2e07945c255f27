//! Which of two cells counts, and the merge of many.
#![tactic(auto)]

mod batches;
mod bulk;
mod cell_map;
mod laws;
mod newest;
mod parting;

pub use batches::CellBatches;
pub use cell_map::{CellMap, LentCell};
pub use clog_base::{Cell, CellKey, Kind, OutOfMemory, Table, Text};
pub use laws::{merge_laws, order_laws, parting_laws};
pub use newest::newer;
