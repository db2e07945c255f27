//! The write path stepped: `Path` makes each step of `path_core` exactly where its row allows it,
//! and leaves exactly what the row says. And a keeper over lists, which needs no disk.
#![tactic(auto)]

mod bound;
mod claim_allowed;
mod close_changes;
mod cursor_allowed;
mod drop_changes;
mod file_changes;
mod group_changes;
mod groups_known;
mod keys;
mod lawful_path;
mod list_keeper;
mod log_changes;
mod making;
mod move_changes;
mod names;
mod order_allowed;
mod path;
mod reading;
mod seat_asks;
mod seat_steps;
mod step_allowed;
mod table_allowed;
mod table_changes;
mod table_files;
mod table_steps;
mod turn_allowed;
mod turn_changes;

pub use bound::accepts;
pub use lawful_path::LawfulPath;
pub use list_keeper::{ListFile, ListKeeper};
pub use path::{Path, StepFault};
