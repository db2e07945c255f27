//! Which segments of a store may go: those that are closed, of which no refused sync keeps an
//! entry, and whose entries lie in table files, each table's from the first to the last and what is
//! between. It is computed by what is counted of the store, each of its entries, its table files
//! and its dropped segments once. Kept (`IsCounted`): what was counted is the first of them, so
//! that a further count begins behind it. Laws say that what may go is covered by table files, in
//! which order it goes, and that the folder is the store's still once it has gone.
#![tactic(auto)]

mod counted;
mod droppable;
mod going_laws;
mod hulls;
mod ordering;
mod stored_file;
mod table_log;

pub use counted::{Counted, hold_all};
pub use droppable::due_segments_are_covered;
pub use going_laws::{
    a_folder_with_some_dropped_is_a_stores, a_folder_without_dropped_segments_is_a_stores,
    due_segments_of_a_store_are_covered, due_segments_of_a_store_may_be_dropped,
};
pub use ordering::{a_segment_goes_behind_its_table_file, a_segment_waits_for_both_its_tables};
pub use stored_file::StoredFile;
