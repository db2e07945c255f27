//! The log of a keeper and what it holds beside it, over the log of sections of `clog_segments`:
//! notes are made lasting, table files come, and segments go. What each call makes of the folder is
//! said there, which segments may go in `clog_due`, and here what a path is told of it.
#![tactic(auto)]

mod folder_laws;
mod kept;
mod naming;
mod next;
mod note_log;
mod note_order;
mod note_sections;
mod note_steps;
mod note_writing;
mod noting;
mod store;
mod taking_laws;

pub use folder_laws::{
    a_due_segment_at_hand_lasts, a_folder_after_a_sync_is_a_stores,
    a_folder_stays_a_stores_in_a_later_segment, a_folder_with_a_put_file_is_a_stores,
    a_store_has_a_next_sequence, a_store_has_all_on_disk, a_store_has_gone_on_far_enough,
    an_opened_folder_is_a_stores, what_a_store_may_publish_is_true,
};
pub use naming::table_files_take_the_next_sequences;
pub use note_log::NoteLog;
pub use noting::{a_note_tells_its_place, four_notes_are_three_sections, notes_are_runs};
pub use store::{Store, a_store_crosses_threads};
pub use taking_laws::a_log_takes_what_comes_next;
