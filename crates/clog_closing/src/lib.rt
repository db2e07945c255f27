//! What an opening and a log of notes tell, as parts of a run of `apply` whose path is closed; what
//! appends have brought of lines; and how a store is drained.
#![tactic(auto)]

mod draining;
mod laws;
mod rows;

pub use draining::drain;
pub use laws::{
    a_run_may_follow, entries_apart_are_in_two_sections, logs_of_notes_are_appended,
    openings_are_those_of_runs, put_files_are_true, put_files_follow_one_another,
    segments_may_go_that_are_droppable, stores_are_left,
};
pub use rows::{
    a_drain_leaves_no_entry, a_table_file_comes_behind_its_entries, a_table_file_holds_what_lasts,
    segments_go_that_table_files_hold, segments_of_a_run_go_whole,
    table_files_of_a_run_stand_for_something, the_last_segment_alone_is_torn,
};
