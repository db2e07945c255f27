//! What the files of a folder hold and restore to, how far they are good, and what a crash leaves
//! of them: definitions alone, over a folder's names and bytes, with the laws that follow from them
//! (Cassandra's `CommitLogReplayer` over its SSTables and segments, and the segments that
//! `CommitLog` writes).
#![tactic(auto)]

mod changing;
mod counting;
mod crashes;
mod dropping;
mod first_damage;
mod laws;
mod placing;
mod recovering;
mod tears;

pub use changing::{
    covered_segments_may_go, entries_add_their_cells, files_restore_what_they_read,
    merges_by_covering, merges_make_true_files, true_files_may_come,
};
pub use counting::{
    a_folder_has_one_count, an_update_counts_as_merged_or_as_skipped, appended_sections_are_a_log,
    appends_alone_bring_bytes, appends_grow_their_name,
};
pub use crashes::{
    a_crash_leaves_the_entry_or_nothing, archives_are_not_read, images_show_a_first_part,
    shown_stays_shown,
};
pub use dropping::{a_segment_goes_once_each_table_is_filed, droppable_segments_are_covered};
pub use first_damage::{
    a_bad_payload_is_damage, a_folder_has_one_first_bad_table, a_folder_has_one_first_damage,
    a_torn_segment_is_a_tail_or_damage,
};
pub use laws::{
    a_segment_of_another_version_is_damage, an_interval_skips_the_entry_that_ends_in_it,
    cells_of_table_files_and_of_the_log_count, each_payload_is_that_of_a_mutation,
    each_table_file_is_good, folders_restore_to_one_list, intervals_hold_their_upper_end,
    only_the_last_segment_may_be_torn, the_log_up_to_damage_is_the_whole_log,
};
pub use placing::{
    appended_segments_hold_their_entries, entries_are_cut_where_a_marker_stands,
    entries_that_follow_are_runs, the_next_section_is_a_run,
};
pub use recovering::{recovering_keeps_a_folder, recovery_files_are_true, skipped_or_not};
pub use tears::{
    cut_segments_have_nothing_by_chance, torn_sections_read_as_a_first_part,
    untorn_segments_have_nothing_by_chance,
};
