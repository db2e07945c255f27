//! What a run of `apply` promises once it has ended well, with any number of writers, segments and
//! table files, and what its opening, its path and its store have to tell for that: definitions
//! over histories, folders and changes, with the laws that follow from them (Cassandra's
//! `CommitLog`, `ColumnFamilyStore.Flush` and `CommitLogReplayer` seen from outside).
#![tactic(auto)]

mod laws;
mod worked;
mod wrong;

pub use laws::{closed_runs_keep_their_promises, kept_merges_are_added};
pub use worked::{
    a_drained_line_is_in_a_table_file, a_line_comes_behind_a_table_file,
    lines_are_synced_once_or_each, lines_go_on_in_the_next_segment,
};
pub use wrong::{
    wrong_changes_are_refused, wrong_files_and_receipts_are_refused, wrong_histories_are_refused,
};
