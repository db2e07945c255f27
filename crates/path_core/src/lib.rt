//! The write path as a machine without threads: its state, the rows that say which single steps
//! are allowed and what each leaves, and what every step keeps. `path_machine` makes the steps.
#![tactic(auto)]

mod event;
mod holder_law;
mod keeper;
mod keeper_law;
mod law;
mod note;
mod seat;
mod state;
mod state_law;
mod step_law;

pub use event::{Carried, ClaimKind, Cursor, Event, Place, Reading, SwitchPart, Turn};
pub use holder_law::{
    a_part_tells_when_a_marker_waits, each_holder_keeps_the_last_marker,
    equal_parts_get_equal_answers, equal_parts_get_equal_answers_of_markers,
    only_the_holder_changes_the_last_marker, the_last_marker_tells_later_holders,
    the_last_marker_tells_when_it_may_be_synced, the_log_key_tells_of_entries_since_a_marker,
    the_stage_tells_when_a_memtable_may_be_retired, the_stage_tells_when_a_switch_is_through,
    the_stages_tell_when_a_barrier_is_wanted,
};
pub use keeper::{Keeper, KeeperFault};
pub use keeper_law::{
    a_first_entry_may_be_synced, a_fresh_keeper_drops_nothing, a_keeper_drops_one_list,
    a_sync_logs_what_was_pending, what_a_path_syncs_may_be_written, what_may_be_synced_can_be,
};
pub use law::{
    a_switch_has_a_holder, claims_never_overlap, closed_writes_are_placed_in_one_memtable,
    closed_writes_are_placed_once, dropped_entries_are_in_files, dropped_was_droppable,
    entries_up_to_a_passed_marker_are_deposited, every_past_is_lawful, every_run_is_lawful,
    files_are_of_retired_memtables, files_follow_one_another, files_hold_their_intervals,
    logged_is_the_synced_part, no_write_runs_in_a_passed_memtable, notes_are_a_history,
    notes_are_whole, opened_groups_are_new, opened_memtables_are_new,
    operations_run_in_the_current_group, passed_memtables_hold_their_intervals,
    passed_memtables_rest, retired_memtables_are_filed, runs_are_told_from_their_end,
    synced_is_the_start_of_a_marker, what_seats_found_stands, writes_are_placed_at_most_once,
};
pub use note::EntryNote;
pub use op_core::{Order, Tally};
pub use seat::{
    FlushTurn, Found, FoundBound, FoundGroups, Issue, LastMarker, Marked, Range, Seat, SeatTable,
    Switching, SyncTurn,
};
pub use state::{Bound, Claim, Memtable, OrderGroups, PathState, Placed, TableState, WrittenFile};
pub use state_law::{
    a_passed_memtable_holds_its_interval, a_step_opens_a_new_group, a_step_opens_a_new_memtable,
    all_run_in_the_group_behind_a_barrier, up_to_a_passed_marker_all_is_deposited,
    where_a_seats_group_stands,
};
pub use step_law::{a_step_changes_its_seat_alone, a_step_changes_its_word_alone, runs_keep_sizes};
