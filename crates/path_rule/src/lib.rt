//! The rule of a write path over a table of words and boxes that threads share. Each atomic step of
//! a seat on one word is one step of the machine without threads (`path_core`), made by the seat of
//! the same number; so under every schedule there is one run of the machine that the words, the
//! boxes and what the seats know show, and its law holds at each moment.
//!
//! Nothing here runs: `path_table` makes the steps, each as a play that tells what it has done.
#![tactic(auto)]

mod answer;
mod filing_plays;
mod flush_plays;
mod lasting;
mod laws;
mod plays;
mod rule;
mod slot;
mod table_plays;
mod trail_laws;
mod turn_plays;
mod view;

pub use answer::SyncAnswer;
pub use filing_plays::{LookFiled, NoteFiling, RetireFiled, StopFiling};
pub use flush_plays::{BeginEmptying, BeginRead, EndRead, GiveRead, RetireEmpty, TakeRead};
pub use lasting::{Beside, Filed, Lasting, PutTable};
pub use laws::{
    a_stopped_log_takes_nothing, a_stopped_log_tells_a_count_that_has_risen,
    each_box_has_one_holder, each_memtable_box_has_one_holder, each_table_file_holds_its_interval,
    gathering_reaches_the_last_marker, groups_and_memtables_are_paid_for,
    the_keeper_at_home_shows_what_is_lasting, the_table_shows_a_lawful_state,
    what_lies_in_memtables_was_placed, what_was_archived_is_droppable,
    what_was_dropped_is_droppable, what_was_placed_lies_in_memtables,
    what_was_seen_is_the_memtables_interval, without_files_nothing_goes,
};
pub use plays::{
    ClaimAt, Deal, DepositIn, FinishIn, GiveMemtable, JoinIn, LookAt, Merge, RegisterIn, StopIn,
    TakeMemtable, WithdrawFrom,
};
pub use rule::PathRule;
pub use slot::{Desk, Slot};
pub use table_plays::{
    ClearPlace, FinaliseMemtable, GiveFlush, MarkMemtable, OpenMemtable, RaiseBound, TakeFlush,
};
pub use trail_laws::what_a_trail_finds_of_memtables;
pub use turn_plays::{
    AdvanceAppend, AdvanceWrite, ClaimMarker, ExpireAppend, ExpireWrite, GatherBox, GiveBack,
    GiveSync, KeepRefused, LookLent, MoveAppend, MoveWrite, OpenAppend, OpenWrite, PutStopped,
    PutSynced, TakeSync,
};
pub use view::{FlushRead, Hands, OwnStep, PathKey, PathSize, Progress, Returned, Role, View};
