//! The lines of a mutation file are logged by 1 to 64 writers, each in a thread of its own, over a
//! path over a store. What a writer does with its share of the lines is `clog_shares`' part; here
//! the path is opened and closed over a keeper, receipts are put at their lines, and the store is
//! drained where that is asked for. What is left then is said of all lines: of a whole run, and of
//! a crash.
#![tactic(auto)]

mod draining;
mod laws;
mod logging;
mod placing;
mod rows;
mod writing;

pub use clog_shares::{LineCounts, Plan, PlanFault, Syncing, Worker, WriteFault, deal, make_plan};
pub use laws::{
    first_lines_are_those_of_one_writer, lines_stand_in_the_order_of_their_segments,
    one_writer_logs_the_first_lines, the_first_of_a_history_are_the_first_of_each,
};
pub use logging::log_shares;
pub use rows::{
    a_flush_leaves_no_update_below_its_bound, a_line_comes_behind_the_earlier_ones_of_its_writer,
};
pub use writing::write_plan;
