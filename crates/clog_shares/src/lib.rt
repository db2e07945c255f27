//! Each writer's share of the lines of a mutation file, over a path with any keeper: its writes are
//! prepared by several threads, with all of their memory, before the first of them is written; then
//! 1 to 64 writers log their shares, each in a thread of its own (Cassandra's mutation stage, whose
//! threads call `CommitLog.add`). Line `n`, from 1, is written by the writer of number `n` modulo
//! their count, each writer's lines in order. A writer may flush each table of which it has logged
//! so many updates since its last flush of it.
#![tactic(auto)]

mod crew;
mod dealing;
mod fault;
mod finishing;
mod flushing;
mod planning;
mod preparing;
mod returning;
mod run;
mod share;
mod stop_flag;
mod syncing;
mod tally;
mod worker;

pub use crew::{commit_all, seat_all};
pub use dealing::deal;
pub use fault::{PlanFault, WriteFault};
pub use planning::{Plan, make_plan};
pub use returning::end_all;
pub use syncing::Syncing;
pub use tally::LineCounts;
pub use worker::Worker;
