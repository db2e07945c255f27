//! Items go from one thread to many through a bounded queue: each is taken once, by a worker or by
//! the thread that pushes. What is done with an item is the caller's: each thread has a state of
//! its own, and the states are joined at the end.
//!
//! What keeps it so is the queue's rule (`rule`). What was put is, in some order, what was taken
//! and what the queue holds. Each thread's pass has parts of the right to know that: 1024 in all,
//! of which a worker has one. Once all parts are joined again and the queue is empty, what was
//! taken is what was put.
//!
//! No order of items, no thread's progress and no end mark is rested on.
#![tactic(auto)]

mod done;
mod pusher;
mod pushing;
mod queue;
mod rule;
mod running;
mod work;
mod working;

pub use queue::Queue;
pub use rule::{Bench, Cut, Fair, Hand, Hold, Job, Puts, Takes};
pub use running::run;
pub use work::{Own, Sink, Source, Work};
