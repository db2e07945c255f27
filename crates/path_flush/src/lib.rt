//! Switches and flushes of a table's memtable (`ColumnFamilyStore.Flush`), over the table of words
//! and boxes that seats share: a seat takes the table's Flush turn and beside it the Sync turn,
//! makes the newest memtable final, waits for its barrier, and reads what lies in it; a flush has
//! the keeper put its table file.
#![tactic(auto)]

mod flush_answer;
mod flush_ending;
mod flush_filing;
mod flush_gathering;
mod flush_lasting;
mod flush_noting;
mod flush_passing;
mod flush_reading;
mod flush_retire;
mod flush_retiring;
mod flush_rounds;
mod flush_switch;
mod flush_turn;
mod flushing;
mod giving;
mod going_on;
mod switch_answer;
mod switching;

pub use flush_answer::Flush;
pub use flushing::flush_memtable;
pub use giving::{give_flush_turn, give_sync_turn};
pub use switch_answer::Switch;
pub use switching::switch_memtable;
