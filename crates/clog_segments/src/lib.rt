//! The calls by which a store changes a folder: a folder that a crash left is recovered, sections
//! are written and made to last, table files come, and segments go. Each says what stands when it
//! has ended, and what a crash at any moment within it may leave. `SectionLog` is a log behind an
//! opening, over as many segments as it takes.
#![tactic(auto)]

mod changing;
mod discarding;
mod failing_laws;
mod lasting;
mod laws;
mod naming;
mod opening;
mod payloads;
mod publishing;
mod reading;
mod recovering;
mod recovery_files;
mod section_log;
mod sections;
mod sequences;
mod written;

pub use changing::{put_table, take_away};
pub use discarding::{Halt, drop_segments};
pub use failing_laws::{
    a_failed_put_leaves_no_bad_table_file, a_torn_segment_at_hand_reads_as_a_first_part,
};
pub use lasting::{what_is_logged_lasts, what_lasts_stays, what_was_logged_stays};
pub use laws::{
    a_recovery_puts_one_file_a_table, an_opened_folder_can_be_opened,
    what_a_store_leaves_can_be_opened, what_a_store_leaves_is_bytes,
    what_an_opening_leaves_can_be_opened, what_an_opening_leaves_is_bytes,
    what_can_be_opened_is_opened,
};
pub use opening::recover;
pub use payloads::Payloads;
pub use publishing::{Published, publish_file, what_may_be_published_is_true};
pub use recovering::{put_recovered, take_all_recovered, take_recovered};
pub use section_log::{DropFault, SectionLog};
pub use sections::{keep_sections, settle_sections};
pub use sequences::Sequences;
pub use written::{PastSegment, StoreFault, Written};
