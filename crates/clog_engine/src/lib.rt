//! The commit log as one call: `run` reads a mutation file, writes it to the log and tells what
//! came of it, does the same with lines that it makes, or tells what the folder or a segment of it
//! holds. Its clause is what is promised of a run, where the source and the disk tell what they
//! hold.
#![tactic(auto)]

mod applying;
mod before;
mod copies;
mod drilling;
mod fault_line;
mod input;
mod ordering;
mod printing;
mod receipts;
mod refusal;
mod replaying;
mod report;
mod running;
mod scan_report;
mod scanning;
mod shares;
mod sharing;
mod status;
mod summary;
mod words;

pub use fault_line::FaultLine;
pub use running::run;
pub use status::Status;
