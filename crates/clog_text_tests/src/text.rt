//! What no clause says: that calls succeed with ample memory, and values from outside.
mod cells;
mod files;
mod generator;
mod limits;
mod lines;

use clog_text::{BadLine, read_line};
use std::alloc::{AllocError, Global};

// An update that is taken.
const GOOD: &str = "{\"table\":0,\"column\":\"c\",\"ts\":0,\"value\":null}";

// Why a line is refused, none where it is not.
fn refusal(alloc: Global, line: &str) -> Option<BadLine> {
    match read_line(alloc, line.as_bytes()) {
        Ok(_) => None,
        Err(cause) => Some(cause),
    }
}

// A line with these updates.
fn with_updates(alloc: Global, updates: &str) -> Result<String, AllocError> {
    format!(in alloc; "{{\"key\":\"k\",\"updates\":[{updates}]}}")
}
