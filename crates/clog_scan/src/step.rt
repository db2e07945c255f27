//! One step of the cursor: a marker where the last section has ended, and an entry within one.
ghost use Rattle.std.specs.Prelude.{◌≤◌, length};
ghost use Rattle.clog_scan.specs.Steps.{StepsTo};

use crate::answer::End;
use clog_entry::{Marker, read_entry, read_marker};

/// What stands at an offset.
pub enum Step {
    /// A marker, whose section ends at this offset.
    Section(u32),
    /// An entry, whose payload has this size.
    Entry(u32),
    /// Neither: the segment ends.
    End(End),
}

/// Reads what stands at an offset, in a section that ends at `until`.
pub fn next_step(bytes: &[u8], id: u64, at: u32, until: u32) -> Step
    requires order { at ≤ until }
    requires within { until ≤ length bytes.now }
    ensures { StepsTo bytes.now id at until result }
{
    if at < until {
        match read_entry(bytes, at, until) {
            Ok(size) => Step::Entry(size),
            Err(cause) => Step::End(End::Torn(at, cause)),
        }
    } else {
        match read_marker(bytes, id, at) {
            Ok(Marker::Section(next)) => Step::Section(next),
            Ok(Marker::End) => Step::End(End::Clean(at)),
            Err(cause) => Step::End(End::Torn(at, cause)),
        }
    }
}
