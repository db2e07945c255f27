//! A window of a segment is read as far as it goes.
ghost use Rattle.std.specs.Prelude.{◌<◌, ◌≤◌, ◌^◌, ◌+◌, length, IfOk};
ghost use Rattle.clog_scan.specs.Walks.{HasWalked};

use crate::answer::End;
use crate::next::{Next, next_of};
use crate::whole::Whole;
use clog_base::{FRAME_SIZE, MARKER_SIZE, OutOfMemory};
use clog_entry::ENTRY_FRONT_SIZE;
use std::alloc::Global;

/// What a window gives, and how far it is read.
#[derive(Drop)]
pub struct Walked {
    /// The entries.
    pub wholes: Vec<Whole>,
    /// The place up to which it is read.
    pub at: u32,
    /// The end of the section there.
    pub until: u32,
    /// The segment's end, where it was come to.
    pub end: Option<End>,
}

/// Reads a window that begins at `from`, in a section that ends at `until`.
pub(crate) fn walk(
    alloc: Global,
    len: u32,
    id: u64,
    window: &[u8],
    from: u32,
    until: u32,
) -> Result<Walked, OutOfMemory>
    requires short { len < 2 ^ 31 }
    requires inside { from + length window.now ≤ len }
    requires order { from ≤ until }
    requires within { until ≤ len }
    ensures { IfOk result (HasWalked len id window.now from until) }
{
    let mut wholes = Vec::new(alloc);
    let mut at = from;
    let mut until = until;
    loop {
        let rest = &window[(at - from) as usize..];
        match next_of(len, id, rest, at, until) {
            Next::Section(next) => {
                at += MARKER_SIZE as u32;
                until = next;
            }
            Next::Entry(size) => {
                let end = at + size + FRAME_SIZE as u32;
                let payload = rest[ENTRY_FRONT_SIZE..ENTRY_FRONT_SIZE + size as usize].to_vec(
                    alloc,
                )?;
                wholes.push(Whole {
                    start: at,
                    end,
                    payload,
                })?;
                at = end;
            }
            Next::End(end) => {
                return Ok(Walked {
                    wholes,
                    at,
                    until,
                    end: Some(end),
                });
            }
            Next::Wait => {
                return Ok(Walked {
                    wholes,
                    at,
                    until,
                    end: None,
                });
            }
        }
    }
}
