//! What stands in front of the next section's entries: its marker, and in front of it the header
//! where the segment's file is not there yet.
ghost use Rattle.std.specs.Prelude.{◌≡◌, ◌++◌, ◌+◌, ◌<◌, ◌^◌, IfOk};
ghost use Rattle.clog_spec.specs.Segment.{header_bytes, marker_bytes};
ghost use Rattle.clog_spec.specs.Sizes.{front_size, header_size, marker_size};
ghost use Rattle.clog_segments.specs.NoteSections.{IsFrontOf};

use clog_base::{FRONT_SIZE, HEADER_SIZE, MARKER_SIZE};
use clog_entry::{write_header, write_marker};
use std::alloc::{AllocError, Global};

// The header and the marker of a first section, with room for so many bytes behind them.
fn first_front(alloc: Global, id: u64, long: u32) -> Result<Vec<u8>, AllocError>
    requires room { front_size + long < 2 ^ 31 }
    ensures { IfOk result (λ front. front.items
        ≡ header_bytes id ++ marker_bytes id header_size (header_size + marker_size + long)) }
{
    let mut front = Vec::with_capacity(alloc, FRONT_SIZE + long as usize)?;
    let at = HEADER_SIZE as u32;
    front.extend_from_slice(&write_header(id))?;
    front.extend_from_slice(&write_marker(id, at, at + MARKER_SIZE as u32 + long))?;
    Ok(front)
}

// The marker of a section behind others, with room for so many bytes behind it.
fn later_front(alloc: Global, id: u64, at: u32, long: u32) -> Result<Vec<u8>, AllocError>
    requires room { at + marker_size + long < 2 ^ 31 }
    ensures { IfOk result (λ front. front.items
        ≡ marker_bytes id at (at + marker_size + long)) }
{
    let mut front = Vec::with_capacity(alloc, MARKER_SIZE + long as usize)?;
    front.extend_from_slice(&write_marker(id, at, at + MARKER_SIZE as u32 + long))?;
    Ok(front)
}

/// What stands in front of so many bytes of entries, in a segment whose file has this size. The
/// entries have their room behind it, so that they are copied once.
pub(crate) fn front_of(alloc: Global, id: u64, size: u32, long: u32) -> Result<Vec<u8>, AllocError>
    requires room { size + front_size + long < 2 ^ 31 }
    ensures { IfOk result (λ front. IsFrontOf id size long front.items) }
{
    if size == 0 {
        first_front(alloc, id, long)
    } else {
        later_front(alloc, id, size, long)
    }
}
