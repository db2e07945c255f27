//! The rules on what was found in a header's, a marker's or an entry's place, over plain numbers:
//! of each table the first rule that applies. They ask for no bytes but those judged, so a reader
//! of pieces calls them too.
ghost use Rattle.std.specs.Prelude.{◌≡◌, ◌<◌, ◌≤◌, ◌+◌, ◌^◌, length, OnOk};
ghost use Rattle.clog_spec.specs.Sizes.{frame_size};
ghost use Rattle.clog_entry.specs.Reading.{
  header_judged,
  marker_judged,
  size_judged,
  body_judged,
};

use crate::cause::Cause;
use crate::check::{body_check, header_check, marker_check, number_check};
use crate::marker::Marker;
use clog_base::{FRAME_SIZE, LEAST_PAYLOAD, MARKER_SIZE};

/// Judges a header with these fields in the segment of an id: its check, its version (6), its id
/// and its parameters (`{}`), in this order.
#[tactic(auto, unfolding(crate::specs::Reading::header_judged))]
pub fn judge_header(
    version: u32,
    found: u64,
    parameters: &[u8],
    check: u32,
    id: u64,
) -> Result<(), Cause>
    requires { length parameters.now < 2 ^ 16 }
    ensures { result ≡ header_judged version found parameters.now check id }
{
    if check != header_check(version, found, parameters) {
        return Err(Cause::HeaderCheck);
    }
    if version != 6 {
        return Err(Cause::Version(version));
    }
    if found != id {
        return Err(Cause::HeaderId(found));
    }
    if parameters != b"{}".as_slice() {
        return Err(Cause::Parameters);
    }
    Ok(())
}

/// Judges a marker with this target and check at an offset, in a file of `len` bytes that has room
/// for it. A marker of zeros ends the segment.
#[tactic(auto, unfolding(crate::specs::Reading::marker_judged))]
pub fn judge_marker(len: u64, id: u64, at: u32, target: u32, check: u32) -> Result<Marker, Cause>
    ensures { result ≡ marker_judged len id at target check }
{
    if target == 0 && check == 0 {
        return Ok(Marker::End);
    }
    if check != marker_check(id, at) {
        return Err(Cause::MarkerCheck);
    }
    let end = u64::from(target);
    if end < u64::from(at) + MARKER_SIZE as u64 || len < end {
        return Err(Cause::MarkerTarget(target));
    }
    Ok(Marker::Section(target))
}

/// Judges the size of a payload and its check, in an entry that begins where `room` bytes are left
/// in its section.
#[tactic(auto, unfolding(crate::specs::Reading::size_judged))]
pub fn judge_size(room: u32, size: u32, check: u32) -> Result<(), Cause>
    ensures rule { result ≡ size_judged room size check }
    ensures fits { OnOk result (frame_size + size ≤ room) }
{
    if (size as usize) < LEAST_PAYLOAD {
        return Err(Cause::SizeUnder10);
    }
    if check != number_check(size) {
        return Err(Cause::SizeCheck);
    }
    if (room as usize) < FRAME_SIZE + size as usize {
        return Err(Cause::PastSection);
    }
    Ok(())
}

/// Judges a payload, whose size is `size`, and the check behind it.
#[tactic(auto, unfolding(crate::specs::Reading::body_judged))]
pub fn judge_body(size: u32, check: u32, payload: &[u8]) -> Result<(), Cause>
    ensures { result ≡ body_judged size check payload.now }
{
    if check != body_check(number_check(size), size, payload) {
        return Err(Cause::BodyCheck);
    }
    Ok(())
}
