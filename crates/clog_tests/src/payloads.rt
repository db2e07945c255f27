//! Payloads of lines, which several tests log.
ghost use Rattle.std.specs.Prelude.{IfOk};
ghost use Rattle.std.specs.List.{AllByRecursion};
ghost use Rattle.clog_mutation.specs.Limits.{IsWithinLimits};

use clog_mutation::{Mutation, decode};
use std::alloc::Global;
use std::test::Fail;

/// Key `ab`, one update: table 0, column `cd`, timestamp 5, a deletion: 20 bytes.
pub(crate) const DELETION: &[u8] =
    b"\x00\x02ab\x00\x01\x00\x00\x02cd\x00\x00\x00\x00\x00\x00\x00\x05\x00";

// The lines with these payloads.
pub(crate) fn lines_of(alloc: Global, payloads: &[&[u8]]) -> Result<Vec<Mutation>, Fail>
    ensures { IfOk result (λ lines. AllByRecursion IsWithinLimits lines.items) }
{
    let mut lines = Vec::new(alloc);
    for payload in payloads {
        match decode(alloc, payload) {
            Ok(line) => lines.push(line)?,
            Err(_) => return Err(Fail::new("no payload")),
        }
    }
    Ok(lines)
}
