//! A table file is checked without keeping its cells: only the last cell read is held, where it
//! stands in the bytes. Nothing is copied, so memory is never refused.
ghost use Rattle.std.specs.Prelude.{◌≡◌, ◌≢◌, ◌≤◌, ◌↔◌, length, IsTrue, IfErr};
ghost use Rattle.std.specs.Ordering.{is_lt};
ghost use Rattle.clog_table.specs.declared.fault.TableFault.TheVariants.{OutOfMemory as no_memory};
ghost use Rattle.clog_table.specs.RawFields.{fields_of};
ghost use Rattle.clog_table.specs.Format.{head_size, behind_head};
ghost use Rattle.clog_table.specs.LastCell.{
  last_of,
  fields_cmp,
  StandsAbove,
  NextCell,
  ReadsAll,
  Checks,
};

use crate::decoding::judge_end;
use crate::fault::TableFault;
use crate::head::{HEAD_SIZE, Head, head_of};
use crate::raw_cell::{self, RawCell};
use clog_base::Table;
use std::cmp::Ordering;

fn is_below(a: RawCell<'_>, b: RawCell<'_>) -> bool
    ensures { result ≡ is_lt (fields_cmp (fields_of a.entry) (fields_of b.entry)) }
{
    a.key.cmp(b.key).then(a.column.cmp(b.column)) == Ordering::Less
}

fn stands_above(last: Option<RawCell<'_>>, cell: RawCell<'_>) -> bool
    ensures { IsTrue result ↔ StandsAbove (last_of last.entry) (fields_of cell.entry) }
{
    match last {
        Some(last) => is_below(last, cell),
        None => true,
    }
}

/// The cell at the front, which stands at an offset of the file, and what is behind it.
fn next_cell<'a>(
    last: Option<RawCell<'_>>,
    bytes: &'a [u8],
    at: u64,
) -> Result<(RawCell<'a>, &'a [u8]), TableFault>
    ensures exact { NextCell (last_of last.entry) at bytes.now result }
    ensures known { IfErr result (λ fault. fault ≢ no_memory) }
{
    let Ok((cell, rest)) = raw_cell::cell(bytes) else {
        return Err(TableFault::Cell(at));
    };
    if !stands_above(last, cell) {
        return Err(TableFault::Order(at));
    }
    Ok((cell, rest))
}

/// What stands behind all cells of a head.
fn rest_of(bytes: &[u8], head: Head) -> Result<&[u8], TableFault>
    requires { head_size ≤ length bytes.now }
    ensures exact { ReadsAll bytes.now head.table head.count (behind_head bytes.now) result }
    ensures known { IfErr result (λ fault. fault ≢ no_memory) }
{
    let mut last = None;
    let mut rest = bytes.split_at(HEAD_SIZE).1;
    for _ in 0..head.count {
        let at = (bytes.len() - rest.len()) as u64;
        // A match in place of `?`, since the exit speaks of what was read.
        match next_cell(last, rest, at) {
            Ok((cell, behind)) => {
                last = Some(cell);
                rest = behind;
            }
            Err(fault) => return Err(fault),
        }
    }
    Ok(rest)
}

/// The head of the table file that these bytes spell, or the first rule of the format that they
/// break, as `decode` finds it. It takes no memory.
pub fn check_file(bytes: &[u8], table: Table) -> Result<Head, TableFault>
    ensures exact { Checks table bytes.now result }
    ensures known { IfErr result (λ fault. fault ≢ no_memory) }
{
    let head = head_of(bytes, table)?;
    // Matches in place of `?`, since the exits speak of what was read.
    match rest_of(bytes, head) {
        Ok(rest) => match judge_end(bytes, rest) {
            Ok(()) => Ok(head),
            Err(fault) => Err(fault),
        },
        Err(fault) => Err(fault),
    }
}
