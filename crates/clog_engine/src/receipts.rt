//! Receipts: the position of each line's entry.
ghost use Rattle.std.specs.Prelude.{
  ◌≡◌,
  ◌+◌,
  ◌*◌,
  ◌≤◌,
  ◌++◌,
  length,
  vec_capacity,
  vec_len,
  IsOk,
  OnOk,
};
ghost use Rattle.clog_applied.specs.Printed.{receipt_line};
ghost use Rattle.clog_engine.specs.Report.{longest_receipt, receipts_told};

use clog_base::Position;
use itoa::Buffer;
use std::alloc::AllocError;
use write_path::Receipt;

/// The most bytes of a line in front of a report: of a receipt 10 digits of its number, 20 of an id
/// and 10 of an end, and 11 beside them.
pub(crate) const LONGEST_RECEIPT: usize = 51;

// Puts the receipt of a line, for which there is room: its number, and where its entry ends.
fn put_pieces(out: &mut Vec<u8>, number: u32, at: Position) -> Result<(), AllocError>
    requires room { vec_len out.old + longest_receipt ≤ vec_capacity out.old }
    ensures ok { IsOk result }
    ensures items { out.new.items ≡ out.old.items ++ receipt_line number at.id at.offset }
    ensures len { vec_len out.new ≤ vec_len out.old + longest_receipt }
    ensures capacity { vec_capacity out.old ≤ vec_capacity out.new }
{
    let mut buffer = Buffer::new();
    out.extend_from_slice(b"receipt ")?;
    out.extend_from_slice(buffer.format(number).as_bytes())?;
    out.push(b' ')?;
    out.extend_from_slice(buffer.format(at.id).as_bytes())?;
    out.push(b' ')?;
    out.extend_from_slice(buffer.format(at.offset).as_bytes())?;
    Ok(out.push(b'\n')?)
}

// Puts the receipt of a line. It is not refused where there is room for the longest.
fn put_receipt(out: &mut Vec<u8>, number: u32, at: Position) -> Result<(), AllocError>
    ensures items { OnOk result
        (out.new.items ≡ out.old.items ++ receipt_line number at.id at.offset) }
    ensures len { OnOk result (vec_len out.new ≤ vec_len out.old + longest_receipt) }
    ensures room { vec_len out.old + longest_receipt ≤ vec_capacity out.old → IsOk result }
    ensures capacity { vec_capacity out.old ≤ vec_capacity out.new }
{
    out.reserve(LONGEST_RECEIPT)?;
    put_pieces(out, number, at)
}

/// Puts receipts. It is not refused where there is room for as many of the longest.
pub(crate) fn put_told(out: &mut Vec<u8>, told: &[Receipt]) -> Result<(), AllocError>
    ensures items { OnOk result (out.new.items ≡ out.old.items ++ receipts_told told.now) }
    ensures len { OnOk result
        (vec_len out.new ≤ vec_len out.old + longest_receipt * length told.now) }
    ensures room { vec_len out.old + longest_receipt * length told.now ≤ vec_capacity out.old
        → IsOk result }
    ensures capacity { vec_capacity out.old ≤ vec_capacity out.new }
{
    for receipt in told {
        put_receipt(out, receipt.line, receipt.position)?;
    }
    Ok(())
}
