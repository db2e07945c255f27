//! The receipts of what was logged, in the order of the lines.
ghost use Rattle.std.specs.Prelude.{◌≡◌, ◌<◌, ◌+◌, ◌^◌, ℕ, length, slice_index_or};
ghost use Rattle.clog_base.specs.Positions.{position_of};
ghost use Rattle.clog_writers.specs.Placed.{AreAtTheirLines};
ghost use Rattle.write_path.specs.declared.commit.Receipt.{Receipt as ReceiptOf};

use clog_base::Key;
use path_core::EntryNote;
use write_path::Receipt;

// The receipt of a line whose entry ends at a key.
fn receipt(base: u64, line: u32, end: Key) -> Receipt
    requires { base < 2 ^ 62 }
    ensures { result ≡ record { line = line; position = position_of base end.0 } }
{
    Receipt {
        line,
        position: end.position(base),
    }
}

// Puts the receipt of an entry at the place of its line, where there is one.
fn place_receipt(base: u64, line: u32, end: Key, receipts: &mut [Receipt])
    requires { base < 2 ^ 62 }
    ensures long { length receipts.new ≡ length receipts.old }
    ensures here { (i : ℕ) (d : ReceiptOf) → line ≡ i + 1 → i < length receipts.old
        → slice_index_or receipts.new i d
        ≡ record { line = line; position = position_of base end.0 } }
    ensures others { (i : ℕ) (d : ReceiptOf) → (line ≡ i + 1 → ⊥)
        → slice_index_or receipts.new i d ≡ slice_index_or receipts.old i d }
{
    let number = line as usize;
    if 0 < number && number <= receipts.len() {
        receipts[number - 1] = receipt(base, line, end);
    }
}

/// Puts the receipt of each entry at the place of its line, where there is one. The segment of
/// ordinal 0 has the id `base`.
pub fn place_receipts(base: u64, notes: &[EntryNote], receipts: &mut [Receipt])
    requires { base < 2 ^ 62 }
    ensures long { length receipts.new ≡ length receipts.old }
    ensures placed { AreAtTheirLines base notes.now receipts.new }
{
    for note in notes {
        place_receipt(base, note.line, note.end, receipts);
    }
}
