//! A cell where it stands in a file, field by field from the left. Nothing is copied.
ghost use Rattle.std.specs.Prelude.{length};
ghost use Rattle.clog_fields.specs.Reading.{Finds};
ghost use Rattle.clog_table.specs.RawFields.{fields_of};
ghost use Rattle.clog_table.specs.Reading.{cell_at};

use clog_base::{Kind, PayloadFault};
use clog_fields::{name, timestamp, value};

/// The fields of a cell.
#[derive(Clone, Copy)]
pub struct RawCell<'a> {
    /// The partition's key: 1 to 255 bytes.
    pub key: &'a str,
    /// The column's name: 1 to 255 bytes.
    pub column: &'a str,
    /// The timestamp.
    pub ts: i64,
    /// Whether the cell is deleted or lives.
    pub kind: Kind,
    /// The value of a live cell; no bytes at a deletion.
    pub value: &'a str,
}

/// The cell at the front, and the bytes behind it; where none stands there, the fault of the first
/// field that is none, at its offset.
#[tactic(auto, unfolding(crate::specs::Reading::cell_at))]
pub(crate) fn cell(bytes: &[u8]) -> Result<(RawCell<'_>, &[u8]), PayloadFault>
    ensures { Finds (λ x. (fields_of x.0, x.1.now)) result (cell_at (length bytes.now) bytes.now) }
{
    let end = bytes.len();
    let (key, rest) = name(end, bytes)?;
    let (column, rest) = name(end, rest)?;
    let (ts, rest) = timestamp(end, rest)?;
    let ((kind, value), rest) = value(end, rest)?;
    let cell = RawCell {
        key,
        column,
        ts,
        kind,
        value,
    };
    Ok((cell, rest))
}
