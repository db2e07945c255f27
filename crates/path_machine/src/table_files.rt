//! Whether a table's files hold all that a segment holds of it: each key from the least to the
//! greatest position of the segment's entries that touch the table. The files are walked from one
//! to the one behind it, and no key twice.
ghost use Rattle.std.specs.Prelude.{◌≡◌, ◌<◌, false, MatchOption};
ghost use Rattle.path_core.specs.Droppable.{
  is_in_file,
  is_filed,
  is_of,
  are_filed,
  is_table_filed,
};
ghost use Rattle.path_machine.specs.Spans.{AreFiledTo, IsSpan, widened};

use crate::keys::ordinal;
use crate::seat_steps::touches;
use path_core::{EntryNote, PathState, WrittenFile};

/// The least and the greatest of some positions.
#[derive(Clone, Copy, Debug, PartialEq, Eq)]
pub(crate) struct Span {
    /// The least of the ends, as a key.
    pub least: u64,
    /// The greatest of the ends, as a key.
    pub greatest: u64,
}

fn is_in_file(file: &WrittenFile, table: u64, key: u64) -> bool
    ensures { result ≡ is_in_file table key file.now }
{
    file.table == table && file.lower < key && key <= file.upper
}

// The last key of a file of the table that holds a key, if there is one.
fn end_of_file(files: &[WrittenFile], table: u64, key: u64) -> Option<u64>
    ensures { MatchOption result (is_filed files.now table key ≡ false)
        (λ end. AreFiledTo files.now table key end) }
{
    for file in files {
        if is_in_file(file, table, key) {
            return Some(file.upper);
        }
    }
    None
}

// Whether each key from one to another lies in the table's files.
fn are_filed(files: &[WrittenFile], table: u64, from: u64, to: u64) -> bool
    ensures { result ≡ are_filed files.now table from to }
{
    let mut key = from;
    while key <= to {
        let Some(end) = end_of_file(files, table, key) else {
            return false;
        };
        if end >= to {
            return true;
        }
        key = end + 1;
    }
    true
}

fn is_of(note: &EntryNote, segment: u64, table: u8) -> bool
    requires { table < 16 }
    ensures { result ≡ is_of segment table note.now }
{
    ordinal(note.start.0) == segment && touches(note.tables, table)
}

// The span with one position more.
fn widened(span: Option<Span>, position: u64) -> Span
    ensures { result ≡ widened span position }
{
    match span {
        None => Span {
            least: position,
            greatest: position,
        },
        Some(span) => Span {
            least: span.least.min(position),
            greatest: span.greatest.max(position),
        },
    }
}

// The span of the positions of the segment's entries that touch the table.
fn span_of(notes: &[EntryNote], segment: u64, table: u8) -> Option<Span>
    requires { table < 16 }
    ensures { IsSpan segment table notes.now result }
{
    let mut found = None;
    for note in notes {
        if is_of(note, segment, table) {
            found = Some(widened(found, note.end.0));
        }
    }
    found
}

/// Whether the table's files hold the segment's entries that touch it, and all between them.
pub(crate) fn is_table_filed(state: &PathState, segment: u64, table: u8) -> bool
    requires { table < 16 }
    ensures { result ≡ is_table_filed state.now segment table }
{
    match span_of(state.notes.as_slice(), segment, table) {
        Some(span) => {
            let files = state.files.as_slice();
            are_filed(files, u64::from(table), span.least, span.greatest)
        }
        None => true,
    }
}
