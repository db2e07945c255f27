//! The lines of a file, as ranges of its bytes. A range never holds 0A, and each line's range is
//! where the line stands.
ghost use Rattle.std.specs.Prelude.{◌≡◌, ◌+◌, ◌<◌, ℕ, List, ◌∷◌, length, drop, Err, IfOk};
ghost use Rattle.clog_text.specs.FileLines.{lines_of, line_limit, piece_of, AreLines};
ghost use Rattle.clog_text.specs.FileLines.{IsRangeWithin, Splits};

use clog_base::Rows;
use memchr::memchr;
use std::alloc::Global;
use thiserror::Error;

// The greatest number of lines, as a length.
const LINE_LIMIT: usize = clog_base::LINE_LIMIT as usize;

/// The ranges of a file's lines in its bytes, in the order of the file: the start and the end of
/// each, half open, without the newline.
pub type Lines = Rows<(usize, usize)>;

/// Why a file was not split.
#[derive(Debug, Drop, Error)]
pub enum SplitFault {
    /// The file has more than 1,000,000 lines.
    #[error("more than {LINE_LIMIT} lines")]
    Limit,
    /// Memory was refused.
    #[error("out of memory")]
    OutOfMemory,
}

/// What lines a file has. No line holds 0A, laid end to end with 0A behind each they are the file
/// (whose last line may lack it, unless that line is empty), and no other lines are so.
pub fn line_laws()
    ensures split { (file : List ℕ) → AreLines file (lines_of file) }
    ensures alone { (file : List ℕ) → (lines : List (List ℕ)) → AreLines file lines
        → lines ≡ lines_of file }
{}

/// Splits a file at each byte 0A. A last piece that no 0A ends is a line if it is not empty; each
/// other piece is a line, also an empty one. `Limit` comes exactly above 1,000,000 lines.
pub fn split_file(alloc: Global, bytes: &[u8]) -> Result<Lines, SplitFault>
    ensures split { IfOk result (Splits bytes.now) }
    ensures limit { result ≡ Err SplitFault.Limit → line_limit < length (lines_of bytes.now) }
{
    let mut ranges = Vec::new(alloc);
    let mut start = 0;
    while start < bytes.len() {
        if ranges.len() == LINE_LIMIT {
            return Err(SplitFault::Limit);
        }
        let end = end_of_line(bytes, start);
        match ranges.push((start, end)) {
            Ok(()) => {}
            Err(_) => return Err(SplitFault::OutOfMemory),
        }
        start = end + 1;
    }
    Ok(Lines::new(ranges))
}

// Where the line that starts there ends.
fn end_of_line(bytes: &[u8], start: usize) -> usize
    requires { start < length bytes.now }
    ensures line { lines_of (drop start bytes.now)
        ≡ piece_of bytes.now (start, result) ∷ lines_of (drop (result + 1) bytes.now) }
    ensures bounds { IsRangeWithin (length bytes.now) (start, result) }
{
    match memchr(b'\n', &bytes[start..]) {
        Some(count) => start + count,
        None => bytes.len(),
    }
}
