//! Texts without memory: of a known length, filled from the front, piece by piece.
ghost use Rattle.std.specs.Prelude.{◌≡◌, ◌≤◌, ◌+◌, ◌++◌, [], length, decimal};
ghost use Rattle.clog_base.specs.NameText.{most_digits};
ghost use Rattle.clog_base.specs.TextRows.{row_size};

use crate::name_text::put_number;
use crate::row::put;
use std::marker::Model;

/// How long a row is, in bytes.
const ROW_SIZE: usize = 192;

/// A text of at most 192 bytes.
#[derive(Drop)]
pub struct TextRow {
    row: [u8; ROW_SIZE],
    len: usize,
}

impl Model for TextRow {
    ghost use Rattle.std.specs.Prelude.{List, ℕ};
    ghost use Rattle.clog_base.specs.TextRows.{row_text, IsTextRow};

    ghost Value = { List ℕ };

    ghost view = { row_text };

    ghost invariant = { IsTextRow };
}

impl TextRow {
    /// No text yet.
    pub fn new() -> TextRow
        ensures { result ≡ [] }
    {
        TextRow {
            row: [0; ROW_SIZE],
            len: 0,
        }
    }

    /// Puts a piece behind what is there.
    pub fn put(&mut self, piece: &[u8])
        requires { length self.old + length piece.now ≤ row_size }
        ensures { self.new ≡ self.old ++ piece.now }
    {
        self.len = put(&mut self.row, self.len, piece);
    }

    /// Puts a number in decimal, of 20 digits at most, behind what is there.
    pub fn put_number(&mut self, number: u64)
        requires { length self.old + most_digits ≤ row_size }
        ensures text { self.new ≡ self.old ++ decimal number }
        ensures short { length self.new ≤ length self.old + most_digits }
    {
        self.len = put_number(&mut self.row, self.len, number);
    }

    /// Its bytes.
    pub fn as_bytes(&self) -> &[u8]
        ensures same { result.now ≡ self.now }
        ensures short { length self.now ≤ row_size }
    {
        &self.row[..self.len]
    }
}
