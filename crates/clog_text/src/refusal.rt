//! Why a line is no mutation. Its text is the name of the refusal, and behind a space the part of
//! the line that was refused, where it has one.
ghost use Rattle.std.specs.Prelude.{◌≡◌, Some};
ghost use Rattle.clog_text.specs.Refusals.{part_name, refusal_name, part_of, refusal_text};

use clog_base::OutOfMemory;
use std::alloc::{AllocError, AllocFailed};
use std::fmt;

/// A part of a mutation line.
#[derive(Clone, Copy, Debug, PartialEq, Eq)]
pub enum Part {
    /// The object that is the whole line.
    Line,
    /// The partition's key.
    Key,
    /// The array of updates.
    Updates,
    /// One object of that array.
    Update,
    /// The table's number.
    Table,
    /// The column's name.
    Column,
    /// The timestamp.
    Ts,
    /// The value, or none for a deletion.
    Value,
}

impl Part {
    /// The name of the part in a text.
    pub fn name(self) -> &'static str
        ensures { result.now ≡ part_name self }
    {
        match self {
            Part::Line => "line",
            Part::Key => "key",
            Part::Updates => "updates",
            Part::Update => "update",
            Part::Table => "table",
            Part::Column => "column",
            Part::Ts => "ts",
            Part::Value => "value",
        }
    }
}

impl fmt::Display for Part {
    ghost output = { λ part. Some (part_name part) };

    fn fmt<W: fmt::Write>(&self, f: &mut fmt::Formatter<W>) -> fmt::Result {
        f.write_str(self.name())
    }
}

/// Why a line is no mutation.
#[derive(Clone, Copy, Debug, PartialEq, Eq)]
pub enum BadLine {
    /// The line is no UTF-8, or no JSON text.
    NotJson,
    /// The part is missing, is not of its kind, or has other names than it should.
    Field(Part),
    /// The part is of its kind, and too short, too long or too great.
    Range(Part),
    /// The array of updates is empty.
    NoUpdates,
    /// The table is a whole number above 15.
    UnknownTable,
    /// Memory was refused.
    OutOfMemory,
}

impl BadLine {
    /// The name of the refusal in a text.
    pub fn name(self) -> &'static str
        ensures { result.now ≡ refusal_name self }
    {
        match self {
            BadLine::NotJson => "NotJson",
            BadLine::Field(_) => "Field",
            BadLine::Range(_) => "Range",
            BadLine::NoUpdates => "NoUpdates",
            BadLine::UnknownTable => "UnknownTable",
            BadLine::OutOfMemory => "OutOfMemory",
        }
    }

    /// The part that was refused.
    pub fn part(self) -> Option<Part>
        ensures { result ≡ part_of self }
    {
        match self {
            BadLine::Field(part) | BadLine::Range(part) => Some(part),
            _ => None,
        }
    }
}

impl fmt::Display for BadLine {
    ghost output = { λ cause. Some (refusal_text cause) };

    fn fmt<W: fmt::Write>(&self, f: &mut fmt::Formatter<W>) -> fmt::Result {
        f.write_str(self.name())?;
        match self.part() {
            Some(part) => {
                f.write_str(" ")?;
                f.write_str(part.name())
            }
            None => Ok(()),
        }
    }
}

impl From<OutOfMemory> for BadLine {
    ghost use Rattle.clog_text.specs.declared.refusal.BadLine.TheVariants.{OutOfMemory as memory};

    ghost from_gives = { λ _ e. e ≡ memory };

    fn from(_: OutOfMemory) -> Self {
        BadLine::OutOfMemory
    }
}

impl From<AllocError> for BadLine {
    ghost use Rattle.clog_text.specs.declared.refusal.BadLine.TheVariants.{OutOfMemory as memory};

    ghost from_gives = { λ _ e. e ≡ memory };

    fn from(_: AllocError) -> Self {
        BadLine::OutOfMemory
    }
}

impl<T: Drop> From<AllocFailed<T>> for BadLine {
    ghost use Rattle.clog_text.specs.declared.refusal.BadLine.TheVariants.{OutOfMemory as memory};

    ghost from_gives = { λ _ e. e ≡ memory };

    fn from(_: AllocFailed<T>) -> Self {
        BadLine::OutOfMemory
    }
}
