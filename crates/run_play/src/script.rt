//! The lines of a text of cases.
ghost use Rattle.std.specs.Prelude.{◌<◌, IfOk};

use clog_base::Name;
use std::alloc::{AllocError, AllocFailed, Global};
use thiserror::Error;

/// Moments are below this, in milliseconds.
pub const END: u64 = 1 << 62;

/// Why a line is refused.
#[derive(Debug, Drop, Error)]
pub enum Cause {
    /// The first word is none of those that begin a line.
    #[error("no such line")]
    Word,
    /// A number is wanted, in decimal digits and below 2^62.
    #[error("a number is wanted")]
    Number,
    /// Bytes are wanted, each as two hexadecimal digits.
    #[error("bytes are wanted")]
    Bytes,
    /// A file's name is wanted.
    #[error("a name is wanted")]
    Name,
    /// There is no memory.
    #[error(transparent)]
    OutOfMemory(#[from(alloc)] AllocError),
}

/// A line that is refused.
#[derive(Debug, Drop, Error)]
#[error("line {number}: {cause}")]
pub struct PlayError {
    /// The number of the line, from 1.
    pub number: u64,
    /// Why it is refused.
    pub cause: Cause,
}

/// What a line asks for.
#[derive(Drop)]
pub enum Step<'a> {
    /// Nothing.
    Pass,
    /// A new case of this title.
    Case(&'a str),
    /// These moments of the clock, in order.
    Clock(Vec<u64>),
    /// An empty folder, of whose calls these fail.
    Disk(Vec<u64>),
    /// The calls of the next source that fail.
    Source(Vec<u64>),
    /// The calls of the next sink that fail.
    Sink(Vec<u64>),
    /// Two writers of the next run hold one another up until they have met.
    Hold,
    /// Bytes at the end of a file.
    Put(Name, Vec<u8>),
    /// Bytes more of the input.
    Input(Vec<u8>),
    /// A run with these words.
    Run(&'a str),
    /// A file's bytes are told.
    Show(Name),
    /// The changes of the folder are told.
    Changes,
    /// What comes of what a crash at any moment of the last run might have left is told.
    Images,
    /// The same of the last moment alone.
    LastImages,
    /// How many cells come at least of what a crash at each moment might have left is told.
    LeastCells,
    /// These bytes are told as if a run had printed them.
    Output(Vec<u8>),
}

// The first word, and what is behind the space after it.
fn cut(line: &str) -> (&str, &str) {
    line.split_once(' ').unwrap_or((line, ""))
}

fn number_of(word: &str) -> Result<u64, Cause> {
    match word.parse::<u64>() {
        Ok(number) if number < END => Ok(number),
        _ => Err(Cause::Number),
    }
}

fn numbers_of(alloc: Global, words: &str) -> Result<Vec<u64>, Cause> {
    let mut numbers = Vec::new(alloc);
    for word in words.split(' ') {
        numbers.push(number_of(word)?)?;
    }
    Ok(numbers)
}

fn name_of(word: &str) -> Result<Name, Cause> {
    Name::make(word.as_bytes()).ok_or(Cause::Name)
}

fn digit_of(digit: u8) -> Result<u8, Cause>
    ensures { IfOk result (λ value. value < 16) }
{
    match digit {
        b'0'..=b'9' => Ok(digit - b'0'),
        b'a'..=b'f' => Ok(digit - b'a' + 10),
        _ => Err(Cause::Bytes),
    }
}

fn bytes_of(alloc: Global, digits: &str) -> Result<Vec<u8>, Cause> {
    let mut bytes = Vec::new(alloc);
    let mut rest = digits.as_bytes();
    while let Some((pair, behind)) = rest.split_first_chunk::<2>() {
        bytes.push(digit_of(pair[0])? * 16 + digit_of(pair[1])?)?;
        rest = behind;
    }
    if rest.is_empty() {
        Ok(bytes)
    } else {
        Err(Cause::Bytes)
    }
}

// These bytes so many times.
fn times(alloc: Global, count: u64, bytes: &[u8]) -> Result<Vec<u8>, Cause> {
    let mut out = Vec::new(alloc);
    for _ in 0..count {
        out.extend_from_slice(bytes)?;
    }
    Ok(out)
}

fn filled(alloc: Global, rest: &str) -> Result<Step, Cause> {
    let (name, rest) = cut(rest);
    let (count, digits) = cut(rest);
    let bytes = bytes_of(alloc, digits)?;
    Ok(Step::Put(name_of(name)?, times(alloc, number_of(count)?, &bytes)?))
}

fn put(alloc: Global, rest: &str) -> Result<Step, Cause> {
    let (name, digits) = cut(rest);
    Ok(Step::Put(name_of(name)?, bytes_of(alloc, digits)?))
}

fn repeated(alloc: Global, rest: &str) -> Result<Step, Cause> {
    let (count, text) = cut(rest);
    Ok(Step::Input(times(alloc, number_of(count)?, text.as_bytes())?))
}

fn with_newline(alloc: Global, text: &str) -> Result<Step, Cause> {
    let mut line = text.as_bytes().to_vec(alloc)?;
    line.push(b'\n')?;
    Ok(Step::Input(line))
}

fn gate(rest: &str) -> Result<Step, Cause> {
    match rest {
        "hold" => Ok(Step::Hold),
        _ => Err(Cause::Word),
    }
}

fn images(rest: &str) -> Result<Step, Cause> {
    match rest {
        "" => Ok(Step::Images),
        "last" => Ok(Step::LastImages),
        "least" => Ok(Step::LeastCells),
        _ => Err(Cause::Word),
    }
}

impl<'a> Step<'a> {
    /// What a line asks for, or why it is refused.
    pub fn of(alloc: Global, line: &'a str) -> Result<Step<'a>, Cause> {
        if line.starts_with('#') {
            return Ok(Step::Pass);
        }
        let (word, rest) = cut(line);
        match word {
            "" => Ok(Step::Pass),
            "case" => Ok(Step::Case(rest)),
            "clock" => Ok(Step::Clock(numbers_of(alloc, rest)?)),
            "disk" => Ok(Step::Disk(numbers_of(alloc, rest)?)),
            "source" => Ok(Step::Source(numbers_of(alloc, rest)?)),
            "sink" => Ok(Step::Sink(numbers_of(alloc, rest)?)),
            "gate" => gate(rest),
            "put" => put(alloc, rest),
            "fill" => filled(alloc, rest),
            "line" => with_newline(alloc, rest),
            "text" => Ok(Step::Input(rest.as_bytes().to_vec(alloc)?)),
            "repeat" => repeated(alloc, rest),
            "newlines" => Ok(Step::Input(times(alloc, number_of(rest)?, b"\n")?)),
            "run" => Ok(Step::Run(rest)),
            "show" => Ok(Step::Show(name_of(rest)?)),
            "changes" => Ok(Step::Changes),
            "images" => images(rest),
            "output" => Ok(Step::Output(bytes_of(alloc, rest)?)),
            _ => Err(Cause::Word),
        }
    }
}
