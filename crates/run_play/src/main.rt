//! Plays runs of the commit log over a folder, a source, a sink and a clock in memory, by a text of
//! cases on standard input, and tells on standard output what came of each. So worked rows of `run`
//! are data: `stdin` has the cases, and `stdout` what is wanted of them, from outside.
//!
//! A line is a word and what belongs to it, with one space between. Lines that are empty or begin
//! with `#` are left out.
//!
//! | line | meaning |
//! |---|---|
//! | `case TITLE` | an empty folder, no input, a clock at 1000, and no failing call |
//! | `clock N ..` | the clock tells these moments, four at most, and the last again, in ms |
//! | `disk N ..` | an empty folder whose calls of these numbers fail, from 1, ascending |
//! | `source N ..`, `sink N ..` | the calls of the next run's source, or sink, that fail |
//! | `gate hold` | two writers of the next run meet: 1 starts when 0 has deposited, and 0 waits |
//! | `put NAME HEX` | bytes come at the end of a file, in hexadecimal digits, by one call |
//! | `fill NAME N HEX` | the same so many times, by one call |
//! | `line TEXT` | the input has this text and a newline more |
//! | `text TEXT` | the input has this text more |
//! | `repeat N TEXT` | the same so many times |
//! | `newlines N` | the input has so many newlines more |
//! | `run WORD ..` | a run with these words takes the input and the failing calls |
//! | `show NAME` | tells a file's bytes in hexadecimal digits |
//! | `changes` | tells each change of the folder since the case began, in order |
//! | `images` | recovers what a crash may leave of the last run at each moment, each answer once |
//! | `images last` | the same of the last moment alone, as a crash after the run leaves it |
//! | `images least` | how many cells come at least of each moment's images, where that changes |
//! | `output HEX` | these bytes are told as if a run had printed them |
//!
//! A run tells its words, its status, what it printed, each file with its length, and the moment
//! that the clock tells next, which says whether it was asked. What it printed is told to the byte:
//! each line behind `|`, a blank one as `|` alone, and `no newline at the end` behind a last line
//! that has none. Behind a run whose writers were held it tells whether they have met.
#![tactic(auto)]

mod images;
mod outcome;
mod play;
mod script;

use anyhow::Result;
use play::Play;
use script::{PlayError, Step};
use std::io::{self, BufRead, BufReader, Write};

fn main(rt: HostRuntime) -> Result<()> {
    let mut out = io::writer(&rt);
    let mut play = Play::new(rt.alloc())?;
    let mut number = 0u64;
    for line in BufReader::new(rt.alloc(), rt.reader())?.lines(rt.alloc()) {
        let line = line?;
        number = number.saturating_add(1);
        let step = Step::of(rt.alloc(), &line).map_err(|cause| PlayError { number, cause })?;
        let (next, told) = play.take(&rt, rt.alloc(), step)?;
        play = next;
        out.write_all(&told)?;
    }
    Ok(())
}
