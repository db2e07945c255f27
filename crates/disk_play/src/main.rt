//! Plays calls of disks, in memory and over real folders, by a text of cases on standard input, and
//! tells on standard output what came of each. So what no clause says of a disk is data: `stdin`
//! has the cases, and `stdout` what is wanted of them, from outside.
//!
//! A line is words. Lines that are empty or begin with `#` are left out. There are two disks, one
//! at hand and one aside: a new one comes in place of the one at hand, which is let go.
//!
//! | line | meaning |
//! |---|---|
//! | `case TITLE` | two empty disks in memory, and an empty folder, which goes behind the case |
//! | `memory N,..` | a disk in memory, of whose calls these fail, from 1, ascending |
//! | `writer`, `reader` | a disk over the folder, to write or only to read |
//! | `image MOMENT N` | an image of the disk at hand, by its number from 0 |
//! | `swap` | the disks change places |
//! | `append NAME AT TEXT` | the text comes at a file's end |
//! | `fill NAME AT N` | so many `x` come there |
//! | `publish NAME TEXT`, `sync NAME`, `remove NAME`, `link NAME NAME` | calls that change files |
//! | `settle` | the call by which all files last |
//! | `list`, `len NAME`, `read NAME AT N` | calls that tell of files |
//! | `faults`, `moments`, `changes` | how many there were |
//! | `said` | what the system has refused last of a disk over the folder |
//! | `bytes NAME`, `change N` | what a file in memory holds, and a change, from 0 |
//! | `images MOMENT NAME` | how many images there are, and what each holds under the name |
//! | `file PATH TEXT`, `folder PATH`, `symlink TARGET PATH` | made by no disk |
//! | `stands PATH` | whether something is there |
//!
//! Each line is told again, and behind it what came of it. More than 64 bytes are told by their
//! number alone, others in quotes, those that are no printable ones as `\x` and two digits. More
//! than a million are neither read nor filled in.
#![tactic(auto)]

mod call;
mod disks;
mod memory;
mod outside;
mod play;
mod tell;
mod verb;
mod words;

use anyhow::{Result, bail};
use play::Play;
use std::io::{self, Write};

fn play_line(play: &mut Play, line: &str, out: &mut Vec<u8>) -> Result<()> {
    out.extend_from_slice(line.as_bytes())?;
    let played = play.play(line, out);
    out.push(b'\n')?;
    played
}

fn is_played(line: &str) -> bool {
    !line.is_empty() && !line.starts_with('#')
}

fn play_lines(play: &mut Play, text: &str, out: &mut Vec<u8>) -> Result<()> {
    for (number, line) in (1u64..).zip(text.lines()) {
        if is_played(line) {
            if let Err(fault) = play_line(play, line, out) {
                bail!("line {number}: {fault}");
            }
        }
    }
    Ok(())
}

fn main(rt: HostRuntime) -> Result<()> {
    let text = io::read_to_string(rt.alloc(), rt.reader())?;
    let mut out = Vec::new(rt.alloc());
    let mut play = Play::new(rt.clone()?);
    let played = play_lines(&mut play, text.as_str(), &mut out);
    io::writer(&rt).write_all(&out)?;
    play.end()?;
    played
}
