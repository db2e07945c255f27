//! The cases are played: what stands between two lines, and what a line does to it.
ghost use Rattle.std.specs.Prelude.{◌<◌, ◌^◌};

use crate::images::{put_images, put_least};
use crate::outcome::{put_bytes, put_changes, put_files, put_printed};
use crate::script::{END, Step};
use anyhow::Result;
use clog_base::Name;
use clog_disk::{Disk, DiskFault, MemDisk};
use clog_engine::run;
use clog_io::{Clock, Gate, HoldGate, ListClock, MemSink, MemSource, OpenGate};
use std::alloc::Global;
use std::io::Write;
use std::sync::Wait;
use std::thread::Threads;

/// The folder, and its moment when the last run began; the moments that each clock tells; and what
/// the next run takes: the input, the calls of its source and its sink that fail, and whether its
/// writers are held until they have met.
#[derive(Drop)]
pub struct Play {
    disk: MemDisk,
    begun: u64,
    moments: Vec<u64>,
    input: Vec<u8>,
    source: Vec<u64>,
    sink: Vec<u64>,
    is_held: bool,
}

/// The words between single spaces; none where there is nothing.
pub fn words_of(alloc: Global, text: &str) -> Result<Vec<String>> {
    let mut words = Vec::new(alloc);
    for word in text.split(' ') {
        if !word.is_empty() {
            words.push(String::from_str(alloc, word)?)?;
        }
    }
    Ok(words)
}

// Puts bytes at a file's end.
fn put(disk: &mut MemDisk, name: &Name, bytes: &[u8]) -> Result<(), DiskFault> {
    let at = disk.bytes(name).unwrap_or(&[]).len() as u64;
    disk.append_at(name, at, bytes)
}

// The moment of a place in a list, of which the last one stands for all behind it; 0 where there is
// none.
fn moment_at(moments: &[u64], place: usize) -> u64
    ensures { result < 2 ^ 62 }
{
    if moments.is_empty() {
        return 0;
    }
    moments[place.min(moments.len() - 1)].min(END - 1)
}

/// A clock that tells the first four of these moments, and the last of them again.
pub fn clock_of(alloc: Global, moments: &[u64]) -> Result<ListClock> {
    let first = moment_at(moments, 0);
    let second = moment_at(moments, 1);
    let third = moment_at(moments, 2);
    let fourth = moment_at(moments, 3);
    Ok(ListClock::new([first, second, third, fourth].to_vec(alloc)?))
}

impl Play {
    /// Before the first case.
    pub fn new(alloc: Global) -> Result<Play> {
        Ok(Play {
            disk: MemDisk::new(alloc),
            begun: 0,
            moments: [1000, 2000].to_vec(alloc)?,
            input: Vec::new(alloc),
            source: Vec::new(alloc),
            sink: Vec::new(alloc),
            is_held: false,
        })
    }

    /// Does what a line asks for, and gives what it tells.
    pub fn take<T: Threads + Wait + Sync>(
        self,
        rt: &T,
        alloc: Global,
        step: Step,
    ) -> Result<(Play, Vec<u8>)> {
        let mut out = Vec::new(alloc);
        let mut play = self;
        match step {
            Step::Pass => {}
            Step::Case(title) => {
                writeln!(out, "case {title}")?;
                play = Play::new(alloc)?;
            }
            Step::Clock(moments) => play.moments = moments,
            Step::Disk(calls) => play.disk = MemDisk::failing(alloc, calls),
            Step::Source(calls) => play.source = calls,
            Step::Sink(calls) => play.sink = calls,
            Step::Hold => play.is_held = true,
            Step::Put(name, bytes) => {
                if put(&mut play.disk, &name, &bytes).is_err() {
                    writeln!(out, "not put")?;
                }
            }
            Step::Input(bytes) => play.input.extend_from_slice(&bytes)?,
            Step::Run(words) => play = play.run(rt, alloc, words, &mut out)?,
            Step::Show(name) => put_bytes(&mut out, &play.disk, &name)?,
            Step::Changes => put_changes(&mut out, &play.disk)?,
            Step::Images => put_images(rt, alloc, &mut out, &play.disk, play.begun)?,
            Step::LastImages => {
                let last = play.disk.moment_count();
                put_images(rt, alloc, &mut out, &play.disk, last)?;
            }
            Step::LeastCells => put_least(rt, alloc, &mut out, &play.disk, play.begun)?,
            Step::Output(bytes) => put_printed(&mut out, &bytes)?,
        }
        Ok((play, out))
    }

    // A run, and what came of it; and whether its writers have met, where they were held.
    fn run<T: Threads + Wait + Sync>(
        self,
        rt: &T,
        alloc: Global,
        words: &str,
        out: &mut Vec<u8>,
    ) -> Result<Play> {
        if !self.is_held {
            return self.run_through(rt, alloc, words, &OpenGate::new(), out);
        }
        let gate = HoldGate::new();
        let play = self.run_through(rt, alloc, words, &gate, out)?;
        writeln!(out, "met {}", gate.met())?;
        Ok(play)
    }

    // A run through a gate, and what came of it.
    fn run_through<T: Threads + Wait + Sync, G: Gate + Sync>(
        self,
        rt: &T,
        alloc: Global,
        words: &str,
        gate: &G,
        out: &mut Vec<u8>,
    ) -> Result<Play> {
        let mut source = MemSource::new(self.input, 65536, self.source);
        let mut sink = MemSink::new(alloc, self.sink);
        let clock = clock_of(alloc, &self.moments)?;
        let list = words_of(alloc, words)?;
        let begun = self.disk.moment_count();
        let (status, disk) = run(
            rt,
            alloc,
            &list,
            &mut source,
            &mut sink,
            self.disk,
            &clock,
            gate,
        );
        let mut play = Play {
            disk,
            begun,
            moments: self.moments,
            ..Play::new(alloc)?
        };
        writeln!(out, "run {words}")?;
        writeln!(out, "status {}", status.number())?;
        put_printed(out, sink.as_slice())?;
        put_files(out, &mut play.disk)?;
        writeln!(out, "clock {}", clock.now_ms())?;
        Ok(play)
    }
}
