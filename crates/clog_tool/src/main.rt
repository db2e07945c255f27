//! The program: applies a mutation file from standard input, or lines that it makes, to the folder
//! `commitlog` below the current folder, replays that folder, or scans a segment there, and tells
//! on standard output what came of it. It makes the real objects and calls `run`. What the system
//! said where it refused a call goes to standard error.
#![tactic(auto)]

use anyhow::Result;
use clog_disk::FolderDisk;
use clog_engine::{FaultLine, Status, run};
use clog_io::{OpenGate, Sink, StdSink, StdSource, SystemClock};
use clog_words::{Built, parse_built};
use std::fmt::Display;
use std::process::ExitCode;
use std::{env, io};

// The words after the program's name. Where one is no text there are none, which are faulty words.
fn words_of(rt: &HostRuntime) -> Result<Vec<String>> {
    let mut words = Vec::new(rt.alloc());
    match env::args(rt) {
        Ok(args) => {
            for word in args.skip(1) {
                words.push(word)?;
            }
        }
        Err(e) if e.kind() == io::ErrorKind::InvalidData => {}
        Err(e) => return Err(e.into()),
    }
    Ok(words)
}

// Before `run` only memory can be missing, which is told as `run` would.
fn out_of_memory(rt: &HostRuntime) -> ExitCode {
    let line = FaultLine::new(&Status::OutOfMemory);
    let _ = StdSink::new(io::writer(rt)).write_all(line.as_bytes());
    ExitCode::from(Status::OutOfMemory.number())
}

// The folder. What only reads takes no lock.
fn disk_for(rt: HostRuntime, words: &[String]) -> FolderDisk<HostRuntime> {
    match parse_built(rt.alloc(), words) {
        Ok(Built::Replay(_) | Built::Scan { .. } | Built::Orders { .. }) => {
            FolderDisk::for_reading(rt)
        }
        _ => FolderDisk::for_writing(rt),
    }
}

// Tells people what the system has refused, if it has: one line, without the error's number.
fn tell<T: Display + Drop>(rt: &HostRuntime, call: &str, refusal: Option<T>) -> Result<()> {
    let Some(refusal) = refusal else {
        return Ok(());
    };
    let text = format!(in rt.alloc(); "pinsilver: {call}{refusal}")?;
    match text.as_str().rsplit_once(" (os error ") {
        Some((words, _number)) => eprintln!(rt; "{words}")?,
        None => eprintln!(rt; "{text}")?,
    }
    Ok(())
}

fn main(rt: HostRuntime) -> Result<ExitCode> {
    let Ok(words) = words_of(&rt) else {
        return Ok(out_of_memory(&rt));
    };
    let Ok(for_disk) = rt.clone() else {
        return Ok(out_of_memory(&rt));
    };
    let Ok(for_clock) = rt.clone() else {
        return Ok(out_of_memory(&rt));
    };
    let mut source = StdSource::new(rt.reader());
    let mut sink = StdSink::new(io::writer(&rt));
    let (status, disk) = run(
        &rt,
        rt.alloc(),
        &words,
        &mut source,
        &mut sink,
        disk_for(for_disk, &words),
        &SystemClock::new(for_clock),
        &OpenGate::new(),
    );
    // Where this fails too there is nobody to tell.
    let _ = tell(&rt, "read standard input: ", source.last_refusal());
    let _ = tell(&rt, "", disk.last_refusal());
    let _ = tell(&rt, "write standard output: ", sink.last_refusal());
    Ok(ExitCode::from(status.number()))
}
