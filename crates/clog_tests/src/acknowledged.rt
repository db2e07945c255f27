//! What a crash leaves once commits have returned. Two writers of a path in batch mode commit in
//! turn on one thread, so the moment of the disk is known at which each commit has returned: each
//! image of a sample of each moment from there on restores the line. No schedule is in it, and
//! behind the flush the first line is in a table file alone.
use crate::alone::payload_of;
use crate::engine::words_of;
use crate::pair::Pair;
use clog_disk::{Disk, MemDisk};
use clog_engine::run;
use clog_io::{FixedClock, MemSink, MemSource, OpenGate};
use std::alloc::Global;
use std::sync::Wait;
use std::test::Fail;
use std::thread::Threads;

/// How many lines there are, from 1 on. Each is a value of the table of its number, and its key is
/// that digit.
const LINES: u8 = 4;

/// How many letters a value has. Its entry has 2048 bytes, and so a segment of its own.
const LETTERS: u32 = 2014;

// The next line is committed. In front of the last one the table of the first is flushed, and that
// one's segment goes.
fn go_on<R: Wait>(rt: &R, alloc: Global, pair: Pair, line: u8) -> Result<Pair, Fail> {
    let payload = payload_of(alloc, b'0' | line, line, LETTERS)?;
    if line == LINES {
        return pair.flush(rt, alloc)?.commit(rt, alloc, line, &payload);
    }
    pair.commit(rt, alloc, line, &payload)
}

// The disk when so many commits have returned.
fn disk_behind<R: Threads + Wait>(rt: &R, alloc: Global, lines: u8) -> Result<MemDisk, Fail> {
    let mut pair = Pair::open(alloc)?;
    for line in 1..=lines {
        pair = go_on(rt, alloc, pair, line)?;
    }
    pair.close(rt, alloc)
}

// At which moment each commit has returned.
fn moments_of_returns<R: Threads + Wait>(rt: &R, alloc: Global) -> Result<Vec<u64>, Fail> {
    let mut moments = Vec::new(alloc);
    for lines in 1..=LINES {
        moments.push(disk_behind(rt, alloc, lines)?.moment_count())?;
    }
    Ok(moments)
}

// Puts what a dump prints of a line's cell.
fn put_cell(alloc: Global, report: &mut Vec<u8>, line: u8) -> Result<(), Fail> {
    let value = Vec::from_elem(alloc, b'x', LETTERS as usize)?;
    report.extend_from_slice(b"{\"column\":\"c\",\"key\":\"")?;
    report.push(b'0' | line)?;
    report.extend_from_slice(b"\",\"table\":")?;
    report.push(b'0' | line)?;
    report.extend_from_slice(b",\"ts\":1,\"value\":\"")?;
    report.extend_from_slice(&value)?;
    report.extend_from_slice(b"\"}\n")?;
    Ok(())
}

// What a run without lines and with a dump prints over none of the lines, over the first one, over
// the first two, and so on.
fn reports_of_firsts(alloc: Global) -> Result<Vec<Vec<u8>>, Fail> {
    let mut report = Vec::new(alloc);
    report.extend_from_slice(b"applied 0\n")?;
    let mut reports = Vec::new(alloc);
    reports.push(report.clone()?)?;
    for line in 1..=LINES {
        put_cell(alloc, &mut report, line)?;
        reports.push(report.clone()?)?;
    }
    Ok(reports)
}

// How many of the first lines an image restores, where it restores these alone.
fn restored<R: Threads + Wait + Sync>(
    rt: &R,
    alloc: Global,
    image: MemDisk,
    reports: &[Vec<u8>],
) -> Result<Option<usize>, Fail> {
    let words = words_of(alloc, &["apply", "--dump"])?;
    let mut source = MemSource::new(Vec::new(alloc), 7, Vec::new(alloc));
    let mut sink = MemSink::new(alloc, Vec::new(alloc));
    let (_status, _left) = run(
        rt,
        alloc,
        &words,
        &mut source,
        &mut sink,
        image,
        &FixedClock::new(1000),
        &OpenGate::new(),
    );
    let printed = sink.as_slice();
    Ok(
        reports
            .iter()
            .position(|report| report.as_slice() == printed),
    )
}

// Whether each of these images restores so many of the first lines, or more.
fn all_restore<R: Threads + Wait + Sync>(
    rt: &R,
    alloc: Global,
    images: Vec<MemDisk>,
    reports: &[Vec<u8>],
    lines: usize,
) -> Result<bool, Fail> {
    for image in images {
        match restored(rt, alloc, image, reports)? {
            Some(count) if count >= lines => {}
            _ => return Ok(false),
        }
    }
    Ok(true)
}

// The moments of which an image lacks a line whose commit had returned.
fn losing_moments<R: Threads + Wait + Sync>(
    rt: &R,
    alloc: Global,
    returns: &[u64],
) -> Result<Vec<u64>, Fail> {
    let reports = reports_of_firsts(alloc)?;
    let disk = disk_behind(rt, alloc, LINES)?;
    let mut losing = Vec::new(alloc);
    for moment in 0..disk.moment_count().saturating_add(1) {
        let returned = returns.iter().filter(|at| **at <= moment).count();
        if !all_restore(rt, alloc, disk.images(moment)?, &reports, returned)? {
            losing.push(moment)?;
        }
    }
    Ok(losing)
}

// An opening makes its folder last by one call. A commit is an append and a sync, and a close makes
// no call of the disk.
#[test]
fn sampled_images_restore_the_lines_whose_commits_have_returned(
    rt: HostRuntime,
) -> Result<(), Fail> {
    let returns = moments_of_returns(&rt, rt.alloc())?;
    assert_eq!(rt; returns.as_slice(), [3, 5, 7, 11].as_slice());
    let losing = losing_moments(&rt, rt.alloc(), returns.as_slice())?;
    assert_eq!(rt; losing.as_slice(), [].as_slice());
    Ok(())
}
