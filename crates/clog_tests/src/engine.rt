//! Each public call once. Worked rows of `run` are data, which `run_play` reads.
use clog_base::{Name, Table, segment_name, table_name};
use clog_disk::{Change, Disk, MemDisk};
use clog_engine::{FaultLine, Status, run};
use clog_io::{FixedClock, HoldGate, MemSink, MemSource, OpenGate};
use std::alloc::Global;
use std::rt::HostRuntime;
use std::test::Fail;

const LINE: &[u8] =
    b"{\"key\":\"ab\",\"updates\":[{\"table\":0,\"column\":\"cd\",\"ts\":5,\"value\":null}]}\n";

const REPORT: &[u8] =
    b"applied 1\n{\"column\":\"cd\",\"key\":\"ab\",\"table\":0,\"ts\":5,\"value\":null}\n";

// The segment 1000 with the one entry of that line, from the description of the format.
const FILE: [u8; 60] = [
    0, 0, 0, 6, 0, 0, 0, 0, 0, 0, 3, 0xe8, 0, 2, 0x7b, 0x7d, 0x4e, 0x72, 0xf2, 0x7f, 0, 0, 0, 0x3c,
    0x0b, 0xd6, 0x8a, 0xe2, 0, 0, 0, 0x14, 0x3b, 0x9e, 0x0b, 0x61, 0, 2, 0x61, 0x62, 0, 1, 0, 0, 2,
    0x63, 0x64, 0, 0, 0, 0, 0, 0, 0, 5, 0, 0x18, 0xa5, 0x86, 0xff,
];

// The segment 1001 with the same entry; its checks are Python's zlib's.
const NEXT: [u8; 60] = [
    0, 0, 0, 6, 0, 0, 0, 0, 0, 0, 3, 0xe9, 0, 2, 0x7b, 0x7d, 0x8f, 0xfc, 0x2d, 0xbf, 0, 0, 0, 0x3c,
    0x1c, 0xad, 0x9e, 0xa1, 0, 0, 0, 0x14, 0x3b, 0x9e, 0x0b, 0x61, 0, 2, 0x61, 0x62, 0, 1, 0, 0, 2,
    0x63, 0x64, 0, 0, 0, 0, 0, 0, 0, 5, 0, 0x18, 0xa5, 0x86, 0xff,
];

const REPLAYED: &[u8] = b"segments 2\ntables 0\nentries 2\nupdates 2\nskipped 0\n\
{\"column\":\"cd\",\"key\":\"ab\",\"table\":0,\"ts\":5,\"value\":null}\n";

// Each entry of that line has 32 bytes, and the header and the marker 28.
const RECEIPTS: &[u8] = b"applied 2\nreceipt 1 1000 92\nreceipt 2 1000 60\n";

pub(crate) fn words_of(alloc: Global, list: &[&str]) -> Result<Vec<String>, Fail> {
    let mut words = Vec::new(alloc);
    for word in list {
        words.push(String::from_str(alloc, word)?)?;
    }
    Ok(words)
}

#[test]
fn a_line_becomes_the_segment_and_its_cell(rt: HostRuntime) -> Result<(), Fail> {
    let words = words_of(rt.alloc(), &["apply", "--dump"])?;
    let mut source = MemSource::new(LINE.to_vec(rt.alloc())?, 7, Vec::new(rt.alloc()));
    let mut sink = MemSink::new(rt.alloc(), Vec::new(rt.alloc()));
    let (status, disk) = run(
        &rt,
        rt.alloc(),
        &words,
        &mut source,
        &mut sink,
        MemDisk::new(rt.alloc()),
        &FixedClock::new(1000),
        &OpenGate::new(),
    );
    assert_eq!(rt; status.number(), 0);
    assert_eq!(rt; sink.as_slice(), REPORT);
    assert_eq!(rt;
        disk.bytes(&segment_name(1000)).unwrap_or(&[]),
        FILE.as_slice()
    );
    Ok(())
}

// Each worker waits until the other has deposited its entry, so both are there.
#[test]
fn two_workers_of_a_replay_meet(rt: HostRuntime) -> Result<(), Fail> {
    let words = words_of(rt.alloc(), &["replay", "--workers", "2"])?;
    let mut source = MemSource::new(Vec::new(rt.alloc()), 7, Vec::new(rt.alloc()));
    let mut sink = MemSink::new(rt.alloc(), Vec::new(rt.alloc()));
    let mut disk = MemDisk::new(rt.alloc());
    disk.publish(&segment_name(1000), &FILE)?;
    disk.publish(&segment_name(1001), &NEXT)?;
    let gate = HoldGate::new();
    let (status, _disk) = run(
        &rt,
        rt.alloc(),
        &words,
        &mut source,
        &mut sink,
        disk,
        &FixedClock::new(1000),
        &gate,
    );
    assert_eq!(rt; status.number(), 0);
    assert_eq!(rt; sink.as_slice(), REPLAYED);
    assert!(rt; gate.met());
    Ok(())
}

// Writer 1, which has line 1, waits until writer 0 has deposited line 2, and writer 0 until the
// other has returned. So the order of the log is forced, and no single thread runs both.
#[test]
fn two_writers_of_an_apply_meet(rt: HostRuntime) -> Result<(), Fail> {
    let words = [
        "apply",
        "--writers",
        "2",
        "--segment-kib",
        "4",
        "--receipts",
    ];
    let words = words_of(rt.alloc(), &words)?;
    let mut lines = LINE.to_vec(rt.alloc())?;
    lines.extend_from_slice(LINE)?;
    let mut source = MemSource::new(lines, 7, Vec::new(rt.alloc()));
    let mut sink = MemSink::new(rt.alloc(), Vec::new(rt.alloc()));
    let gate = HoldGate::new();
    let (status, _disk) = run(
        &rt,
        rt.alloc(),
        &words,
        &mut source,
        &mut sink,
        MemDisk::new(rt.alloc()),
        &FixedClock::new(1000),
        &gate,
    );
    assert_eq!(rt; status.number(), 0);
    assert_eq!(rt; sink.as_slice(), RECEIPTS);
    assert!(rt; gate.met());
    Ok(())
}

// Writer 0 waits behind its deposit until the commit of writer 1 has returned, so the sync that
// this one has waited for covers both lines, and one marker stands in front of both.
#[test]
fn two_commits_in_batch_mode_share_a_sync(rt: HostRuntime) -> Result<(), Fail> {
    let words = ["apply", "--writers", "2", "--sync", "batch", "--receipts"];
    let words = words_of(rt.alloc(), &words)?;
    let mut lines = LINE.to_vec(rt.alloc())?;
    lines.extend_from_slice(LINE)?;
    let mut source = MemSource::new(lines, 7, Vec::new(rt.alloc()));
    let mut sink = MemSink::new(rt.alloc(), Vec::new(rt.alloc()));
    let gate = HoldGate::new();
    let (status, disk) = run(
        &rt,
        rt.alloc(),
        &words,
        &mut source,
        &mut sink,
        MemDisk::new(rt.alloc()),
        &FixedClock::new(1000),
        &gate,
    );
    assert_eq!(rt; status.number(), 0);
    assert_eq!(rt; sink.as_slice(), RECEIPTS);
    let file = disk.bytes(&segment_name(1000)).unwrap_or(&[]);
    assert_eq!(rt; file.len(), 92);
    assert!(rt; gate.met());
    Ok(())
}

// A line whose entry has 2048 bytes, so that a segment of 4096 has room for one.
fn large_line(alloc: Global) -> Result<Vec<u8>, Fail> {
    let mut line = Vec::new(alloc);
    line.extend_from_slice(b"{\"key\":\"k\",\"updates\":[{\"table\":0,\"column\":\"c\",")?;
    line.extend_from_slice(b"\"ts\":1,\"value\":\"")?;
    for _ in 0..2014 {
        line.push(b'x')?;
    }
    line.extend_from_slice(b"\"}]}\n")?;
    Ok(line)
}

// Whether a file came or grew by the change at a place.
fn has_come(disk: &MemDisk, n: u64, name: Name) -> bool {
    match disk.change(n) {
        Some(Change::Publish(changed, _)) | Some(Change::Append(changed, _)) => *changed == name,
        _ => false,
    }
}

// The table file of the second line comes behind it, and then the first segment goes, before the
// third line is there.
#[test]
fn a_writer_that_flushes_drops_a_segment_in_front_of_a_line(rt: HostRuntime) -> Result<(), Fail> {
    let words = ["apply", "--flush-at", "1", "--segment-kib", "4"];
    let words = words_of(rt.alloc(), &words)?;
    let line = large_line(rt.alloc())?;
    let mut lines = Vec::new(rt.alloc());
    for _ in 0..3 {
        lines.extend_from_slice(&line)?;
    }
    let mut source = MemSource::new(lines, 7, Vec::new(rt.alloc()));
    let mut sink = MemSink::new(rt.alloc(), Vec::new(rt.alloc()));
    let (status, disk) = run(
        &rt,
        rt.alloc(),
        &words,
        &mut source,
        &mut sink,
        MemDisk::new(rt.alloc()),
        &FixedClock::new(1000),
        &OpenGate::new(),
    );
    assert_eq!(rt; status.number(), 0);
    assert!(rt; has_come(&disk, 2, segment_name(1001)));
    assert!(rt; has_come(&disk, 3, table_name(Table(0), 2)));
    let went = match disk.change(4) {
        Some(Change::Remove(name)) => *name == segment_name(1000),
        _ => false,
    };
    assert!(rt; went);
    assert!(rt; has_come(&disk, 5, segment_name(1002)));
    Ok(())
}

// No run can be made to want memory.
#[test]
fn want_of_memory_has_its_number_and_its_line(rt: HostRuntime) {
    let status = Status::OutOfMemory;
    assert_eq!(rt; status.number(), 9);
    assert_eq!(rt;
        FaultLine::new(&status).as_bytes(),
        b"error 9: out of memory\n".as_slice()
    );
}
