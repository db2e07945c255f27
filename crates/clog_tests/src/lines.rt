//! Lines of one writer over a disk in memory. The bytes were worked out by hand and by Python's
//! struct and zlib.
use crate::logged::{Way, logged};
use crate::payloads::{DELETION, lines_of};
use clog_base::{Table, archive_name, segment_name, table_name};
use clog_disk::{Disk, MemDisk};
use std::alloc::Global;
use std::sync::Wait;
use std::test::Fail;
use std::thread::Threads;
use sync_core::SyncCore;

/// Key `ab`, one update: table 1, column `cd`, timestamp 5, a deletion.
const OTHER: &[u8] = b"\x00\x02ab\x00\x01\x01\x00\x02cd\x00\x00\x00\x00\x00\x00\x00\x05\x00";

/// The same in table 0, but a value, up to its length.
const VALUE: &[u8] =
    b"\x00\x02ab\x00\x01\x00\x00\x02cd\x00\x00\x00\x00\x00\x00\x00\x05\x01\x00\x00";

// Segment 1000 with two deletions in one section, from 28 to 60 and from 60 to 92.
const BOTH: [u8; 92] = [
    0x00, 0x00, 0x00, 0x06, 0x00, 0x00, 0x00, 0x00, 0x00, 0x00, 0x03, 0xe8, 0x00, 0x02, 0x7b, 0x7d,
    0x4e, 0x72, 0xf2, 0x7f, 0x00, 0x00, 0x00, 0x5c, 0x0b, 0xd6, 0x8a, 0xe2, 0x00, 0x00, 0x00, 0x14,
    0x3b, 0x9e, 0x0b, 0x61, 0x00, 0x02, 0x61, 0x62, 0x00, 0x01, 0x00, 0x00, 0x02, 0x63, 0x64, 0x00,
    0x00, 0x00, 0x00, 0x00, 0x00, 0x00, 0x05, 0x00, 0x18, 0xa5, 0x86, 0xff, 0x00, 0x00, 0x00, 0x14,
    0x3b, 0x9e, 0x0b, 0x61, 0x00, 0x02, 0x61, 0x62, 0x00, 0x01, 0x00, 0x00, 0x02, 0x63, 0x64, 0x00,
    0x00, 0x00, 0x00, 0x00, 0x00, 0x00, 0x05, 0x00, 0x18, 0xa5, 0x86, 0xff,
];

// The header of segment 1001 and its first marker, which points to 124.
const NEXT: [u8; 28] = [
    0x00, 0x00, 0x00, 0x06, 0x00, 0x00, 0x00, 0x00, 0x00, 0x00, 0x03, 0xe9, 0x00, 0x02, 0x7b, 0x7d,
    0x8f, 0xfc, 0x2d, 0xbf, 0x00, 0x00, 0x00, 0x7c, 0x1c, 0xad, 0x9e, 0xa1,
];

// The table file of two such deletions: table 0, from offset 0 to 92 of segment 1000, one cell.
const TABLE: [u8; 58] = [
    0x00, 0x00, 0x00, 0x01, 0x00, 0x00, 0x00, 0x00, 0x00, 0x00, 0x00, 0x03, 0xe8, 0x00, 0x00, 0x00,
    0x00, 0x00, 0x00, 0x00, 0x00, 0x00, 0x00, 0x03, 0xe8, 0x00, 0x00, 0x00, 0x5c, 0x00, 0x00, 0x00,
    0x01, 0xeb, 0x31, 0x02, 0x95, 0x00, 0x02, 0x61, 0x62, 0x00, 0x02, 0x63, 0x64, 0x00, 0x00, 0x00,
    0x00, 0x00, 0x00, 0x00, 0x05, 0x00, 0x58, 0x4f, 0x3f, 0xb8,
];

// The payload of a value of so many bytes `x`, 24 bytes longer.
fn value_of(alloc: Global, count: u16) -> Result<Vec<u8>, Fail> {
    let mut payload = Vec::new(alloc);
    payload.extend_from_slice(VALUE)?;
    payload.extend_from_slice(&count.to_be_bytes())?;
    for _ in 0..count {
        payload.push(b'x')?;
    }
    Ok(payload)
}

// One writer logs lines with these payloads in periodic mode, to segments of a capacity, and drains
// them or not.
fn written_to<R: Threads + Wait + Sync>(
    rt: &R,
    alloc: Global,
    payloads: &[&[u8]],
    capacity: u32,
    archives: bool,
    drain: bool,
) -> Result<MemDisk, Fail> {
    let way = Way {
        writers: 1,
        mode: SyncCore::Periodic { period_ms: 10_000 },
        capacity,
        archives,
        drain,
    };
    let lines = lines_of(alloc, payloads)?;
    let (disk, _receipts) = logged(rt, alloc, way, lines)?;
    Ok(disk)
}

// The same, and neither archives nor drains.
fn written<R: Threads + Wait + Sync>(
    rt: &R,
    alloc: Global,
    payloads: &[&[u8]],
    capacity: u32,
) -> Result<MemDisk, Fail> {
    written_to(rt, alloc, payloads, capacity, false, false)
}

#[test]
fn two_lines_are_one_section(rt: HostRuntime) -> Result<(), Fail> {
    let two = [DELETION, DELETION];
    let mut disk = written(&rt, rt.alloc(), two.as_slice(), 33554432)?;
    assert_eq!(rt; disk.list()?.as_slice(), [segment_name(1000)].as_slice());
    let bytes = disk.read(&segment_name(1000), 0, 1000)?;
    assert_eq!(rt; bytes.as_slice(), BOTH.as_slice());
    Ok(())
}

#[test]
fn an_entry_that_does_not_fit_is_in_the_next_segment(rt: HostRuntime) -> Result<(), Fail> {
    let first = value_of(rt.alloc(), 1964)?;
    let second = value_of(rt.alloc(), 1936)?;
    let third = value_of(rt.alloc(), 60)?;
    let payloads = [first.as_slice(), second.as_slice(), third.as_slice()];
    // Entries of 2000, 1972 and 96 bytes: the third would end at the capacity.
    let mut disk = written(&rt, rt.alloc(), payloads.as_slice(), 4096)?;
    assert_eq!(rt; disk.len(&segment_name(1000))?, 4000);
    assert_eq!(rt; disk.len(&segment_name(1001))?, 124);
    let front = disk.read(&segment_name(1001), 0, 28)?;
    assert_eq!(rt; front.as_slice(), NEXT.as_slice());
    Ok(())
}

#[test]
fn no_lines_make_no_segment(rt: HostRuntime) -> Result<(), Fail> {
    let mut disk = written(&rt, rt.alloc(), [].as_slice(), 4096)?;
    assert_eq!(rt; disk.list()?.len(), 0);
    Ok(())
}

#[test]
fn a_drain_leaves_a_table_file(rt: HostRuntime) -> Result<(), Fail> {
    let two = [DELETION, DELETION];
    let mut disk = written_to(&rt, rt.alloc(), two.as_slice(), 33554432, false, true)?;
    assert_eq!(rt;
        disk.list()?.as_slice(),
        [table_name(Table(0), 1)].as_slice()
    );
    let bytes = disk.read(&table_name(Table(0), 1), 0, 1000)?;
    assert_eq!(rt; bytes.as_slice(), TABLE.as_slice());
    Ok(())
}

#[test]
fn a_drain_that_archives_leaves_the_segment_besides(rt: HostRuntime) -> Result<(), Fail> {
    let two = [DELETION, DELETION];
    let mut disk = written_to(&rt, rt.alloc(), two.as_slice(), 33554432, true, true)?;
    let names = [archive_name(1000), table_name(Table(0), 1)];
    assert_eq!(rt; disk.list()?.as_slice(), names.as_slice());
    let bytes = disk.read(&archive_name(1000), 0, 1000)?;
    assert_eq!(rt; bytes.as_slice(), BOTH.as_slice());
    Ok(())
}

#[test]
fn a_drained_segment_of_two_tables_goes_behind_both_their_files(
    rt: HostRuntime,
) -> Result<(), Fail> {
    let two = [DELETION, OTHER];
    let mut disk = written_to(&rt, rt.alloc(), two.as_slice(), 33554432, false, true)?;
    let names = [table_name(Table(0), 1), table_name(Table(1), 1)];
    assert_eq!(rt; disk.list()?.as_slice(), names.as_slice());
    Ok(())
}
