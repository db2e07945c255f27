//! Writers over a disk in memory. The lines are equal, so that the bytes are the same whoever
//! claims first; they were worked out by hand and by Python's struct and zlib.
use crate::logged::{Way, logged};
use crate::payloads::{DELETION, lines_of};
use clog_base::{Table, segment_name, table_name};
use clog_disk::{Disk, MemDisk};
use std::alloc::Global;
use std::sync::Wait;
use std::test::Fail;
use std::thread::Threads;
use sync_core::SyncCore;
use write_path::Receipt;

const PERIODIC: SyncCore = SyncCore::Periodic { period_ms: 10_000 };

// Segment 1000 with three deletions in one section, from 28 to 60, to 92 and to 124.
const THREE: [u8; 124] = [
    0x00, 0x00, 0x00, 0x06, 0x00, 0x00, 0x00, 0x00, 0x00, 0x00, 0x03, 0xe8, 0x00, 0x02, 0x7b, 0x7d,
    0x4e, 0x72, 0xf2, 0x7f, 0x00, 0x00, 0x00, 0x7c, 0x0b, 0xd6, 0x8a, 0xe2, 0x00, 0x00, 0x00, 0x14,
    0x3b, 0x9e, 0x0b, 0x61, 0x00, 0x02, 0x61, 0x62, 0x00, 0x01, 0x00, 0x00, 0x02, 0x63, 0x64, 0x00,
    0x00, 0x00, 0x00, 0x00, 0x00, 0x00, 0x05, 0x00, 0x18, 0xa5, 0x86, 0xff, 0x00, 0x00, 0x00, 0x14,
    0x3b, 0x9e, 0x0b, 0x61, 0x00, 0x02, 0x61, 0x62, 0x00, 0x01, 0x00, 0x00, 0x02, 0x63, 0x64, 0x00,
    0x00, 0x00, 0x00, 0x00, 0x00, 0x00, 0x05, 0x00, 0x18, 0xa5, 0x86, 0xff, 0x00, 0x00, 0x00, 0x14,
    0x3b, 0x9e, 0x0b, 0x61, 0x00, 0x02, 0x61, 0x62, 0x00, 0x01, 0x00, 0x00, 0x02, 0x63, 0x64, 0x00,
    0x00, 0x00, 0x00, 0x00, 0x00, 0x00, 0x05, 0x00, 0x18, 0xa5, 0x86, 0xff,
];

// The table file of three such deletions: table 0, from offset 0 to 124 of segment 1000, one cell.
const TABLE: [u8; 58] = [
    0x00, 0x00, 0x00, 0x01, 0x00, 0x00, 0x00, 0x00, 0x00, 0x00, 0x00, 0x03, 0xe8, 0x00, 0x00, 0x00,
    0x00, 0x00, 0x00, 0x00, 0x00, 0x00, 0x00, 0x03, 0xe8, 0x00, 0x00, 0x00, 0x7c, 0x00, 0x00, 0x00,
    0x01, 0x2a, 0xf0, 0x2d, 0x91, 0x00, 0x02, 0x61, 0x62, 0x00, 0x02, 0x63, 0x64, 0x00, 0x00, 0x00,
    0x00, 0x00, 0x00, 0x00, 0x05, 0x00, 0x58, 0x4f, 0x3f, 0xb8,
];

// So many writers log three deletions in a mode, and drain them or not.
fn three_by<R: Threads + Wait + Sync>(
    rt: &R,
    alloc: Global,
    writers: u8,
    mode: SyncCore,
    drain: bool,
) -> Result<(MemDisk, Vec<Receipt>), Fail> {
    let way = Way {
        writers,
        mode,
        capacity: 4096,
        archives: false,
        drain,
    };
    let lines = lines_of(alloc, [DELETION, DELETION, DELETION].as_slice())?;
    logged(rt, alloc, way, lines)
}

// Where the lines' entries end, and which lines they are of.
fn ends_of(alloc: Global, receipts: &[Receipt]) -> Result<Vec<(u32, u32)>, Fail> {
    let mut ends = Vec::new(alloc);
    for receipt in receipts {
        ends.push((receipt.position.offset, receipt.line))?;
    }
    Ok(ends)
}

#[test]
fn one_writer_logs_its_lines_in_order(rt: HostRuntime) -> Result<(), Fail> {
    let (mut disk, receipts) = three_by(&rt, rt.alloc(), 1, PERIODIC, false)?;
    let ends = ends_of(rt.alloc(), receipts.as_slice())?;
    assert_eq!(rt; ends.as_slice(), [(60, 1), (92, 2), (124, 3)].as_slice());
    let bytes = disk.read(&segment_name(1000), 0, 1000)?;
    assert_eq!(rt; bytes.as_slice(), THREE.as_slice());
    Ok(())
}

#[test]
fn in_batch_mode_a_marker_stands_behind_each_line(rt: HostRuntime) -> Result<(), Fail> {
    let (_, receipts) = three_by(&rt, rt.alloc(), 1, SyncCore::batch(), false)?;
    let ends = ends_of(rt.alloc(), receipts.as_slice())?;
    assert_eq!(rt; ends.as_slice(), [(60, 1), (100, 2), (140, 3)].as_slice());
    Ok(())
}

#[test]
fn two_writers_log_each_line_once(rt: HostRuntime) -> Result<(), Fail> {
    let (mut disk, receipts) = three_by(&rt, rt.alloc(), 2, PERIODIC, false)?;
    let bytes = disk.read(&segment_name(1000), 0, 1000)?;
    assert_eq!(rt; bytes.as_slice(), THREE.as_slice());
    let mut ends = ends_of(rt.alloc(), receipts.as_slice())?;
    ends.sort_unstable();
    // Lines 1 and 3 are those of one writer.
    let first = [(60, 1), (92, 2), (124, 3)];
    let middle = [(60, 2), (92, 1), (124, 3)];
    let last = [(60, 1), (92, 3), (124, 2)];
    let is_one = [first, middle, last]
        .iter()
        .any(|order| order.as_slice() == ends.as_slice());
    assert!(rt; is_one);
    Ok(())
}

#[test]
fn a_drain_of_two_writers_leaves_a_table_file(rt: HostRuntime) -> Result<(), Fail> {
    let (mut disk, receipts) = three_by(&rt, rt.alloc(), 2, PERIODIC, true)?;
    assert_eq!(rt; receipts.len(), 3);
    assert_eq!(rt;
        disk.list()?.as_slice(),
        [table_name(Table(0), 1)].as_slice()
    );
    let bytes = disk.read(&table_name(Table(0), 1), 0, 1000)?;
    assert_eq!(rt; bytes.as_slice(), TABLE.as_slice());
    Ok(())
}
