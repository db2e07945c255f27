//! A folder with the example segment and table file of the formats is damaged, and is refused or
//! read past it. The bytes and the answers were worked out by hand and by Python's struct and zlib.
use clog_base::{Table, segment_name, table_name};
use clog_disk::{Disk, MemDisk};
use clog_folder::OpenFault;
use clog_io::OpenGate;
use clog_scan::Cause;
use clog_table::TableFault;
use replay_merge::{Restored, replay};
use std::process::Abort;
use std::test::Fail;

// Segment 1000 with one entry, from 28 to 60: the deletion of key `ab` and column `cd` in table 0.
const SEGMENT: [u8; 60] = [
    0x00, 0x00, 0x00, 0x06, 0x00, 0x00, 0x00, 0x00, 0x00, 0x00, 0x03, 0xe8, 0x00, 0x02, 0x7b, 0x7d,
    0x4e, 0x72, 0xf2, 0x7f, 0x00, 0x00, 0x00, 0x3c, 0x0b, 0xd6, 0x8a, 0xe2, 0x00, 0x00, 0x00, 0x14,
    0x3b, 0x9e, 0x0b, 0x61, 0x00, 0x02, 0x61, 0x62, 0x00, 0x01, 0x00, 0x00, 0x02, 0x63, 0x64, 0x00,
    0x00, 0x00, 0x00, 0x00, 0x00, 0x00, 0x05, 0x00, 0x18, 0xa5, 0x86, 0xff,
];

// A file of table 0 with the same cell, over (1000, 0) to (1000, 60).
const TABLE: [u8; 58] = [
    0x00, 0x00, 0x00, 0x01, 0x00, 0x00, 0x00, 0x00, 0x00, 0x00, 0x00, 0x03, 0xe8, 0x00, 0x00, 0x00,
    0x00, 0x00, 0x00, 0x00, 0x00, 0x00, 0x00, 0x03, 0xe8, 0x00, 0x00, 0x00, 0x3c, 0x00, 0x00, 0x00,
    0x01, 0x72, 0x03, 0x75, 0xd8, 0x00, 0x02, 0x61, 0x62, 0x00, 0x02, 0x63, 0x64, 0x00, 0x00, 0x00,
    0x00, 0x00, 0x00, 0x00, 0x05, 0x00, 0x58, 0x4f, 0x3f, 0xb8,
];

fn is_refused(rt: &impl Abort, answer: Result<Restored, OpenFault>, wanted: OpenFault) {
    assert_eq!(rt; answer.err(), Some(wanted));
}

#[test]
fn a_damaged_folder_is_refused_or_read_past_it(rt: HostRuntime) -> Result<(), Fail> {
    let mut disk = MemDisk::new(rt.alloc());
    let gate = OpenGate::new();
    // The last byte of the segment is cut, so that its marker points behind it.
    disk.publish(&segment_name(1000), &SEGMENT[..59])?;
    assert!(rt; replay(&rt, rt.alloc(), &mut disk, 1, false, &gate).is_ok());
    disk.publish(&segment_name(1001), &[])?;
    let damage = OpenFault::Damaged(segment_name(1000), 20, Cause::MarkerTarget(60));
    is_refused(
        &rt,
        replay(&rt, rt.alloc(), &mut disk, 1, false, &gate),
        damage,
    );
    let past = replay(&rt, rt.alloc(), &mut disk, 1, true, &gate)?;
    assert_eq!(rt; past.counts.segments, 2);
    // The last byte of the table file is cut.
    disk.publish(&table_name(Table(0), 3), &TABLE[..57])?;
    let bad = OpenFault::BadTable(table_name(Table(0), 3), TableFault::Short);
    is_refused(&rt, replay(&rt, rt.alloc(), &mut disk, 1, true, &gate), bad);
    Ok(())
}
