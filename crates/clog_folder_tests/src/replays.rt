//! Folders are replayed by several workers. The bytes and the answers were worked out by hand and
//! by Python's struct and zlib.
use clog_base::{Cell, CellKey, Kind, PayloadFault, Table, segment_name, table_name};
use clog_disk::{Disk, MemDisk};
use clog_folder::OpenFault;
use clog_io::{HoldGate, OpenGate};
use clog_scan::Cause;
use replay_merge::{Counts, Restored, replay};
use std::alloc::Global;
use std::process::Abort;
use std::test::Fail;

// Segment 1000 with one entry, from 28 to 60: at 5 key `ab` and column `cd` of table 0 are deleted.
const DELETION: [u8; 60] = [
    0x00, 0x00, 0x00, 0x06, 0x00, 0x00, 0x00, 0x00, 0x00, 0x00, 0x03, 0xe8, 0x00, 0x02, 0x7b, 0x7d,
    0x4e, 0x72, 0xf2, 0x7f, 0x00, 0x00, 0x00, 0x3c, 0x0b, 0xd6, 0x8a, 0xe2, 0x00, 0x00, 0x00, 0x14,
    0x3b, 0x9e, 0x0b, 0x61, 0x00, 0x02, 0x61, 0x62, 0x00, 0x01, 0x00, 0x00, 0x02, 0x63, 0x64, 0x00,
    0x00, 0x00, 0x00, 0x00, 0x00, 0x00, 0x05, 0x00, 0x18, 0xa5, 0x86, 0xff,
];

// Segment 1000 with two entries: at 9 the same key and column have the value `z`, and behind it
// they are deleted at 5.
const VALUE_FIRST: [u8; 97] = [
    0x00, 0x00, 0x00, 0x06, 0x00, 0x00, 0x00, 0x00, 0x00, 0x00, 0x03, 0xe8, 0x00, 0x02, 0x7b, 0x7d,
    0x4e, 0x72, 0xf2, 0x7f, 0x00, 0x00, 0x00, 0x61, 0x0b, 0xd6, 0x8a, 0xe2, 0x00, 0x00, 0x00, 0x19,
    0x45, 0x2f, 0x77, 0xdc, 0x00, 0x02, 0x61, 0x62, 0x00, 0x01, 0x00, 0x00, 0x02, 0x63, 0x64, 0x00,
    0x00, 0x00, 0x00, 0x00, 0x00, 0x00, 0x09, 0x01, 0x00, 0x00, 0x00, 0x01, 0x7a, 0xa4, 0x4b, 0xd3,
    0xe3, 0x00, 0x00, 0x00, 0x14, 0x3b, 0x9e, 0x0b, 0x61, 0x00, 0x02, 0x61, 0x62, 0x00, 0x01, 0x00,
    0x00, 0x02, 0x63, 0x64, 0x00, 0x00, 0x00, 0x00, 0x00, 0x00, 0x00, 0x05, 0x00, 0x18, 0xa5, 0x86,
    0xff,
];

// The first of these two entries, from 28 to 60, has a payload with the tag 2.
const BAD_FIRST: [u8; 92] = [
    0x00, 0x00, 0x00, 0x06, 0x00, 0x00, 0x00, 0x00, 0x00, 0x00, 0x03, 0xe8, 0x00, 0x02, 0x7b, 0x7d,
    0x4e, 0x72, 0xf2, 0x7f, 0x00, 0x00, 0x00, 0x5c, 0x0b, 0xd6, 0x8a, 0xe2, 0x00, 0x00, 0x00, 0x14,
    0x3b, 0x9e, 0x0b, 0x61, 0x00, 0x02, 0x61, 0x62, 0x00, 0x01, 0x00, 0x00, 0x02, 0x63, 0x64, 0x00,
    0x00, 0x00, 0x00, 0x00, 0x00, 0x00, 0x05, 0x02, 0xf6, 0xab, 0xe7, 0xd3, 0x00, 0x00, 0x00, 0x14,
    0x3b, 0x9e, 0x0b, 0x61, 0x00, 0x02, 0x61, 0x62, 0x00, 0x01, 0x00, 0x00, 0x02, 0x63, 0x64, 0x00,
    0x00, 0x00, 0x00, 0x00, 0x00, 0x00, 0x05, 0x00, 0x18, 0xa5, 0x86, 0xff,
];

// A file of table 0 with the deletion, over (1000, 0) to (1000, 60).
const TABLE: [u8; 58] = [
    0x00, 0x00, 0x00, 0x01, 0x00, 0x00, 0x00, 0x00, 0x00, 0x00, 0x00, 0x03, 0xe8, 0x00, 0x00, 0x00,
    0x00, 0x00, 0x00, 0x00, 0x00, 0x00, 0x00, 0x03, 0xe8, 0x00, 0x00, 0x00, 0x3c, 0x00, 0x00, 0x00,
    0x01, 0x72, 0x03, 0x75, 0xd8, 0x00, 0x02, 0x61, 0x62, 0x00, 0x02, 0x63, 0x64, 0x00, 0x00, 0x00,
    0x00, 0x00, 0x00, 0x00, 0x05, 0x00, 0x58, 0x4f, 0x3f, 0xb8,
];

fn counts(segments: u32, tables: u32, entries: u64, updates: u64, skipped: u64) -> Counts {
    Counts {
        segments,
        tables,
        entries,
        updates,
        skipped,
    }
}

fn disk_with(alloc: Global, segment: &[u8]) -> Result<MemDisk, Fail> {
    let mut disk = MemDisk::new(alloc);
    disk.publish(&segment_name(1000), segment)?;
    Ok(disk)
}

fn has_counts(rt: &impl Abort, restored: &Restored, wanted: Counts) {
    assert_eq!(rt; restored.counts, wanted);
}

fn is_refused(rt: &impl Abort, answer: Result<Restored, OpenFault>, wanted: OpenFault) {
    assert_eq!(rt; answer.err(), Some(wanted));
}

fn same_text(rt: &impl Abort, found: &str, wanted: &str) {
    assert_eq!(rt; found, wanted);
}

fn is_the_value(rt: &impl Abort, key: &CellKey, cell: &Cell) {
    assert_eq!(rt; (key.table, cell.ts, cell.kind), (Table(0), 9, Kind::Live));
    same_text(rt, key.key.as_str(), "ab");
    same_text(rt, key.column.as_str(), "cd");
    same_text(rt, cell.value.as_str(), "z");
}

#[test]
fn two_workers_meet_and_the_greater_timestamp_counts(rt: HostRuntime) -> Result<(), Fail> {
    let mut disk = disk_with(rt.alloc(), &VALUE_FIRST)?;
    let gate = HoldGate::new();
    let restored = replay(&rt, rt.alloc(), &mut disk, 2, false, &gate)?;
    assert!(rt; gate.met());
    has_counts(&rt, &restored, counts(1, 0, 2, 2, 0));
    assert_eq!(rt; restored.cells.len(), 1);
    for (key, cell) in &restored.cells.rows()? {
        is_the_value(&rt, key, cell);
    }
    Ok(())
}

#[test]
fn an_undecodable_payload_is_damage_or_left_out(rt: HostRuntime) -> Result<(), Fail> {
    let mut disk = disk_with(rt.alloc(), &BAD_FIRST)?;
    let gate = OpenGate::new();
    let cause = Cause::Payload(PayloadFault::BadTag(19));
    let damage = OpenFault::Damaged(segment_name(1000), 28, cause);
    is_refused(
        &rt,
        replay(&rt, rt.alloc(), &mut disk, 3, false, &gate),
        damage,
    );
    let restored = replay(&rt, rt.alloc(), &mut disk, 3, true, &gate)?;
    has_counts(&rt, &restored, counts(1, 0, 1, 1, 0));
    assert_eq!(rt; restored.cells.len(), 1);
    for (_key, cell) in &restored.cells.rows()? {
        assert_eq!(rt; (cell.ts, cell.kind), (5, Kind::Deletion));
    }
    Ok(())
}

#[test]
fn a_torn_segment_counts_by_its_place_among_the_others(rt: HostRuntime) -> Result<(), Fail> {
    let mut torn = DELETION;
    torn[24] = 0;
    let mut disk = disk_with(rt.alloc(), &torn)?;
    let gate = OpenGate::new();
    let alone = replay(&rt, rt.alloc(), &mut disk, 2, false, &gate)?;
    has_counts(&rt, &alone, counts(1, 0, 0, 0, 0));
    disk.publish(&segment_name(1001), &[])?;
    let damage = OpenFault::Damaged(segment_name(1000), 20, Cause::MarkerCheck);
    is_refused(
        &rt,
        replay(&rt, rt.alloc(), &mut disk, 2, false, &gate),
        damage,
    );
    let past = replay(&rt, rt.alloc(), &mut disk, 2, true, &gate)?;
    has_counts(&rt, &past, counts(2, 0, 0, 0, 0));
    assert_eq!(rt; past.cells.len(), 0);
    Ok(())
}

#[test]
fn a_table_file_stands_for_what_its_interval_holds(rt: HostRuntime) -> Result<(), Fail> {
    let mut disk = disk_with(rt.alloc(), &VALUE_FIRST)?;
    let gate = OpenGate::new();
    // The first entry ends at 65, behind the interval's upper end, and so does the second.
    disk.publish(&table_name(Table(0), 1), &TABLE)?;
    let both = replay(&rt, rt.alloc(), &mut disk, 64, false, &gate)?;
    has_counts(&rt, &both, counts(1, 1, 2, 2, 0));
    disk.publish(&segment_name(1000), &DELETION)?;
    let filed = replay(&rt, rt.alloc(), &mut disk, 1, false, &gate)?;
    has_counts(&rt, &filed, counts(1, 1, 1, 0, 1));
    assert_eq!(rt; filed.cells.len(), 1);
    Ok(())
}
