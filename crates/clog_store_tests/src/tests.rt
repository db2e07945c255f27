//! The example segment of the formats is recovered, and a store over it is called. Its bytes, and
//! those of the table file, were worked out by hand and by Python's struct and zlib.
use clog_base::{Key, Sizes, Table, archive_name, segment_name, table_name};
use clog_cells::CellMap;
use clog_disk::{Disk, MemDisk};
use clog_folder::OpenFault;
use clog_scan::Cause;
use clog_segments::{SectionLog, drop_segments, recover};
use clog_store::Store;
use path_core::KeeperFault;
use std::alloc::Global;
use std::test::Fail;
use std::thread::Threads;

// Segment 1000 with one entry, from 28 to 60: the deletion of key `ab` and column `cd` in table 0.
const SEGMENT: [u8; 60] = [
    0x00, 0x00, 0x00, 0x06, 0x00, 0x00, 0x00, 0x00, 0x00, 0x00, 0x03, 0xe8, 0x00, 0x02, 0x7b, 0x7d,
    0x4e, 0x72, 0xf2, 0x7f, 0x00, 0x00, 0x00, 0x3c, 0x0b, 0xd6, 0x8a, 0xe2, 0x00, 0x00, 0x00, 0x14,
    0x3b, 0x9e, 0x0b, 0x61, 0x00, 0x02, 0x61, 0x62, 0x00, 0x01, 0x00, 0x00, 0x02, 0x63, 0x64, 0x00,
    0x00, 0x00, 0x00, 0x00, 0x00, 0x00, 0x05, 0x00, 0x18, 0xa5, 0x86, 0xff,
];

// The file of table 0 with the same cell, over (0, 0) to (1000, 60).
const TABLE: [u8; 58] = [
    0x00, 0x00, 0x00, 0x01, 0x00, 0x00, 0x00, 0x00, 0x00, 0x00, 0x00, 0x00, 0x00, 0x00, 0x00, 0x00,
    0x00, 0x00, 0x00, 0x00, 0x00, 0x00, 0x00, 0x03, 0xe8, 0x00, 0x00, 0x00, 0x3c, 0x00, 0x00, 0x00,
    0x01, 0x3f, 0x13, 0x24, 0x64, 0x00, 0x02, 0x61, 0x62, 0x00, 0x02, 0x63, 0x64, 0x00, 0x00, 0x00,
    0x00, 0x00, 0x00, 0x00, 0x05, 0x00, 0x58, 0x4f, 0x3f, 0xb8,
];

#[test]
fn a_segment_becomes_a_table_file(rt: HostRuntime) -> Result<(), Fail> {
    let mut disk = MemDisk::new(rt.alloc());
    disk.publish(&segment_name(1000), &SEGMENT)?;
    // The base is the moment, or one more than the segment's id.
    assert_eq!(rt; recover(rt.alloc(), &mut disk, 1000).ok(), Some(1001));
    let names = disk.list()?;
    assert_eq!(rt; names.as_slice(), [table_name(Table(0), 1)].as_slice());
    let bytes = disk.read(&table_name(Table(0), 1), 0, 100)?;
    assert_eq!(rt; bytes.as_slice(), TABLE.as_slice());
    // What is recovered once stays so.
    assert_eq!(rt; recover(rt.alloc(), &mut disk, 5000).ok(), Some(5000));
    assert_eq!(rt; disk.list()?.len(), 1);
    Ok(())
}

#[test]
fn a_damaged_folder_is_left_alone(rt: HostRuntime) -> Result<(), Fail> {
    let mut disk = MemDisk::new(rt.alloc());
    // The last byte of the segment is cut, so that its marker points behind it.
    disk.publish(&segment_name(1000), &SEGMENT[..59])?;
    disk.publish(&segment_name(1001), &[])?;
    let damage = OpenFault::Damaged(segment_name(1000), 20, Cause::MarkerTarget(60));
    assert_eq!(rt; recover(rt.alloc(), &mut disk, 1000).err(), Some(damage));
    assert_eq!(rt; disk.list()?.len(), 2);
    Ok(())
}

#[test]
fn a_store_opens_over_what_it_recovers(rt: HostRuntime) -> Result<(), Fail> {
    let mut disk = MemDisk::new(rt.alloc());
    disk.publish(&segment_name(1000), &SEGMENT)?;
    let Some(store) = SectionLog::open(rt.alloc(), disk, 1000).ok() else {
        return Err(Fail::new("no store"));
    };
    let mut disk = store.into_disk();
    assert_eq!(rt;
        disk.list()?.as_slice(),
        [table_name(Table(0), 1)].as_slice()
    );
    Ok(())
}

#[test]
fn a_store_with_nothing_pending_writes_nothing(rt: HostRuntime) -> Result<(), Fail> {
    let Some(sizes) = Sizes::make(1, 1, 4096, 4) else {
        return Err(Fail::new("no sizes"));
    };
    let mut disk = MemDisk::new(rt.alloc());
    disk.publish(&segment_name(1000), &SEGMENT)?;
    // A match, since the call of the store has a condition on what it holds.
    let mut store = match Store::open(rt.alloc(), disk, 1000, sizes, false) {
        Ok(store) => store,
        Err(_) => return Err(Fail::new("no store")),
    };
    assert_eq!(rt; store.base(), 1001);
    let mut pending = Vec::new(rt.alloc());
    assert!(rt; store.make_lasting(&mut pending, Key(0)).is_ok());
    let mut disk = store.into_disk(&rt);
    assert_eq!(rt;
        disk.list()?.as_slice(),
        [table_name(Table(0), 1)].as_slice()
    );
    Ok(())
}

#[test]
fn a_segment_goes_under_its_archive_name(rt: HostRuntime) -> Result<(), Fail> {
    let mut disk = MemDisk::new(rt.alloc());
    disk.publish(&segment_name(1000), &SEGMENT)?;
    assert!(rt; drop_segments(&mut disk, 1000, true, &[0]).is_ok());
    let names = disk.list()?;
    assert_eq!(rt; names.as_slice(), [archive_name(1000)].as_slice());
    let bytes = disk.read(&archive_name(1000), 0, 100)?;
    assert_eq!(rt; bytes.as_slice(), SEGMENT.as_slice());
    Ok(())
}

#[test]
fn a_store_without_table_files_drops_nothing(rt: HostRuntime) -> Result<(), Fail> {
    let Some(sizes) = Sizes::make(1, 1, 4096, 4) else {
        return Err(Fail::new("no sizes"));
    };
    let mut disk = MemDisk::new(rt.alloc());
    disk.publish(&segment_name(1000), &SEGMENT)?;
    let Some(mut store) = Store::open(rt.alloc(), disk, 1000, sizes, true).ok() else {
        return Err(Fail::new("no store"));
    };
    assert_eq!(rt; store.drop_due(4).ok(), Some(0));
    let mut disk = store.into_disk(&rt);
    assert_eq!(rt;
        disk.list()?.as_slice(),
        [table_name(Table(0), 1)].as_slice()
    );
    Ok(())
}

#[test]
fn a_store_puts_a_file_behind_those_of_its_table(rt: HostRuntime) -> Result<(), Fail> {
    let Some(sizes) = Sizes::make(1, 1, 4096, 4) else {
        return Err(Fail::new("no sizes"));
    };
    let mut disk = MemDisk::new(rt.alloc());
    disk.publish(&segment_name(1000), &SEGMENT)?;
    let mut store = match Store::open(rt.alloc(), disk, 1000, sizes, false) {
        Ok(store) => store,
        Err(_) => return Err(Fail::new("no store")),
    };
    // Nothing was logged since, so the file of what there is has no cells.
    let cells = CellMap::new(rt.alloc());
    assert!(rt; store.put_table(Table(0), Key(0), Key(28), &cells).is_ok());
    let mut disk = store.into_disk(&rt);
    assert_eq!(rt;
        disk.list()?.as_slice(),
        [table_name(Table(0), 1), table_name(Table(0), 2)].as_slice()
    );
    Ok(())
}

// Where a put is refused since its disk fails at a call: whether the store has stopped, answers so
// for a drop too, and has made no change.
fn stays_at<R: Threads>(rt: &R, alloc: Global, call: u64) -> Option<bool> {
    let sizes = Sizes::make(1, 1, 4096, 4)?;
    let mut calls = Vec::new(alloc);
    if calls.push(call).is_err() {
        return None;
    }
    let disk = MemDisk::failing(alloc, calls);
    // A match, since the call of the store has a condition on what it holds.
    let mut store = match Store::open(alloc, disk, 1000, sizes, false) {
        Ok(store) => store,
        Err(_) => return None,
    };
    let cells = CellMap::new(alloc);
    if store.put_table(Table(0), Key(0), Key(28), &cells).is_ok() {
        return None;
    }
    let answer = store.drop_due(4);
    let disk = store.into_disk(rt);
    Some(answer == Err(KeeperFault::Stopped { at_open: 0, now: 1 }) && disk.change_count() == 0)
}

#[test]
fn a_stopped_store_changes_nothing(rt: HostRuntime) -> Result<(), Fail> {
    // A failing call of the opening refuses that; one of the put, its listing or the file, stops
    // the store.
    let mut has_stopped = false;
    for call in 1..8 {
        match stays_at(&rt, rt.alloc(), call) {
            Some(true) => has_stopped = true,
            Some(false) => return Err(Fail::new("changed")),
            None => {}
        }
    }
    assert!(rt; has_stopped);
    Ok(())
}
