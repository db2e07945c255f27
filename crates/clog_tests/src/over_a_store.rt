//! A path of one seat over a store over a disk in memory: what its commits and flushes are
//! answered, and which files its disk has once it is closed. The places were worked out by hand
//! from the sizes of entries and markers.
use crate::alone::{Alone, payload_of};
use clog_base::{Key, Position, Table, segment_name, table_name};
use clog_disk::{Disk, MemDisk};
use std::alloc::Global;
use std::sync::Wait;
use std::test::Fail;
use std::thread::Threads;
use sync_core::SyncCore;
use write_path::{Commit, Flush, Receipt, SyncFault};

const PERIODIC: SyncCore = SyncCore::Periodic { period_ms: 10_000 };

// Key `ab`, one update: table 0, column `cd`, timestamp 5, a deletion: 20 bytes.
const DELETION: &[u8] = b"\x00\x02ab\x00\x01\x00\x00\x02cd\x00\x00\x00\x00\x00\x00\x00\x05\x00";

// Where a key is in the log.
fn place_of(key: Key) -> (u64, u32) {
    let Position { id, offset } = key.position(1000);
    (id, offset)
}

// Where the interval of a flush's table file begins and ends.
fn flushed(flush: Flush) -> Option<[(u64, u32); 2]> {
    match flush {
        Flush::Flushed { lower, upper } => Some([place_of(lower), place_of(upper)]),
        _ => None,
    }
}

// The final bound of a memtable that held nothing.
fn emptied(flush: Flush) -> Option<(u64, u32)> {
    match flush {
        Flush::Empty(key) => Some(place_of(key)),
        _ => None,
    }
}

// The receipt of a lasting write.
fn durable(commit: &Commit) -> Option<Receipt> {
    match commit {
        Commit::Durable(receipt) => Some(*receipt),
        _ => None,
    }
}

// The receipt of a write that was not made lasting, and why.
fn unsynced(commit: &Commit) -> Option<(Receipt, SyncFault)> {
    match commit {
        Commit::Unsynced(receipt, fault) => Some((*receipt, *fault)),
        _ => None,
    }
}

// The receipt of a line whose entry ends at an offset of segment 1000.
fn receipt(line: u32, offset: u32) -> Receipt {
    let position = Position { id: 1000, offset };
    Receipt { line, position }
}

// Commits in batch mode of the deletion and of values of one and of two letters. The opening lists
// the folder and makes it last, and each commit is an append and a sync, so the disk's eighth call
// is the third sync.
fn commit_until_refused<R: Wait>(rt: &R, alloc: Global) -> Result<[Commit; 3], Fail> {
    let mut calls = Vec::new(alloc);
    calls.push(8)?;
    let alone = Alone::open(alloc, MemDisk::failing(alloc, calls), SyncCore::batch())?;
    let (alone, first) = alone.commit(rt, alloc, 1, DELETION)?;
    let (alone, second) = alone.commit(rt, alloc, 2, payload_of(alloc, b'k', 0, 1)?.as_slice())?;
    let (_alone, third) = alone.commit(rt, alloc, 3, payload_of(alloc, b'k', 0, 2)?.as_slice())?;
    Ok([first, second, third])
}

#[test]
fn a_third_commit_is_not_lasting_where_its_sync_fails(rt: HostRuntime) -> Result<(), Fail> {
    let [first, second, third] = commit_until_refused(&rt, rt.alloc())?;
    let found = (durable(&first), durable(&second), unsynced(&third));
    let stopped = SyncFault::Stopped { at_open: 0, now: 1 };
    assert_eq!(rt;
        found,
        (
            Some(receipt(1, 60)),
            Some(receipt(2, 103)),
            Some((receipt(3, 147), stopped))
        )
    );
    Ok(())
}

// A flush behind three entries of 2048 bytes, each in a segment of its own.
fn flush_segments<R: Threads + Wait>(rt: &R, alloc: Global) -> Result<(Flush, MemDisk), Fail> {
    let payload = payload_of(alloc, b'k', 0, 2014)?;
    let alone = Alone::open(alloc, MemDisk::new(alloc), PERIODIC)?;
    let (alone, _first) = alone.commit(rt, alloc, 1, payload.as_slice())?;
    let (alone, _second) = alone.commit(rt, alloc, 2, payload.as_slice())?;
    let (alone, _third) = alone.commit(rt, alloc, 3, payload.as_slice())?;
    let (alone, flush) = alone.flush(rt, alloc)?;
    Ok((flush, alone.close(rt, alloc)?))
}

#[test]
fn a_flush_drops_the_segments_that_its_file_covers(rt: HostRuntime) -> Result<(), Fail> {
    let (flush, mut disk) = flush_segments(&rt, rt.alloc())?;
    assert_eq!(rt; flushed(flush), Some([(1000, 0), (1002, 2076)]));
    let names = [segment_name(1002), table_name(Table(0), 1)];
    assert_eq!(rt; disk.list()?.as_slice(), names.as_slice());
    Ok(())
}

// Three flushes behind a deletion.
fn flush_thrice<R: Threads + Wait>(rt: &R, alloc: Global) -> Result<([Flush; 3], MemDisk), Fail> {
    let alone = Alone::open(alloc, MemDisk::new(alloc), PERIODIC)?;
    let (alone, _commit) = alone.commit(rt, alloc, 1, DELETION)?;
    let (alone, first) = alone.flush(rt, alloc)?;
    let (alone, second) = alone.flush(rt, alloc)?;
    let (alone, third) = alone.flush(rt, alloc)?;
    Ok(([first, second, third], alone.close(rt, alloc)?))
}

#[test]
fn a_memtable_that_holds_nothing_becomes_no_file(rt: HostRuntime) -> Result<(), Fail> {
    let ([first, second, third], mut disk) = flush_thrice(&rt, rt.alloc())?;
    let found = (flushed(first), [emptied(second), emptied(third)]);
    let interval = [(1000, 0), (1000, 60)];
    assert_eq!(rt; found, (Some(interval), [Some((1000, 68)); 2]));
    let names = [segment_name(1000), table_name(Table(0), 1)];
    assert_eq!(rt; disk.list()?.as_slice(), names.as_slice());
    Ok(())
}
