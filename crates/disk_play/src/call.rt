//! The calls that any disk has.
use crate::tell::{put, put_done, put_list, put_read, put_size};
use crate::verb::{Call, Change};
use crate::words::Words;
use anyhow::Result;
use clog_disk::{Disk, DiskFault};

/// Makes a call, whose words these are, and puts what came of it.
pub(crate) fn call<D: Disk>(
    disk: &mut D,
    which: Call,
    words: &mut Words,
    out: &mut Vec<u8>,
) -> Result<()> {
    match which {
        Call::List => put_list(out, disk.list()),
        Call::Read => read(disk, words, out),
        Call::Faults => put(out, disk.fault_count()),
        Call::Moments => put(out, disk.moment_count()),
        Call::Changes => put(out, disk.change_count()),
        Call::Len => put_size(out, disk.len(&words.name())),
        Call::Change(change) => put_done(out, changed(disk, change, words)),
        Call::Settle => put_done(out, disk.settle()),
    }
}

fn changed<D: Disk>(disk: &mut D, change: Change, words: &mut Words) -> Result<(), DiskFault> {
    let name = words.name();
    match change {
        Change::Sync => disk.sync(&name),
        Change::Publish => disk.publish(&name, words.word().as_bytes()),
        Change::Remove => disk.remove(&name),
        Change::Link => disk.link(&name, &words.name()),
    }
}

fn read<D: Disk>(disk: &mut D, words: &mut Words, out: &mut Vec<u8>) -> Result<()> {
    let name = words.name();
    let at = words.number();
    let count = words.number().min(1_000_000) as u32;
    put_read(out, disk.read(&name, at, count))
}
