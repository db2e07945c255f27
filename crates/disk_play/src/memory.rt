//! What a disk in memory has that no other has.
use crate::tell::{put, put_bytes, put_done, put_name};
use crate::verb::Told;
use crate::words::Words;
use anyhow::{Result, bail};
use clog_base::Name;
use clog_disk::{Change, Disk, MemDisk};

/// Puts bytes at a file's end, which must be at `at`.
pub(crate) fn put_in_memory(
    disk: &mut MemDisk,
    name: &Name,
    at: u64,
    bytes: &[u8],
    out: &mut Vec<u8>,
) -> Result<()> {
    let end = disk.bytes(name).unwrap_or(&[]).len() as u64;
    if at != end {
        bail!("a disk in memory takes bytes at a file's end alone");
    }
    put_done(out, disk.append_at(name, end, bytes))
}

/// The image of a moment and a number, from 0.
pub(crate) fn image_of(disk: &MemDisk, words: &mut Words) -> Result<MemDisk> {
    let mut images = disk.images(words.number())?;
    let number = words.number();
    if number >= images.len() as u64 {
        bail!("no such image");
    }
    Ok(images.swap_remove(number as usize))
}

/// Tells what is asked for.
pub(crate) fn tell_of(
    disk: &MemDisk,
    what: Told,
    words: &mut Words,
    out: &mut Vec<u8>,
) -> Result<()> {
    match what {
        Told::Bytes => put_held(out, disk.bytes(&words.name())),
        Told::Change => put_change(out, disk.change(words.number())),
        Told::Images => images(disk, words, out),
        Told::Said => bail!("a disk in memory does not tell it"),
    }
}

fn put_held(out: &mut Vec<u8>, held: Option<&[u8]>) -> Result<()> {
    match held {
        Some(bytes) => put_bytes(out, bytes),
        None => put(out, "absent"),
    }
}

// How many images there are, and what each holds under a name.
fn images(disk: &MemDisk, words: &mut Words, out: &mut Vec<u8>) -> Result<()> {
    let images = disk.images(words.number())?;
    let name = words.name();
    put(out, images.len())?;
    for image in &images {
        put_held(out, image.bytes(&name))?;
    }
    Ok(())
}

// A change in parts: its word, its file, and the bytes that came or the second name.
fn parts_of(change: &Change) -> (&str, &Name, &[u8]) {
    match change {
        Change::Append(name, bytes) => ("append", name, bytes.as_slice()),
        Change::Publish(name, bytes) => ("publish", name, bytes.as_slice()),
        Change::Link(name, second) => ("link", name, second.as_bytes()),
        Change::Remove(name) => ("remove", name, b"gone"),
    }
}

fn put_change(out: &mut Vec<u8>, change: Option<&Change>) -> Result<()> {
    let Some(change) = change else {
        return put(out, "absent");
    };
    let (word, name, what) = parts_of(change);
    put(out, word)?;
    put_name(out, name)?;
    put_bytes(out, what)
}
