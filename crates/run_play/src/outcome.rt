//! What is told of a run and of its files.
use anyhow::Result;
use clog_base::{Bytes, Name};
use clog_disk::{Change, Disk, MemDisk};
use std::io::Write;

// Puts each of these lines behind `|`, a blank one too.
fn put_lines(out: &mut Vec<u8>, lines: &[u8]) -> Result<()> {
    for line in lines.split(|byte| *byte == b'\n') {
        out.push(b'|')?;
        out.extend_from_slice(line)?;
        out.push(b'\n')?;
    }
    Ok(())
}

/// Puts what was printed, so that it can be read back byte for byte: each line behind `|`, and a
/// line of its own where the last one has no newline.
pub fn put_printed(out: &mut Vec<u8>, printed: &[u8]) -> Result<()> {
    match printed.split_last() {
        None => {}
        Some((b'\n', lines)) => put_lines(out, lines)?,
        Some(_) => {
            put_lines(out, printed)?;
            writeln!(out, "no newline at the end")?;
        }
    }
    Ok(())
}

fn put_hex(out: &mut Vec<u8>, bytes: &[u8]) -> Result<()> {
    for byte in bytes {
        write!(out, "{byte:02x}")?;
    }
    Ok(())
}

fn put_file(out: &mut Vec<u8>, disk: &MemDisk, name: &Name) -> Result<()> {
    let len = disk.bytes(name).unwrap_or(&[]).len();
    out.extend_from_slice(b"file ")?;
    out.extend_from_slice(name.as_bytes())?;
    writeln!(out, " {len}")?;
    Ok(())
}

/// Puts each file with its length, or that the listing fails, which is one call more of the disk.
pub fn put_files(out: &mut Vec<u8>, disk: &mut MemDisk) -> Result<()> {
    match disk.list() {
        Ok(names) => {
            for name in names.as_slice() {
                put_file(out, disk, name)?;
            }
        }
        Err(_) => writeln!(out, "no listing")?,
    }
    Ok(())
}

/// Puts a file's bytes in hexadecimal digits.
pub fn put_bytes(out: &mut Vec<u8>, disk: &MemDisk, name: &Name) -> Result<()> {
    out.extend_from_slice(b"show ")?;
    out.extend_from_slice(name.as_bytes())?;
    out.push(b' ')?;
    put_hex(out, disk.bytes(name).unwrap_or(&[]))?;
    out.push(b'\n')?;
    Ok(())
}

// Puts a change by its word and the file that it is of.
fn put_named(out: &mut Vec<u8>, word: &str, name: &Name) -> Result<()> {
    write!(out, "change {word} ")?;
    out.extend_from_slice(name.as_bytes())?;
    Ok(())
}

// Puts how many bytes came.
fn put_length(out: &mut Vec<u8>, bytes: &Bytes) -> Result<()> {
    write!(out, " {}", bytes.as_slice().len())?;
    Ok(())
}

fn put_change(out: &mut Vec<u8>, change: &Change) -> Result<()> {
    match change {
        Change::Append(name, bytes) => {
            put_named(out, "append", name)?;
            put_length(out, bytes)?;
        }
        Change::Publish(name, bytes) => {
            put_named(out, "publish", name)?;
            put_length(out, bytes)?;
        }
        Change::Link(name, second) => {
            put_named(out, "link", name)?;
            out.push(b' ')?;
            out.extend_from_slice(second.as_bytes())?;
        }
        Change::Remove(name) => put_named(out, "remove", name)?,
    }
    out.push(b'\n')?;
    Ok(())
}

/// Puts each change since the folder was made: an append and a file put in place with how many
/// bytes came, a link with its second name, and a removal.
pub fn put_changes(out: &mut Vec<u8>, disk: &MemDisk) -> Result<()> {
    for number in 0..disk.change_count() {
        if let Some(change) = disk.change(number) {
            put_change(out, change)?;
        }
    }
    Ok(())
}
