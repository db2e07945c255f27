//! How answers are told, behind the line that they are of.
use anyhow::Result;
use clog_base::{Name, Rows};
use clog_disk::DiskFault;
use std::fmt::Display;
use std::io::Write;

/// Puts a number or words.
pub(crate) fn put<T: Display + Drop>(out: &mut Vec<u8>, value: T) -> Result<()> {
    write!(out, ": {value}")?;
    Ok(())
}

/// Puts bytes in quotes, those that are no printable ones as `\x` and two digits.
pub(crate) fn put_quoted(out: &mut Vec<u8>, bytes: &[u8]) -> Result<()> {
    write!(out, "\"{}\"", bytes.escape_ascii())?;
    Ok(())
}

pub(crate) fn put_name(out: &mut Vec<u8>, name: &Name) -> Result<()> {
    out.push(b' ')?;
    out.extend_from_slice(name.as_bytes())?;
    Ok(())
}

fn put_fault(out: &mut Vec<u8>, fault: DiskFault) -> Result<()> {
    match fault {
        DiskFault::Failed => put(out, "failed"),
        DiskFault::NoSuchFile => put(out, "no such file"),
        DiskFault::OutOfMemory => put(out, "out of memory"),
    }
}

pub(crate) fn put_done(out: &mut Vec<u8>, outcome: Result<(), DiskFault>) -> Result<()> {
    match outcome {
        Ok(()) => put(out, "done"),
        Err(fault) => put_fault(out, fault),
    }
}

pub(crate) fn put_size(out: &mut Vec<u8>, outcome: Result<u64, DiskFault>) -> Result<()> {
    match outcome {
        Ok(size) => put(out, size),
        Err(fault) => put_fault(out, fault),
    }
}

/// Of more than 64 bytes it puts only how many they are.
pub(crate) fn put_bytes(out: &mut Vec<u8>, bytes: &[u8]) -> Result<()> {
    if bytes.len() > 64 {
        return put(out, bytes.len());
    }
    put(out, "")?;
    put_quoted(out, bytes)
}

pub(crate) fn put_read(out: &mut Vec<u8>, outcome: Result<Vec<u8>, DiskFault>) -> Result<()> {
    match outcome {
        Ok(bytes) => put_bytes(out, &bytes),
        Err(fault) => put_fault(out, fault),
    }
}

pub(crate) fn put_list(out: &mut Vec<u8>, outcome: Result<Rows<Name>, DiskFault>) -> Result<()> {
    match outcome {
        Ok(names) => put_names(out, names.as_slice()),
        Err(fault) => put_fault(out, fault),
    }
}

fn put_names(out: &mut Vec<u8>, names: &[Name]) -> Result<()> {
    put(out, names.len())?;
    for name in names {
        put_name(out, name)?;
    }
    Ok(())
}
