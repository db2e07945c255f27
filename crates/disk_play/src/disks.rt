//! A disk of a case, in memory or over the case's folder.
use crate::call::call;
use crate::memory::{image_of, put_in_memory, tell_of};
use crate::tell::{put, put_done};
use crate::verb::{Call, Told};
use crate::words::Words;
use anyhow::{Result, bail};
use clog_base::Name;
use clog_disk::{Disk, FolderDisk, MemDisk};

#[derive(Drop)]
pub(crate) enum Played {
    Memory(MemDisk),
    Folder(FolderDisk<HostRuntime>),
}

impl Played {
    /// Makes a call that any disk has.
    pub fn call(&mut self, which: Call, words: &mut Words, out: &mut Vec<u8>) -> Result<()> {
        match self {
            Played::Memory(disk) => call(disk, which, words, out),
            Played::Folder(disk) => call(disk, which, words, out),
        }
    }

    /// Puts bytes at a file's end.
    pub fn append(&mut self, name: &Name, at: u64, bytes: &[u8], out: &mut Vec<u8>) -> Result<()> {
        match self {
            Played::Memory(disk) => put_in_memory(disk, name, at, bytes, out),
            Played::Folder(disk) => put_done(out, disk.append_at(name, at, bytes)),
        }
    }

    /// Tells what only disks of its kind tell.
    pub fn tell(&self, what: Told, words: &mut Words, out: &mut Vec<u8>) -> Result<()> {
        match (self, what) {
            (Played::Memory(disk), _) => tell_of(disk, what, words, out),
            (Played::Folder(disk), Told::Said) => put(out, disk.last_refusal().unwrap_or("")),
            _ => bail!("a disk over a folder does not tell it"),
        }
    }

    /// An image of a disk in memory.
    pub fn image(&self, words: &mut Words) -> Result<Played> {
        match self {
            Played::Memory(disk) => Ok(Played::Memory(image_of(disk, words)?)),
            Played::Folder(_) => bail!("a disk over a folder has no images"),
        }
    }
}
