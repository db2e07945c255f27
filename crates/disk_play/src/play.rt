//! A case as it is played: the disk at hand, and one that is put aside.
use crate::disks::Played;
use crate::outside::outside;
use crate::verb::{Verb, verb_of};
use crate::words::Words;
use anyhow::Result;
use clog_disk::{FolderDisk, MemDisk};
use std::mem::swap;
use std::{env, fs};

// The folder of a case, below the one that the program was started in.
const FOLDER: &str = "disk_play_case";

/// Plays lines, one after the other.
#[derive(Drop)]
pub(crate) struct Play {
    rt: HostRuntime,
    disk: Played,
    aside: Played,
    /// The current folder is that of a case.
    is_inside: bool,
}

impl Play {
    pub fn new(rt: HostRuntime) -> Play {
        Play {
            disk: Played::Memory(MemDisk::new(rt.alloc())),
            aside: Played::Memory(MemDisk::new(rt.alloc())),
            rt,
            is_inside: false,
        }
    }

    /// Plays a line, and puts what is told behind it.
    pub fn play(&mut self, line: &str, out: &mut Vec<u8>) -> Result<()> {
        let mut words = Words::of(line);
        let verb = verb_of(words.word())?;
        self.make(verb, &mut words, out)?;
        words.end()
    }

    fn make(&mut self, verb: Verb, words: &mut Words, out: &mut Vec<u8>) -> Result<()> {
        match verb {
            Verb::Case => {
                words.word();
                self.begin()
            }
            Verb::Memory => self.memory(words),
            Verb::Writer => self.folder(true),
            Verb::Reader => self.folder(false),
            Verb::Image => self.image(words),
            Verb::Swap => self.swap(),
            Verb::Append => self.append(words, out),
            Verb::Fill => self.fill(words, out),
            Verb::Call(call) => self.disk.call(call, words, out),
            Verb::Told(what) => self.disk.tell(what, words, out),
            Verb::Outside(what) => outside(&self.rt, what, words, out),
        }
    }

    // A case has a folder of its own.
    fn begin(&mut self) -> Result<()> {
        self.end()?;
        fs::create_dir(&self.rt, FOLDER)?;
        env::set_current_dir(&self.rt, FOLDER)?;
        self.is_inside = true;
        Ok(())
    }

    /// Lets go of the disks, and removes the case's folder.
    pub fn end(&mut self) -> Result<()> {
        self.disk = Played::Memory(MemDisk::new(self.rt.alloc()));
        self.aside = Played::Memory(MemDisk::new(self.rt.alloc()));
        if self.is_inside {
            env::set_current_dir(&self.rt, "..")?;
            fs::remove_dir_all(&self.rt, FOLDER)?;
            self.is_inside = false;
        }
        Ok(())
    }

    fn memory(&mut self, words: &mut Words) -> Result<()> {
        let alloc = self.rt.alloc();
        self.disk = Played::Memory(MemDisk::failing(alloc, words.numbers(alloc)?));
        Ok(())
    }

    // A disk over the folder, to write or only to read.
    fn folder(&mut self, writes: bool) -> Result<()> {
        let rt = self.rt.clone()?;
        self.disk = Played::Folder(if writes {
            FolderDisk::for_writing(rt)
        } else {
            FolderDisk::for_reading(rt)
        });
        Ok(())
    }

    fn image(&mut self, words: &mut Words) -> Result<()> {
        self.disk = self.disk.image(words)?;
        Ok(())
    }

    fn swap(&mut self) -> Result<()> {
        swap(&mut self.disk, &mut self.aside);
        Ok(())
    }

    fn append(&mut self, words: &mut Words, out: &mut Vec<u8>) -> Result<()> {
        let name = words.name();
        let at = words.number();
        self.disk.append(&name, at, words.word().as_bytes(), out)
    }

    // So many times the byte `x`.
    fn fill(&mut self, words: &mut Words, out: &mut Vec<u8>) -> Result<()> {
        let name = words.name();
        let at = words.number();
        let count = words.number().min(1_000_000) as usize;
        let bytes = Vec::from_elem(self.rt.alloc(), b'x', count)?;
        self.disk.append(&name, at, &bytes, out)
    }
}
