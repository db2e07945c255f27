//! A disk over a folder of real files. It tells nothing of them: what is proved is that it counts
//! its faults.
//!
//! Two programs must not write one log. A disk for writing locks the folder (an advisory lock,
//! `flock`) before its first listing, and holds the lock until it is dropped. Where another holds
//! it, or the folder was absent at first and is there at the first write, the disk is refused: each
//! of its calls fails, and nothing is changed. So does each call after a sync that the system has
//! refused.
//!
//! A file is published by writing it under a name that no `Name` has, syncing it, renaming it and
//! syncing the folder; a link is a copy that is published. What a program that ended early left of
//! this is never listed, and the next one that changes the folder removes it.
ghost use Rattle.std.specs.Prelude.{◌≡◌, ◌≢◌, Err};
ghost use Rattle.clog_disk.specs.Causes.{HasDiskCause};

mod trying;

use crate::disk::{Disk, DiskFault};
use crate::hold::Hold;
use crate::listed::Listed;
use crate::real_files::{FOLDER, Place, not_regular, path_of};
use clog_base::{Name, Rows};
use std::alloc::Global;
use std::fs::File;
use std::io;
use std::io::ErrorKind;
use std::rt::Files;

/// A file that was opened to be read.
#[derive(Drop)]
struct Opened {
    name: Name,
    file: File,
}

/// The folder `commitlog` below the current folder. It is made at the first write, and lists as
/// empty where it is absent. What `sync` says to last is synced with its name and its folder's.
#[derive(Drop)]
pub struct FolderDisk<R: Files<File = File> + AllocGlobal + Clone + Drop> {
    rt: R,
    hold: Hold,
    /// The file that was read last.
    opened: Option<Opened>,
    faults: u64,
    /// The last call that failed and what the system said, if there was memory for the text.
    refusal: Option<String>,
}

/// A name that was listed, and its path.
#[derive(Drop)]
struct Listing {
    name: Name,
    path: String,
}

// Names with their paths, before the system is asked for anything.
fn with_paths(alloc: Global, names: &[Name]) -> io::Result<Vec<Listing>> {
    let mut listed = Vec::new(alloc);
    for name in names {
        let path = path_of(alloc, name)?;
        listed.push(Listing { name: *name, path })?;
    }
    Ok(listed)
}

// Which call the system has refused, and what it said.
fn refusal(alloc: Global, call: &str, name: Option<&Name>, error: io::Error) -> io::Result<String> {
    match name {
        Some(name) => {
            let path = path_of(alloc, name)?;
            Ok(format!(in alloc; "{call} {path}: {error}")?)
        }
        None => Ok(format!(in alloc; "{call} {FOLDER}: {error}")?),
    }
}

impl<R: Files<File = File> + AllocGlobal + Clone + Drop> FolderDisk<R> {
    // A disk that has called nothing yet.
    fn new(rt: R, hold: Hold) -> Self
        ensures { ⟦<FolderDisk<R> as Disk>⟧.faults result ≡ 0 }
    {
        FolderDisk {
            rt,
            hold,
            opened: None,
            faults: 0,
            refusal: None,
        }
    }

    /// For a command that writes. It looks at the folder at its first call, and locks it: where
    /// another program holds it each call fails.
    pub fn for_writing(rt: R) -> Self
        ensures { ⟦<FolderDisk<R> as Disk>⟧.faults result ≡ 0 }
    {
        FolderDisk::new(rt, Hold::Untried)
    }

    /// For a command that only reads, which takes no lock. Its calls that would write fail.
    pub fn for_reading(rt: R) -> Self
        ensures { ⟦<FolderDisk<R> as Disk>⟧.faults result ≡ 0 }
    {
        FolderDisk::new(rt, Hold::OnlyReads)
    }

    /// The last call that the system has refused, for people to read: `append commitlog/NAME: ` and
    /// the system's words. It may be absent after `Failed` where there was no memory for it.
    pub fn last_refusal(&self) -> Option<&str> {
        match &self.refusal {
            Some(text) => Some(text.as_str()),
            None => None,
        }
    }

    // What a refusal of the system is to the caller: it is counted, and kept for people.
    fn counted<T>(
        &mut self,
        call: &str,
        name: Option<&Name>,
        outcome: io::Result<T>,
    ) -> Result<T, DiskFault>
        ensures cause { HasDiskCause self.old.faults self.new.faults result }
        ensures found { result ≢ Err DiskFault.NoSuchFile }
        ensures memory { result ≢ Err DiskFault.OutOfMemory }
    {
        match outcome {
            Ok(value) => Ok(value),
            Err(error) => {
                self.faults = self.faults.saturating_add(1);
                self.refusal = refusal(self.rt.alloc(), call, name, error).ok();
                Err(DiskFault::Failed)
            }
        }
    }

    // The same of what changes nothing: want of memory is answered as such, and not counted.
    fn looked<T>(
        &mut self,
        call: &str,
        name: Option<&Name>,
        outcome: io::Result<T>,
    ) -> Result<T, DiskFault>
        ensures cause { HasDiskCause self.old.faults self.new.faults result }
        ensures found { result ≢ Err DiskFault.NoSuchFile }
    {
        match outcome {
            Err(error) if error.kind() == ErrorKind::OutOfMemory => Err(DiskFault::OutOfMemory),
            outcome => self.counted(call, name, outcome),
        }
    }

    // The path of a name, before the system is asked for anything.
    fn path(&mut self, call: &str, name: &Name) -> Result<String, DiskFault>
        ensures cause { HasDiskCause self.old.faults self.new.faults result }
        ensures found { result ≢ Err DiskFault.NoSuchFile }
    {
        let path = path_of(self.rt.alloc(), name);
        self.looked(call, Some(name), path)
    }
}

impl<R: Files<File = File> + AllocGlobal + Clone + Drop> Disk for FolderDisk<R> {
    ghost use Rattle.std.specs.Prelude.{None, [], refl, ⊤};

    ghost files = { λ d. None };

    ghost changes = { λ d. None };

    ghost leaves = { λ d name left. ⊥ };

    ghost moment = { λ d. 0 };

    ghost since = { λ d t image. ⊥ };

    ghost read_at = { λ d t. None };

    ghost lasted_at = { λ d t. ⊤ };

    ghost faults = { λ d. d.faults };

    fn list(&mut self) -> Result<Rows<Name>, DiskFault> {
        let listed = self.try_list();
        match self.looked("list", None, listed)? {
            Listed::Names(names) => Ok(Rows::new(names)),
            Listed::Irregular(name) => self.counted("list", Some(&name), Err(not_regular())),
        }
    }

    fn len(&mut self, name: &Name) -> Result<u64, DiskFault> {
        let path = self.path("measure", name)?;
        let path = path.as_str();
        let size = self.try_len(Place { name, path });
        self.looked("measure", Some(name), size)
    }

    fn read(&mut self, name: &Name, at: u64, count: u32) -> Result<Vec<u8>, DiskFault> {
        let path = self.path("read", name)?;
        let path = path.as_str();
        let bytes = self.try_read(Place { name, path }, at, count);
        let mut bytes = self.looked("read", Some(name), bytes)?;
        // No clause of the system's reader says that it stops there.
        bytes.truncate(count as usize);
        Ok(bytes)
    }

    fn append_at(&mut self, name: &Name, at: u64, bytes: &[u8]) -> Result<(), DiskFault> {
        let path = self.path("append", name)?;
        let path = path.as_str();
        let done = self.try_append(Place { name, path }, at, bytes);
        self.counted("append", Some(name), done)
    }

    fn sync(&mut self, name: &Name) -> Result<(), DiskFault> {
        let path = self.path("sync", name)?;
        let path = path.as_str();
        let done = self.try_sync(Place { name, path });
        self.counted("sync", Some(name), done)
    }

    fn settle(&mut self) -> Result<(), DiskFault> {
        let names = self.list()?;
        let listed = with_paths(self.rt.alloc(), names.as_slice());
        for Listing { name, path } in &self.looked("sync", None, listed)? {
            let path = path.as_str();
            let done = self.try_sync_file(Place { name, path });
            self.counted("sync", Some(name), done)?;
        }
        let done = self.try_sync_names();
        self.counted("sync", None, done)
    }

    fn publish(&mut self, name: &Name, bytes: &[u8]) -> Result<(), DiskFault> {
        let path = self.path("publish", name)?;
        let path = path.as_str();
        let done = self.try_publish(Place { name, path }, bytes);
        self.counted("publish", Some(name), done)
    }

    fn remove(&mut self, name: &Name) -> Result<(), DiskFault> {
        let path = self.path("remove", name)?;
        let path = path.as_str();
        let done = self.try_remove(Place { name, path });
        self.counted("remove", Some(name), done)
    }

    fn link(&mut self, name: &Name, second: &Name) -> Result<(), DiskFault> {
        let path = self.path("link", name)?;
        let place = Place {
            name,
            path: path.as_str(),
        };
        let path = self.path("link", second)?;
        let second = Place {
            name: second,
            path: path.as_str(),
        };
        let done = self.try_link(place, second);
        self.counted("link", Some(name), done)
    }

    fn fault_count(&self) -> u64 {
        self.faults
    }

    fn moment_count(&self) -> u64 {
        0
    }

    fn change_count(&self) -> u64 {
        0
    }

    ghost tells_both = { λ d. refl };

    ghost reads_now = { λ d. refl };

    ghost lasts_now = { λ d. tt };

    ghost reads_an_image = { λ d. tt };

    ghost counts_now = { λ d t image le left. left [] };

    ghost only_now = { λ d image left. absurd left };
}
