//! The calls of the disk in memory. What each needs of memory it has before it changes anything, or
//! the change that it noted is taken back.
ghost use Rattle.std.specs.Prelude.{◌≡◌, [], length, Some, IfOk};

use crate::change::Change;
use crate::disk::{Disk, DiskFault};
use crate::memory::MemDisk;
use crate::moved::{put_lasting, remove_file};
use crate::stored::{append_to, names_of, part, settle_all, settle_file};
use clog_base::{Bytes, Name, Rows};
use std::alloc::{AllocError, Global};

// The bytes once more, for the list of changes.
fn copy_of(alloc: Global, bytes: &[u8]) -> Result<Bytes, AllocError>
    ensures { IfOk result (λ copy. copy ≡ bytes.now) }
{
    Ok(Bytes::new(bytes.to_vec(alloc)?))
}

impl Disk for MemDisk {
    ghost use Rattle.std.specs.Prelude.{refl};
    ghost use Rattle.clog_disk.specs.Stored.{may_leave};
    ghost use Rattle.clog_disk.specs.InMemory.{files_of, state_of, LastedAt, Since, reading_at};
    ghost use Rattle.clog_disk.specs.InMemoryLaws.{
      lasting_now,
      reading_now,
      reads_now_an_image,
      counts_this_moment,
      only_this_moment,
    };

    ghost files = { λ d. Some (files_of d.files.entries) };

    ghost changes = { λ d. Some d.changes.items };

    ghost leaves = { λ d name left. may_leave (state_of d.files.entries name) left };

    ghost moment = { λ d. length d.undos.items };

    ghost since = { λ d t image. Since (state_of d.files.entries) d.undos.items t image };

    ghost read_at = { λ d t. Some (reading_at (state_of d.files.entries) d.undos.items t) };

    ghost lasted_at = { λ d t. LastedAt (state_of d.files.entries) d.undos.items t };

    ghost faults = { λ d. d.calls.faults };

    ghost reliable = { λ d. d.calls.failing ≡ [] };

    fn list(&mut self) -> Result<Rows<Name>, DiskFault> {
        if self.calls.make() {
            return Err(DiskFault::Failed);
        }
        let names = names_of(self.alloc, &self.files)?;
        Ok(Rows::new(names))
    }

    fn len(&mut self, name: &Name) -> Result<u64, DiskFault> {
        if self.calls.make() {
            return Err(DiskFault::Failed);
        }
        match self.files.get(name) {
            Some(file) => Ok(file.as_slice().len() as u64),
            None => Err(DiskFault::NoSuchFile),
        }
    }

    fn read(&mut self, name: &Name, at: u64, count: u32) -> Result<Vec<u8>, DiskFault> {
        if self.calls.make() {
            return Err(DiskFault::Failed);
        }
        match self.files.get(name) {
            Some(file) => Ok(part(self.alloc, file.as_slice(), at, count)?),
            None => Err(DiskFault::NoSuchFile),
        }
    }

    fn append_at(&mut self, name: &Name, _at: u64, bytes: &[u8]) -> Result<(), DiskFault> {
        if self.calls.make() {
            return Err(DiskFault::Failed);
        }
        let change = Change::Append(*name, copy_of(self.alloc, bytes)?);
        self.changes.push(change)?;
        match append_to(self.alloc, &mut self.files, &mut self.undos, name, bytes) {
            Ok(()) => Ok(()),
            Err(_) => {
                self.changes.pop();
                Err(DiskFault::OutOfMemory)
            }
        }
    }

    fn sync(&mut self, name: &Name) -> Result<(), DiskFault> {
        if self.calls.make() {
            return Err(DiskFault::Failed);
        }
        if !self.files.contains_key(name) {
            return Err(DiskFault::NoSuchFile);
        }
        settle_file(&mut self.files, &mut self.undos, name)?;
        Ok(())
    }

    fn settle(&mut self) -> Result<(), DiskFault> {
        if self.calls.make() {
            return Err(DiskFault::Failed);
        }
        settle_all(self.alloc, &mut self.files, &mut self.undos)?;
        Ok(())
    }

    fn publish(&mut self, name: &Name, bytes: &[u8]) -> Result<(), DiskFault> {
        if self.calls.make() {
            return Err(DiskFault::Failed);
        }
        let change = Change::Publish(*name, copy_of(self.alloc, bytes)?);
        self.changes.push(change)?;
        match put_lasting(self.alloc, &mut self.files, &mut self.undos, name, bytes) {
            Ok(()) => Ok(()),
            Err(_) => {
                self.changes.pop();
                Err(DiskFault::OutOfMemory)
            }
        }
    }

    fn remove(&mut self, name: &Name) -> Result<(), DiskFault> {
        if self.calls.make() {
            return Err(DiskFault::Failed);
        }
        if !self.files.contains_key(name) {
            return Err(DiskFault::NoSuchFile);
        }
        self.changes.push(Change::Remove(*name))?;
        match remove_file(&mut self.files, &mut self.undos, name) {
            Ok(()) => Ok(()),
            Err(_) => {
                self.changes.pop();
                Err(DiskFault::OutOfMemory)
            }
        }
    }

    fn link(&mut self, name: &Name, second: &Name) -> Result<(), DiskFault> {
        if self.calls.make() {
            return Err(DiskFault::Failed);
        }
        let bytes = match self.files.get(name) {
            Some(file) => copy_of(self.alloc, file.as_slice())?,
            None => return Err(DiskFault::NoSuchFile),
        };
        self.changes.push(Change::Link(*name, *second))?;
        let bytes = bytes.as_slice();
        match put_lasting(self.alloc, &mut self.files, &mut self.undos, second, bytes) {
            Ok(()) => Ok(()),
            Err(_) => {
                self.changes.pop();
                Err(DiskFault::OutOfMemory)
            }
        }
    }

    fn fault_count(&self) -> u64 {
        self.calls.fault_count()
    }

    fn moment_count(&self) -> u64 {
        self.undos.len() as u64
    }

    fn change_count(&self) -> u64 {
        self.changes.len() as u64
    }

    ghost tells_both = { λ d. refl };

    ghost reads_now = { λ d. reading_now d.files.entries d.undos.items };

    ghost lasts_now = { λ d. lasting_now d.files.entries d.undos.items };

    ghost reads_an_image = { λ d. reads_now_an_image d.files.entries };

    ghost counts_now = { λ d t image le left.
        counts_this_moment (state_of d.files.entries) d.undos.items t image le left };

    ghost only_now = { λ d image left.
        only_this_moment (state_of d.files.entries) d.undos.items image left };
}
