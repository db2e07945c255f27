//! A disk that drops what it is given: a store over it does all of its work but the disk's.
use clog_base::{Name, Rows};
use clog_disk::{Disk, DiskFault};
use std::alloc::Global;

/// A disk that takes each call and keeps nothing. It tells nothing of its files, and never fails.
#[derive(Drop)]
pub struct DroppingDisk {
    alloc: Global,
}

impl DroppingDisk {
    /// Such a disk.
    pub fn new(alloc: Global) -> DroppingDisk {
        DroppingDisk { alloc }
    }
}

impl Disk for DroppingDisk {
    ghost use Rattle.std.specs.Prelude.{None, [], refl, ⊤};

    ghost files = { λ d. None };

    ghost changes = { λ d. None };

    ghost leaves = { λ d name left. ⊥ };

    ghost moment = { λ d. 0 };

    ghost since = { λ d t image. ⊥ };

    ghost read_at = { λ d t. None };

    ghost lasted_at = { λ d t. ⊤ };

    ghost faults = { λ d. 0 };

    fn list(&mut self) -> Result<Rows<Name>, DiskFault> {
        Ok(Rows::new(Vec::new(self.alloc)))
    }

    fn len(&mut self, _name: &Name) -> Result<u64, DiskFault> {
        Ok(0)
    }

    fn read(&mut self, _name: &Name, _at: u64, _count: u32) -> Result<Vec<u8>, DiskFault> {
        Ok(Vec::new(self.alloc))
    }

    fn append_at(&mut self, _name: &Name, _at: u64, _bytes: &[u8]) -> Result<(), DiskFault> {
        Ok(())
    }

    fn sync(&mut self, _name: &Name) -> Result<(), DiskFault> {
        Ok(())
    }

    fn settle(&mut self) -> Result<(), DiskFault> {
        Ok(())
    }

    fn publish(&mut self, _name: &Name, _bytes: &[u8]) -> Result<(), DiskFault> {
        Ok(())
    }

    fn remove(&mut self, _name: &Name) -> Result<(), DiskFault> {
        Ok(())
    }

    fn link(&mut self, _name: &Name, _second: &Name) -> Result<(), DiskFault> {
        Ok(())
    }

    fn fault_count(&self) -> u64 {
        0
    }

    fn moment_count(&self) -> u64 {
        0
    }

    fn change_count(&self) -> u64 {
        0
    }

    ghost tells_both = { λ d. refl };

    ghost reads_now = { λ d. refl };

    ghost lasts_now = { λ d. tt };

    ghost reads_an_image = { λ d. tt };

    ghost counts_now = { λ d t image le left. left [] };

    ghost only_now = { λ d image left. absurd left };
}
