//! A disk in memory, for tests and for claims on crashes. It notes how each call that changed a
//! file is undone, so that each past moment can be told.
ghost use Rattle.std.specs.Prelude.{◌≡◌, ℕ, List, [], Some, None, option_map};
ghost use Rattle.std.specs.FinMap as map;
ghost use Rattle.clog_io.specs.Calls.{first_of};
ghost use Rattle.clog_disk.specs.Changes.{change_at};
ghost use Rattle.clog_disk.specs.Files.{at_name, no_files};
ghost use Rattle.clog_disk.specs.Images.{LastsAs};

mod calls;
mod images;

use crate::change::Change;
use crate::disk::Disk;
use crate::stored::{File, Undo};
use clog_base::Name;
use clog_io::FailingCalls;
use std::alloc::Global;
use std::collections::BTreeMap;

/// Files in memory. Its images are all that the trait lets a crash leave: `may_leave` says which,
/// by name.
#[derive(Drop)]
pub struct MemDisk {
    alloc: Global,
    files: BTreeMap<Name, File>,
    undos: Vec<Undo>,
    changes: Vec<Change>,
    calls: FailingCalls,
}

impl MemDisk {
    /// A disk with no file, none of whose calls fails.
    pub fn new(alloc: Global) -> MemDisk
        ensures files { ⟦<MemDisk as Disk>⟧.files result ≡ Some no_files }
        ensures images { (name : List ℕ) → LastsAs (⟦<MemDisk as Disk>⟧.leaves result) name None }
        ensures moment { ⟦<MemDisk as Disk>⟧.moment result ≡ 0 }
        ensures changes { ⟦<MemDisk as Disk>⟧.changes result ≡ Some [] }
        ensures faults { ⟦<MemDisk as Disk>⟧.faults result ≡ 0 }
        ensures reliable { ⟦<MemDisk as Disk>⟧.reliable result }
        ensures calls { result.calls ≡ first_of [] }
    {
        MemDisk::failing(alloc, Vec::new(alloc))
    }

    /// A disk with no file. `calls` are the numbers of the calls that fail, from 1, ascending:
    /// counted are the calls of `list`, `len`, `read`, `append_at`, `sync`, `settle`, `publish`,
    /// `remove` and `link`, all together and in the order in which they come. A call that fails
    /// does nothing but count a fault.
    pub fn failing(alloc: Global, calls: Vec<u64>) -> MemDisk
        ensures files { ⟦<MemDisk as Disk>⟧.files result ≡ Some no_files }
        ensures images { (name : List ℕ) → LastsAs (⟦<MemDisk as Disk>⟧.leaves result) name None }
        ensures moment { ⟦<MemDisk as Disk>⟧.moment result ≡ 0 }
        ensures changes { ⟦<MemDisk as Disk>⟧.changes result ≡ Some [] }
        ensures faults { ⟦<MemDisk as Disk>⟧.faults result ≡ 0 }
        ensures reliable { calls.items ≡ [] → ⟦<MemDisk as Disk>⟧.reliable result }
        ensures calls { result.calls ≡ first_of calls.items }
    {
        MemDisk {
            alloc,
            files: BTreeMap::new(alloc),
            undos: Vec::new(alloc),
            changes: Vec::new(alloc),
            calls: FailingCalls::new(calls),
        }
    }

    /// The bytes of a file, and nothing where it is absent. It is no call of the disk.
    pub fn bytes(&self, name: &Name) -> Option<&[u8]>
        ensures { option_map (λ bytes. bytes.now) result
            ≡ at_name (⟦<MemDisk as Disk>⟧.files self.now) name.now }
    {
        match self.files.get(name) {
            Some(file) => Some(file.as_slice()),
            None => None,
        }
    }

    /// The change at a place, from 0, and nothing behind the last. It is no call of the disk.
    pub fn change(&self, n: u64) -> Option<&Change>
        ensures { option_map (λ change. change.now) result
            ≡ change_at (⟦<MemDisk as Disk>⟧.changes self.now) n }
    {
        self.changes.get(n as usize)
    }
}
