//! What a crash at a past moment might have left of a disk in memory: a sample of it, for tests.
ghost use Rattle.std.specs.Prelude.{◌≡◌, [], IfOk};
ghost use Rattle.std.specs.List.{All, AllZip};
ghost use Rattle.std.specs.BTreeMap.{IsOrdered};
ghost use Rattle.std.specs.Ordering.{nat_cmp};
ghost use Rattle.std.specs.Cmp.Lexicographic.{slice_cmp};
ghost use Rattle.clog_disk.specs.InMemory.{state_of};
ghost use Rattle.clog_disk.specs.Images.{IsRestarted};
ghost use Rattle.clog_disk.specs.Sample.{sample_of, IsMadeFrom, IsSampleAt};

use crate::disk::Disk;
use crate::memory::MemDisk;
use crate::stored::{File, Left, files_at, image_of, sample_of};
use clog_base::Name;
use clog_io::FailingCalls;
use std::alloc::{AllocError, Global};
use std::collections::BTreeMap;

// A disk that was started again with these files.
fn restarted(alloc: Global, files: BTreeMap<Name, File>) -> MemDisk
    ensures files { result.files ≡ files }
    ensures undos { result.undos.items ≡ [] }
    ensures changes { result.changes.items ≡ [] }
    ensures failing { result.calls.failing ≡ [] }
{
    MemDisk {
        alloc,
        files,
        undos: Vec::new(alloc),
        changes: Vec::new(alloc),
        calls: FailingCalls::new(Vec::new(alloc)),
    }
}

fn image(alloc: Global, past: &BTreeMap<Name, File>, left: &Left) -> Result<MemDisk, AllocError>
    ensures { IfOk result (λ image. IsMadeFrom past.now.entries left.now image) }
{
    let files = image_of(alloc, past, left)?;
    Ok(restarted(alloc, files))
}

fn images_of(alloc: Global, past: &BTreeMap<Name, File>) -> Result<Vec<MemDisk>, AllocError>
    ensures each { IfOk result (λ images.
        AllZip (IsMadeFrom past.now.entries) (sample_of past.now.entries) images.items) }
    ensures ordered { IfOk result (λ _. IsOrdered (slice_cmp nat_cmp) past.now) }
{
    let mut images = Vec::new(alloc);
    let sample = sample_of(alloc, past)?;
    for left in &sample {
        images.push(image(alloc, past, left)?)?;
    }
    Ok(images)
}

impl MemDisk {
    /// A sample of what a crash at a moment might have left, each as a disk that was started again:
    /// all that is there lasts, no call fails, and there is no past and no change. First come the
    /// files as they were written, and then what lasts of them; and then for each file with bytes
    /// that do not last, by name, two in which the others are as written: that file cut to what
    /// lasts of it, and with zeros behind that. Empty for a moment that has not come. Moments are
    /// counted from 0, the one at which the disk was made.
    pub fn images(&self, moment: u64) -> Result<Vec<MemDisk>, AllocError>
        ensures left { IfOk result (λ images. All (λ image.
            IsRestarted (⟦<MemDisk as Disk>⟧.since self.now moment)
            (⟦<MemDisk as Disk>⟧.files image) (⟦<MemDisk as Disk>⟧.leaves image)) images.items) }
        ensures sample { IfOk result (λ images. IsSampleAt (state_of self.now.files.entries)
            self.now.undos.items moment images.items) }
    {
        if moment > self.undos.len() as u64 {
            return Ok(Vec::new(self.alloc));
        }
        let past = files_at(&self.files, self.undos.as_slice(), moment as usize)?;
        let images = images_of(self.alloc, &past)?;
        Ok(images)
    }
}
