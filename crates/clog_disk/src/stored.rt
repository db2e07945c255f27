//! Files in memory, and the notes by which each change of them is undone. The note is made before
//! the change: one too many puts back what is there.
ghost use Rattle.std.specs.Prelude.{
  ◌≡◌,
  length,
  take,
  drop,
  Some,
  option_map,
  IfOk,
  OnOk,
  OnErr,
};
ghost use Rattle.std.specs.BTreeMap.{keys, IsOrdered};
ghost use Rattle.std.specs.Ordering.{nat_cmp};
ghost use Rattle.std.specs.Cmp.Lexicographic.{slice_cmp};
ghost use Rattle.clog_disk.specs.Stored.{grown, grown_at, made_of, lasting_of, settled};
ghost use Rattle.clog_disk.specs.InMemory.{state_of, with_file, undo_at, AllSettled, Steps};

mod past;
mod sample;

use clog_base::Name;
pub(crate) use past::files_at;
pub(crate) use sample::{Left, image_of, sample_of};
use std::alloc::{AllocError, Global};
use std::collections::BTreeMap;
use std::marker::Model;

/// A file: its bytes, how many of them last, and whether its name lasts.
#[derive(Drop)]
pub(crate) struct File {
    bytes: Vec<u8>,
    synced: usize,
    sure: bool,
}

impl Model for File {
    ghost use Rattle.clog_disk.specs.Stored.{Stored};

    ghost Value = { Stored };

    ghost view = { λ f. record { bytes = f.bytes.items; synced = f.synced; sure = f.sure } };
}

/// What a file was before a call: its length, how much of it lasted, and whether its name did.
#[derive(Clone, Copy)]
pub(crate) struct Extent {
    pub(crate) size: usize,
    pub(crate) synced: usize,
    pub(crate) sure: bool,
}

/// How a call is undone.
#[derive(Drop)]
pub(crate) enum Undo {
    /// The file is cut back to what it was.
    Cut(Name, Extent),
    /// The file was not there.
    Absent(Name),
    /// This file stood there.
    Was(Name, File),
    /// These were all files.
    Were(BTreeMap<Name, File>),
}

impl File {
    // A file that an append made.
    fn made_of(alloc: Global, bytes: &[u8]) -> Result<File, AllocError>
        ensures { IfOk result (λ f. f ≡ made_of bytes.now) }
    {
        Ok(File {
            bytes: bytes.to_vec(alloc)?,
            synced: 0,
            sure: false,
        })
    }

    /// A file all of whose bytes last.
    pub(crate) fn lasting_of(alloc: Global, bytes: &[u8]) -> Result<File, AllocError>
        ensures { IfOk result (λ f. f ≡ lasting_of bytes.now) }
    {
        Ok(File {
            bytes: bytes.to_vec(alloc)?,
            synced: bytes.len(),
            sure: true,
        })
    }

    pub(crate) fn as_slice(&self) -> &[u8]
        ensures { result.now ≡ self.now.bytes }
    {
        self.bytes.as_slice()
    }

    fn extent(&self) -> Extent
        ensures size { result.size ≡ length self.now.bytes }
        ensures synced { result.synced ≡ self.now.synced }
        ensures sure { result.sure ≡ self.now.sure }
    {
        Extent {
            size: self.bytes.len(),
            synced: self.synced,
            sure: self.sure,
        }
    }

    fn grow(&mut self, bytes: &[u8]) -> Result<(), AllocError>
        ensures ok { OnOk result (self.new ≡ grown self.old bytes.now) }
        ensures err { OnErr result (self.new ≡ self.old) }
    {
        self.bytes.extend_from_slice(bytes)?;
        Ok(())
    }

    fn settle(&mut self)
        ensures { self.new ≡ settled self.old }
    {
        self.synced = self.bytes.len();
        self.sure = true;
    }
}

/// How a call that changes what stands at a name is undone, where it only puts bytes behind it or
/// makes it last.
pub(crate) fn undo_of(files: &BTreeMap<Name, File>, name: &Name) -> Undo
    ensures { result ≡ undo_at name.now (state_of files.now.entries name.now) }
{
    match files.get(name) {
        Some(file) => Undo::Cut(*name, file.extent()),
        None => Undo::Absent(*name),
    }
}

// Puts bytes behind the end of a file, which is made where it is absent.
fn grow_at(
    alloc: Global,
    files: &mut BTreeMap<Name, File>,
    name: &Name,
    bytes: &[u8],
) -> Result<(), AllocError>
    ensures ok { OnOk result (state_of files.new.entries
        ≡ with_file (state_of files.old.entries) name.now
        (Some (grown_at (state_of files.old.entries name.now) bytes.now))) }
    ensures err { OnErr result (files.new.entries ≡ files.old.entries) }
{
    match files.get_mut(name) {
        Some(file) => {
            file.grow(bytes)?;
            Ok(())
        }
        None => {
            let file = File::made_of(alloc, bytes)?;
            files.insert(*name, file)?;
            Ok(())
        }
    }
}

// Makes all of a file last, where it is there.
fn settle_at(files: &mut BTreeMap<Name, File>, name: &Name)
    ensures { state_of files.new.entries
        ≡ with_file (state_of files.old.entries) name.now
        (option_map settled (state_of files.old.entries name.now)) }
{
    match files.get_mut(name) {
        Some(file) => file.settle(),
        None => {}
    }
}

/// Puts bytes behind the end of a file, which is made where it is absent, and notes it.
pub(crate) fn append_to(
    alloc: Global,
    files: &mut BTreeMap<Name, File>,
    undos: &mut Vec<Undo>,
    name: &Name,
    bytes: &[u8],
) -> Result<(), AllocError>
    ensures ok { OnOk result (state_of files.new.entries
        ≡ with_file (state_of files.old.entries) name.now
        (Some (grown_at (state_of files.old.entries name.now) bytes.now))) }
    ensures err { OnErr result (files.new.entries ≡ files.old.entries) }
    ensures steps { Steps (state_of files.old.entries) (state_of files.new.entries) undos.old.items
        undos.new.items }
{
    undos.push(undo_of(files, name))?;
    grow_at(alloc, files, name, bytes)?;
    Ok(())
}

/// Makes a file last, where it is there, and notes it.
pub(crate) fn settle_file(
    files: &mut BTreeMap<Name, File>,
    undos: &mut Vec<Undo>,
    name: &Name,
) -> Result<(), AllocError>
    ensures ok { OnOk result (state_of files.new.entries
        ≡ with_file (state_of files.old.entries) name.now
        (option_map settled (state_of files.old.entries name.now))) }
    ensures err { OnErr result (files.new.entries ≡ files.old.entries) }
    ensures steps { Steps (state_of files.old.entries) (state_of files.new.entries) undos.old.items
        undos.new.items }
{
    undos.push(undo_of(files, name))?;
    settle_at(files, name);
    Ok(())
}

/// Makes all files last, and notes it.
pub(crate) fn settle_all(
    alloc: Global,
    files: &mut BTreeMap<Name, File>,
    undos: &mut Vec<Undo>,
) -> Result<(), AllocError>
    ensures ok { OnOk result (AllSettled (state_of files.old.entries)
        (state_of files.new.entries)) }
    ensures err { OnErr result (files.new.entries ≡ files.old.entries) }
    ensures steps { Steps (state_of files.old.entries) (state_of files.new.entries) undos.old.items
        undos.new.items }
{
    let settled = image_of(alloc, files, &Left::Written)?;
    undos.push(Undo::Were(files.clone()?))?;
    *files = settled;
    Ok(())
}

/// The names of all files, ascending.
pub(crate) fn names_of(alloc: Global, files: &BTreeMap<Name, File>) -> Result<Vec<Name>, AllocError>
    ensures names { IfOk result (λ names. names.items ≡ keys files.now) }
    ensures ordered { IsOrdered (slice_cmp nat_cmp) files.now }
{
    files.keys().copied().collect(alloc)
}

/// The bytes from `at` on, `count` of them, or fewer where they end before.
pub(crate) fn part(alloc: Global, bytes: &[u8], at: u64, count: u32) -> Result<Vec<u8>, AllocError>
    ensures { IfOk result (λ part. part.items ≡ take count (drop at bytes.now)) }
{
    if at >= bytes.len() as u64 {
        return Ok(Vec::new(alloc));
    }
    let rest = &bytes[at as usize..];
    let size = rest.len().min(count as usize);
    rest[..size].to_vec(alloc)
}
