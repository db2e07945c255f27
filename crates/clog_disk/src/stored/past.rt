//! Files in memory as they were at a past moment.
ghost use Rattle.std.specs.Prelude.{◌≡◌, ◌≤◌, length, drop, Some, IfOk, OnOk};
ghost use Rattle.clog_disk.specs.Stored.{cut_to};
ghost use Rattle.clog_disk.specs.InMemory.{state_of, with_file, undone, back};

use crate::stored::{Extent, File, Undo};
use clog_base::Name;
use std::alloc::{AllocError, Global};
use std::collections::BTreeMap;

impl Clone for File {
    ghost is_clone = { λ file other. other ≡ file };

    fn clone(&self) -> Result<File, AllocError> {
        Ok(File {
            bytes: self.bytes.clone()?,
            synced: self.synced,
            sure: self.sure,
        })
    }
}

impl File {
    fn cut(&mut self, was: &Extent)
        ensures { Some self.new ≡ cut_to (Some self.old) was.now.size was.now.synced was.now.sure }
    {
        self.bytes.truncate(was.size);
        self.synced = was.synced;
        self.sure = was.sure;
    }
}

// Cuts a file back to what it was, where it is there.
fn cut_at(files: &mut BTreeMap<Name, File>, name: &Name, was: &Extent)
    ensures { state_of files.new.entries
        ≡ with_file (state_of files.old.entries) name.now
        (cut_to (state_of files.old.entries name.now) was.now.size was.now.synced was.now.sure) }
{
    match files.get_mut(name) {
        Some(file) => file.cut(was),
        None => {}
    }
}

// Undoes one call.
fn take_back(files: &mut BTreeMap<Name, File>, undo: &Undo) -> Result<(), AllocError>
    ensures { OnOk result (state_of files.new.entries
        ≡ undone undo.now (state_of files.old.entries)) }
{
    match undo {
        Undo::Cut(name, was) => cut_at(files, name, was),
        Undo::Absent(name) => {
            files.remove(name);
        }
        Undo::Was(name, file) => {
            files.insert(*name, file.clone()?)?;
        }
        Undo::Were(all) => *files = all.clone()?,
    }
    Ok(())
}

/// The files before the calls from a moment on were made.
pub(crate) fn files_at(
    files: &BTreeMap<Name, File>,
    undos: &[Undo],
    moment: usize,
) -> Result<BTreeMap<Name, File>, AllocError>
    requires { moment ≤ length undos.now }
    ensures { IfOk result (λ past. state_of past.entries
        ≡ back (drop moment undos.now) (state_of files.now.entries)) }
{
    let mut past = files.clone()?;
    let mut n = undos.len();
    while n > moment {
        n -= 1;
        take_back(&mut past, &undos[n])?;
    }
    Ok(past)
}
