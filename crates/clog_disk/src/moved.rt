//! Files in memory that come to a name whole, or go. What stood there is kept in the note by which
//! the call is undone.
//!
//! There is no memory to be had between the change and its note, so a note that puts back what is
//! there is made first, and what stood there is moved into its place afterwards.
ghost use Rattle.std.specs.Prelude.{◌≡◌, List, [], ◌∷◌, ◌++◌, Some, None, OnOk, OnErr};
ghost use Rattle.clog_disk.specs.Stored.{lasting_of};
ghost use Rattle.clog_disk.specs.InMemory.{state_of, with_file, undo_at, moved_at, Steps};
ghost use Rattle.clog_disk.specs.declared.stored.Undo.{Undo as undo_type};
ghost use Rattle.clog_disk.specs.declared.stored.Undo.TheVariants as undo;

use crate::stored::{File, Undo, undo_of};
use clog_base::Name;
use std::alloc::{AllocError, Global};
use std::collections::BTreeMap;

// Notes that a file stood at a name, in the place of the last note.
fn note_moved(undos: &mut Vec<Undo>, name: &Name, file: File)
    ensures { (before : List undo_type) (last : undo_type) → undos.old.items ≡ before ++ last ∷ []
        → undos.new.items ≡ before ++ undo.Was name.now file ∷ [] }
{
    if let Some(last) = undos.last_mut() {
        *last = Undo::Was(*name, file);
    }
}

// Puts a file at a name. What stood there goes into the last note, which spoke of this name.
fn replace_at(
    files: &mut BTreeMap<Name, File>,
    undos: &mut Vec<Undo>,
    name: &Name,
    file: File,
) -> Result<(), AllocError>
    ensures ok { OnOk result (state_of files.new.entries
        ≡ with_file (state_of files.old.entries) name.now (Some file)) }
    ensures err { OnErr result (files.new.entries ≡ files.old.entries) }
    ensures noted { (before : List undo_type)
        → undos.old.items ≡ before ++ undo_at name.now (state_of files.old.entries name.now) ∷ []
        → OnOk result (undos.new.items
        ≡ before ++ moved_at name.now (state_of files.old.entries name.now) ∷ []) }
    ensures kept { OnErr result (undos.new.items ≡ undos.old.items) }
{
    match files.insert(*name, file) {
        Ok(Some(old)) => {
            note_moved(undos, name, old);
            Ok(())
        }
        Ok(None) => Ok(()),
        Err(_) => Err(AllocError),
    }
}

/// Puts a file in place whose bytes all last, and notes it.
pub(crate) fn put_lasting(
    alloc: Global,
    files: &mut BTreeMap<Name, File>,
    undos: &mut Vec<Undo>,
    name: &Name,
    bytes: &[u8],
) -> Result<(), AllocError>
    ensures ok { OnOk result (state_of files.new.entries
        ≡ with_file (state_of files.old.entries) name.now (Some (lasting_of bytes.now))) }
    ensures err { OnErr result (files.new.entries ≡ files.old.entries) }
    ensures steps { Steps (state_of files.old.entries) (state_of files.new.entries) undos.old.items
        undos.new.items }
{
    let file = File::lasting_of(alloc, bytes)?;
    undos.push(undo_of(files, name))?;
    replace_at(files, undos, name, file)
}

// Takes away what stands at a name. It goes into the last note, which spoke of this name.
fn take_from(files: &mut BTreeMap<Name, File>, undos: &mut Vec<Undo>, name: &Name)
    ensures gone { state_of files.new.entries
        ≡ with_file (state_of files.old.entries) name.now None }
    ensures noted { (before : List undo_type)
        → undos.old.items ≡ before ++ undo_at name.now (state_of files.old.entries name.now) ∷ []
        → undos.new.items
        ≡ before ++ moved_at name.now (state_of files.old.entries name.now) ∷ [] }
{
    match files.remove(name) {
        Some(old) => note_moved(undos, name, old),
        None => {}
    }
}

/// Removes a file, where it is there, and notes it.
pub(crate) fn remove_file(
    files: &mut BTreeMap<Name, File>,
    undos: &mut Vec<Undo>,
    name: &Name,
) -> Result<(), AllocError>
    ensures ok { OnOk result (state_of files.new.entries
        ≡ with_file (state_of files.old.entries) name.now None) }
    ensures err { OnErr result (files.new.entries ≡ files.old.entries) }
    ensures steps { Steps (state_of files.old.entries) (state_of files.new.entries) undos.old.items
        undos.new.items }
{
    undos.push(undo_of(files, name))?;
    take_from(files, undos, name);
    Ok(())
}
