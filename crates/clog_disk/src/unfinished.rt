//! The file that is being written before it takes its name. It stands in the folder under a name
//! too long to be a `Name`: no call of a disk can mean it, and no listing has it. Only one is there
//! at a time, since one program writes a folder.
use crate::real_files::file_there;
use std::fs::{File, OpenOptions};
use std::rt::Files;
use std::{fs, io};

/// Where it stands.
const UNFINISHED: &str =
    "commitlog/being-published-by-pinsilver-and-may-be-removed-where-no-program-runs.tmp";

/// Makes it, empty and open to be written, for a path where nothing stands but a regular file,
/// whose mode it takes. It must not be there. The handle's number is above those of the standard
/// streams: what goes to a closed stream never lands in the file.
pub(crate) fn new_unfinished<R: Files<File = File>>(rt: &R, path: &str) -> io::Result<File> {
    let over = file_there(rt, path)?;
    let opened = OpenOptions::new()
        .write(true)
        .create_new(true)
        .open(rt, UNFINISHED)?;
    if let Some(over) = over {
        opened.set_permissions(over.permissions())?;
    }
    opened.try_clone()
}

/// Gives it its name, in place of what stands there.
pub(crate) fn give_name<R: Files<File = File>>(rt: &R, path: &str) -> io::Result<()> {
    fs::rename(rt, UNFINISHED, path)
}

/// Removes it, if it is there and can be removed.
pub(crate) fn remove_unfinished<R: Files<File = File>>(rt: &R) {
    let _ = fs::remove_file(rt, UNFINISHED);
}
