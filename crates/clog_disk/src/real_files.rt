//! What is done to the files of the folder `commitlog` below the current folder: only regular files
//! of it, through no link. Each function here hands the system's refusals on; who counts them is
//! `FolderDisk`.
//!
//! What a path leads to is looked at before it is opened. The standard library has no flag by which
//! the system would refuse a link at once, and opens nothing relative to a folder's handle. So what
//! comes to stand there in between is followed, and a folder that is moved away is not noticed.
use clog_base::Name;
use std::alloc::Global;
use std::fs::{File, Metadata, OpenOptions};
use std::io::{ErrorKind, Read, Seek, SeekFrom, Write};
use std::rt::Files;
use std::{fs, io, str};

pub(crate) const FOLDER: &str = "commitlog";

// The slash at its end refuses what is no folder.
const FOLDER_ITSELF: &str = "commitlog/";

const CURRENT_FOLDER: &str = ".";

/// A name of the folder, and its path. The path is made before the system is asked for anything, so
/// that want of memory for it leaves all as it was.
#[derive(Clone, Copy)]
pub(crate) struct Place<'a> {
    pub(crate) name: &'a Name,
    pub(crate) path: &'a str,
}

/// The path of a name.
pub(crate) fn path_of(alloc: Global, name: &Name) -> io::Result<String> {
    let text = str::from_utf8(name.as_bytes()).or(Err(io::Error::from(ErrorKind::InvalidData)))?;
    Ok(format!(in alloc; "{FOLDER}/{text}")?)
}

/// The folder opened as a file, by which it is locked and synced.
pub(crate) fn open_folder<R: Files<File = File>>(rt: &R) -> io::Result<File> {
    OpenOptions::new().read(true).open(rt, FOLDER_ITSELF)
}

/// Makes the folder; it must not be there.
pub(crate) fn make_folder<R: Files>(rt: &R) -> io::Result<()> {
    fs::create_dir(rt, FOLDER)
}

/// The folder above opened as a file, by which the folder's own name is synced.
pub(crate) fn open_above<R: Files<File = File>>(rt: &R) -> io::Result<File> {
    OpenOptions::new().read(true).open(rt, CURRENT_FOLDER)
}

/// That no regular file stands at a name.
pub(crate) fn not_regular() -> io::Error {
    io::Error::new(ErrorKind::InvalidInput, "not a regular file")
}

// What is known of a regular file. Links are not followed.
fn look_at<R: Files>(rt: &R, path: &str) -> io::Result<Metadata> {
    let found = fs::symlink_metadata(rt, path)?;
    if !found.is_file() {
        return Err(not_regular());
    }
    Ok(found)
}

// A regular file, opened. What it is comes before: a pipe would wait.
fn open_regular<R: Files<File = File>>(rt: &R, how: &OpenOptions, path: &str) -> io::Result<File> {
    look_at(rt, path)?;
    how.open(rt, path)
}

/// What is known of the regular file that stands there, if one does. Anything else is refused.
pub(crate) fn file_there<R: Files>(rt: &R, path: &str) -> io::Result<Option<Metadata>> {
    match look_at(rt, path) {
        Ok(found) => Ok(Some(found)),
        Err(e) if e.kind() == ErrorKind::NotFound => Ok(None),
        Err(e) => Err(e),
    }
}

/// The length of a regular file, in bytes.
pub(crate) fn length_of<R: Files>(rt: &R, path: &str) -> io::Result<u64> {
    Ok(look_at(rt, path)?.len())
}

/// A file opened to be read.
pub(crate) fn open_to_read<R: Files<File = File>>(rt: &R, path: &str) -> io::Result<File> {
    open_regular(rt, OpenOptions::new().read(true), path)
}

/// The bytes of a file from `at` on, `count` of them, or fewer at its end. Memory is asked for
/// once, unless the file grows meanwhile.
pub(crate) fn read_part(
    alloc: Global,
    file: &mut File,
    at: u64,
    count: u32,
) -> io::Result<Vec<u8>> {
    let left = file.metadata()?.len().saturating_sub(at);
    // One byte more, so that the end is found in the memory that is there.
    let room = left.min(u64::from(count)).saturating_add(1);
    let mut bytes = Vec::with_capacity(alloc, room as usize)?;
    file.seek(SeekFrom::Start(at))?;
    Read::by_ref(file)
        .take(u64::from(count))
        .read_to_end(&mut bytes)?;
    Ok(bytes)
}

/// A file opened for bytes at its end. At 0 an absent file is made, where no link of its name is.
pub(crate) fn open_end<R: Files<File = File>>(rt: &R, path: &str, at: u64) -> io::Result<File> {
    if at == 0 {
        let made = OpenOptions::new()
            .append(true)
            .create_new(true)
            .open(rt, path);
        match made {
            Err(e) if e.kind() == ErrorKind::AlreadyExists => {}
            made => return made,
        }
    }
    open_regular(rt, OpenOptions::new().append(true), path)
}

/// Puts bytes at the end of a file, which must be at `at`.
pub(crate) fn append(file: &mut File, at: u64, bytes: &[u8]) -> io::Result<()> {
    if file.metadata()?.len() != at {
        return Err(io::Error::new(ErrorKind::InvalidInput, "the file has another length"));
    }
    file.write_all(bytes)
}

/// Removes a regular file.
pub(crate) fn remove_regular<R: Files>(rt: &R, path: &str) -> io::Result<()> {
    look_at(rt, path)?;
    fs::remove_file(rt, path)
}
