//! Which names the folder has. A listing is no snapshot: what comes or goes while it is read may be
//! in it or not. Where others may change the folder it is listed until two listings in a row are
//! equal. A name is never used again, so what both have stood there all the time between them.
use crate::real_files::FOLDER;
use clog_base::{Name, parse_segment_name, parse_table_name};
use std::fs::{DirEntry, FileType};
use std::io::ErrorKind;
use std::rt::Files;
use std::{fs, io};

/// How often a folder is listed at most that is never found twice alike.
const MOST_LISTINGS: u8 = 8;

/// What a listing comes to.
#[derive(Drop)]
pub(crate) enum Listed {
    /// The names of regular files that are a `Name`, ascending.
    Names(Vec<Name>),
    /// This is the name of a segment or of a table file, and no regular file stands there.
    Irregular(Name),
}

/// Whether others may change the folder while it is listed.
#[derive(Clone, Copy, Drop)]
pub(crate) enum Others {
    /// They may: a name that goes meanwhile is a refusal.
    MayWrite,
    /// The folder is locked: a name that goes was removed by hand, and counts as gone before.
    AreLockedOut,
}

// What one name of a listing comes to.
enum Entry {
    File(Name),
    Irregular(Name),
    Other,
}

// What a name stands for; nothing where it went since it was listed.
fn type_of(found: io::Result<FileType>, others: Others) -> io::Result<Option<FileType>> {
    match (found, others) {
        (Ok(kind), _) => Ok(Some(kind)),
        (Err(e), Others::AreLockedOut) if e.kind() == ErrorKind::NotFound => Ok(None),
        (Err(e), Others::MayWrite) if e.kind() == ErrorKind::NotFound => {
            Err(io::Error::other("a file went while the folder was listed"))
        }
        (Err(e), _) => Err(e),
    }
}

// The name of a segment, of whatever version, or of a table file.
fn is_of_the_log(name: &Name) -> bool {
    parse_segment_name(name).is_some() || parse_table_name(name).is_some()
}

// Looks at one name of a listing.
fn look_at_entry<R: Files + Clone + Drop>(
    entry: io::Result<DirEntry<R>>,
    others: Others,
) -> io::Result<Entry> {
    let entry = match entry {
        Ok(entry) => entry,
        // A name that is no text is no `Name`.
        Err(e) if e.kind() == ErrorKind::InvalidFilename => return Ok(Entry::Other),
        Err(e) => return Err(e),
    };
    let Some(name) = Name::make(entry.file_name().as_bytes()) else {
        return Ok(Entry::Other);
    };
    match type_of(entry.file_type(), others)? {
        Some(kind) if kind.is_file() => Ok(Entry::File(name)),
        Some(_) if is_of_the_log(&name) => Ok(Entry::Irregular(name)),
        _ => Ok(Entry::Other),
    }
}

/// The names, as one listing has them.
pub(crate) fn list_once<R: Files + AllocGlobal + Clone + Drop>(
    rt: &R,
    others: Others,
) -> io::Result<Listed> {
    let mut names = Vec::new(rt.alloc());
    for entry in fs::read_dir(rt, FOLDER)? {
        match look_at_entry(entry, others)? {
            Entry::File(name) => names.push(name)?,
            Entry::Irregular(name) => return Ok(Listed::Irregular(name)),
            Entry::Other => {}
        }
    }
    names.sort()?;
    Ok(Listed::Names(names))
}

// The names behind an earlier listing: a folder that is absent now went meanwhile.
fn list_again<R: Files + AllocGlobal + Clone + Drop>(rt: &R) -> io::Result<Listed> {
    match list_once(rt, Others::MayWrite) {
        Err(e) if e.kind() == ErrorKind::NotFound => {
            Err(io::Error::other("the folder went while it was listed"))
        }
        listed => listed,
    }
}

/// The names of a folder that others may change meanwhile, as two listings in a row have them.
pub(crate) fn list_standing<R: Files + AllocGlobal + Clone + Drop>(rt: &R) -> io::Result<Listed> {
    let mut before = match list_once(rt, Others::MayWrite)? {
        Listed::Names(names) => names,
        irregular => return Ok(irregular),
    };
    for _ in 1..MOST_LISTINGS {
        match list_again(rt)? {
            Listed::Names(names) if names == before => return Ok(Listed::Names(names)),
            Listed::Names(names) => before = names,
            irregular => return Ok(irregular),
        }
    }
    Err(io::Error::other("the folder changed each time that it was listed"))
}
