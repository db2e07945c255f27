//! How a disk stands to its folder: whether it only reads, writes and holds the lock, or is
//! refused. Each function hands the system's refusals on.
use crate::held::Held;
use crate::listed::{Listed, Others, list_once};
use crate::real_files::{make_folder, open_above, open_folder};
use std::fs::{File, TryLockError};
use std::io;
use std::io::ErrorKind;
use std::rt::Files;

/// How the disk stands to the folder.
#[derive(Drop)]
pub(crate) enum Hold {
    /// It only reads, and takes no lock.
    OnlyReads,
    /// It is to write, and has not looked yet.
    Untried,
    /// It is to write, and the folder was absent.
    Absent,
    /// It writes.
    Holds(Held),
    /// Another program holds the folder, or has made it since.
    Refused(io::Error),
}

fn locked(folder: File, above: Option<File>) -> io::Result<Hold> {
    match folder.try_lock() {
        Ok(()) => Ok(Hold::Holds(Held::new(folder, above))),
        Err(TryLockError::WouldBlock) => Ok(Hold::Refused(io::Error::new(
            ErrorKind::WouldBlock,
            "another program holds the folder",
        ))),
        Err(TryLockError::Error(e)) => Err(e),
    }
}

fn made_meanwhile() -> Hold {
    Hold::Refused(io::Error::new(
        ErrorKind::AlreadyExists,
        "another program has made the folder meanwhile",
    ))
}

// The folder above, where it may be read. Where not, the program that made the folder has synced
// it, or nobody can.
fn above_if_readable<R: Files<File = File>>(rt: &R) -> io::Result<Option<File>> {
    match open_above(rt) {
        Ok(above) => Ok(Some(above)),
        Err(e) if e.kind() == ErrorKind::PermissionDenied => Ok(None),
        Err(e) => Err(e),
    }
}

// Looks at the folder for the first time.
fn first_look<R: Files<File = File>>(rt: &R) -> io::Result<Hold> {
    match open_folder(rt) {
        Ok(folder) => locked(folder, above_if_readable(rt)?),
        Err(e) if e.kind() == ErrorKind::NotFound => Ok(Hold::Absent),
        Err(e) => Err(e),
    }
}

// Locks the folder that this disk has made.
fn hold_made<R: Files<File = File> + AllocGlobal + Clone + Drop>(
    rt: &R,
    above: File,
) -> io::Result<Hold> {
    let hold = locked(open_folder(rt)?, Some(above))?;
    // Another program may have come and gone before the lock.
    match list_once(rt, Others::AreLockedOut)? {
        Listed::Names(names) if names.is_empty() => Ok(hold),
        _ => Ok(made_meanwhile()),
    }
}

// Makes the folder that was absent. The one above is opened before, so that nothing is made where
// its name could not be made to last.
fn first_write<R: Files<File = File> + AllocGlobal + Clone + Drop>(rt: &R) -> io::Result<Hold> {
    let above = open_above(rt)?;
    match make_folder(rt) {
        Ok(()) => {}
        Err(e) if e.kind() == ErrorKind::AlreadyExists => return Ok(made_meanwhile()),
        Err(e) => return Err(e),
    }
    match hold_made(rt, above) {
        Ok(hold) => Ok(hold),
        // A second try would find the folder there, and take another program for its maker: what
        // the system refused here is told again.
        Err(error) => Ok(Hold::Refused(error)),
    }
}

impl Hold {
    /// Comes before all that a call does.
    pub(crate) fn enter<R: Files<File = File>>(&mut self, rt: &R) -> io::Result<()> {
        if let Hold::Untried = self {
            *self = first_look(rt)?;
        }
        match self {
            Hold::Refused(error) => Err(*error),
            Hold::Holds(held) if held.is_broken() => {
                Err(io::Error::other("the system has refused a sync before"))
            }
            _ => Ok(()),
        }
    }

    /// The folder to write to, which is made where it was absent.
    pub(crate) fn to_write<R: Files<File = File> + AllocGlobal + Clone + Drop>(
        &mut self,
        rt: &R,
    ) -> io::Result<&mut Held> {
        if let Hold::Absent = self {
            *self = first_write(rt)?;
        }
        self.held(rt)
    }

    /// The folder that is held, to change what is in it.
    pub(crate) fn held<R: Files<File = File>>(&mut self, rt: &R) -> io::Result<&mut Held> {
        match self {
            Hold::Holds(held) => {
                held.clear(rt);
                Ok(held)
            }
            Hold::Refused(error) => Err(*error),
            Hold::Absent => Err(io::Error::from(ErrorKind::NotFound)),
            Hold::OnlyReads | Hold::Untried => Err(io::Error::other("the folder is only read")),
        }
    }
}
