//! The folder that a disk writes to, open and locked: the file that it writes, and what of the
//! folder's names lasts. Each function hands the system's refusals on.
//!
//! - The file that was appended to last stays open and is synced by that handle, so that what the
//!   system could not write back meanwhile is told. The handle is let go before its name comes to
//!   stand for another file, or for none.
//! - A refused sync says nothing of a later one, since the system may have dropped what it could
//!   not write: after one, nothing is trusted again.
//! - A file that is put in place is written whole under another name and synced before it takes its
//!   own, so that a crash leaves what stood there or all of it.
use crate::real_files::{Place, append, open_end, open_to_read, remove_regular};
use crate::unfinished::{give_name, new_unfinished, remove_unfinished};
use clog_base::Name;
use std::fs::File;
use std::io;
use std::io::Write;
use std::rt::Files;

/// A file that was opened to be appended to.
#[derive(Drop)]
struct Written {
    name: Name,
    file: File,
    /// No byte was put there since it was synced.
    is_synced: bool,
}

/// The folder, open and locked.
#[derive(Drop)]
pub(crate) struct Held {
    folder: File,
    /// The folder above, until it was synced, by which the folder's own name lasts. None too where
    /// an earlier program made the folder and the one above may not be read.
    above: Option<File>,
    /// The names of its files last. An earlier program may have ended before it had synced them.
    names_last: bool,
    /// What an earlier program left unfinished is gone, if it could be removed.
    is_clear: bool,
    /// The file that was appended to last.
    written: Option<Written>,
    /// The system has refused a sync.
    is_broken: bool,
}

// Makes what was written to a file last.
fn settle(is_broken: &mut bool, file: &File) -> io::Result<()> {
    let done = file.sync_all();
    *is_broken |= done.is_err();
    done
}

impl Held {
    /// The folder, which is locked, and the one above it.
    pub(crate) fn new(folder: File, above: Option<File>) -> Held {
        Held {
            folder,
            above,
            names_last: false,
            is_clear: false,
            written: None,
            is_broken: false,
        }
    }

    /// The system has refused a sync.
    pub(crate) fn is_broken(&self) -> bool {
        self.is_broken
    }

    /// Removes what an earlier program left unfinished, once. Where it can't be removed, it harms
    /// nothing until a file is to be put in place, which then fails.
    pub(crate) fn clear<R: Files<File = File>>(&mut self, rt: &R) {
        if !self.is_clear {
            remove_unfinished(rt);
            self.is_clear = true;
        }
    }

    // Lets go of the handle of the file that was appended to last, and syncs the file before.
    fn let_go(&mut self) -> io::Result<()> {
        match self.written.take() {
            Some(written) if !written.is_synced => settle(&mut self.is_broken, &written.file),
            _ => Ok(()),
        }
    }

    // Lets go of a file's handle, where there is one, before the name stands for something else.
    fn let_go_of(&mut self, place: Place<'_>) -> io::Result<()> {
        match &self.written {
            Some(written) if written.name == *place.name => self.let_go(),
            _ => Ok(()),
        }
    }

    // The file opened to be appended to.
    fn file_to_append<R: Files<File = File>>(
        &mut self,
        rt: &R,
        place: Place<'_>,
        at: u64,
    ) -> io::Result<Written> {
        match self.written.take() {
            Some(written) if written.name == *place.name => return Ok(written),
            other => self.written = other,
        }
        self.let_go()?;
        // At 0 the file may be made, and its name does not last before the folder is synced.
        self.names_last &= at != 0;
        let opened = open_end(rt, place.path, at)?;
        Ok(Written {
            name: *place.name,
            // Its number is above those of the standard streams: what goes to a closed stream
            // never lands in the file.
            file: opened.try_clone()?,
            is_synced: true,
        })
    }

    /// Puts bytes at the end of a file, which must be at `at`. At 0 an absent file is made.
    pub(crate) fn append<R: Files<File = File>>(
        &mut self,
        rt: &R,
        place: Place<'_>,
        at: u64,
        bytes: &[u8],
    ) -> io::Result<()> {
        let mut written = self.file_to_append(rt, place, at)?;
        written.is_synced = false;
        let done = append(&mut written.file, at, bytes);
        self.written = Some(written);
        done
    }

    /// Makes a file's bytes last.
    pub(crate) fn sync_file<R: Files<File = File>>(
        &mut self,
        rt: &R,
        place: Place<'_>,
    ) -> io::Result<()> {
        match &mut self.written {
            Some(written) if written.name == *place.name => {
                settle(&mut self.is_broken, &written.file)?;
                written.is_synced = true;
                Ok(())
            }
            _ => settle(&mut self.is_broken, &open_to_read(rt, place.path)?),
        }
    }

    /// Makes the folder's names last, and the folder's own.
    pub(crate) fn sync_names(&mut self) -> io::Result<()> {
        if !self.names_last {
            settle(&mut self.is_broken, &self.folder)?;
            self.names_last = true;
        }
        match self.above.take() {
            Some(above) => settle(&mut self.is_broken, &above),
            None => Ok(()),
        }
    }

    /// Makes a file last, with its name and the folder's.
    pub(crate) fn sync<R: Files<File = File>>(
        &mut self,
        rt: &R,
        place: Place<'_>,
    ) -> io::Result<()> {
        self.sync_file(rt, place)?;
        self.sync_names()
    }

    // Gives the unfinished file, which holds all that it is to hold, its name.
    fn finish<R: Files<File = File>>(
        &mut self,
        rt: &R,
        unfinished: &File,
        place: Place<'_>,
    ) -> io::Result<()> {
        settle(&mut self.is_broken, unfinished)?;
        self.let_go_of(place)?;
        self.names_last = false;
        give_name(rt, place.path)?;
        self.sync_names()
    }

    fn try_publish<R: Files<File = File>>(
        &mut self,
        rt: &R,
        place: Place<'_>,
        bytes: &[u8],
    ) -> io::Result<()> {
        let mut unfinished = new_unfinished(rt, place.path)?;
        unfinished.write_all(bytes)?;
        self.finish(rt, &unfinished, place)
    }

    /// Puts a file in place with these bytes, lasting, with its name and the folder's.
    pub(crate) fn publish<R: Files<File = File>>(
        &mut self,
        rt: &R,
        place: Place<'_>,
        bytes: &[u8],
    ) -> io::Result<()> {
        let done = self.try_publish(rt, place, bytes);
        if done.is_err() {
            // On a full device it would take the room that others need.
            remove_unfinished(rt);
        }
        done
    }

    fn try_link<R: Files<File = File>>(
        &mut self,
        rt: &R,
        place: Place<'_>,
        second: Place<'_>,
    ) -> io::Result<()> {
        let mut source = open_to_read(rt, place.path)?;
        let mut unfinished = new_unfinished(rt, second.path)?;
        io::copy(&mut source, &mut unfinished)?;
        self.finish(rt, &unfinished, second)
    }

    /// Puts a copy of a file in place, lasting, with its name and the folder's.
    pub(crate) fn link<R: Files<File = File>>(
        &mut self,
        rt: &R,
        place: Place<'_>,
        second: Place<'_>,
    ) -> io::Result<()> {
        let done = self.try_link(rt, place, second);
        if done.is_err() {
            remove_unfinished(rt);
        }
        done
    }

    /// Removes a file, so that it stays gone. All other names last before it goes.
    pub(crate) fn remove<R: Files<File = File>>(
        &mut self,
        rt: &R,
        place: Place<'_>,
    ) -> io::Result<()> {
        self.let_go_of(place)?;
        // A file that stands for this one may have got its name by a program that was killed before
        // the name lasted.
        self.sync_names()?;
        self.names_last = false;
        remove_regular(rt, place.path)?;
        self.sync_names()
    }
}
