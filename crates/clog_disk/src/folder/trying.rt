//! What each call of the disk over a folder asks of the system. Each function hands the system's
//! refusals on.
ghost use Rattle.std.specs.Prelude.{◌≡◌};

use crate::folder::{FolderDisk, Opened};
use crate::hold::Hold;
use crate::listed::{Listed, Others, list_once, list_standing};
use crate::real_files::{Place, length_of, open_to_read, read_part};
use std::fs::File;
use std::io;
use std::io::ErrorKind;
use std::rt::Files;

// The names, none where the folder is absent and no lock keeps it there.
fn names_found<R: Files<File = File> + AllocGlobal + Clone + Drop>(
    rt: &R,
    hold: &Hold,
) -> io::Result<Listed> {
    match hold {
        Hold::Absent => Ok(Listed::Names(Vec::new(rt.alloc()))),
        Hold::OnlyReads => match list_standing(rt) {
            Err(e) if e.kind() == ErrorKind::NotFound => Ok(Listed::Names(Vec::new(rt.alloc()))),
            listed => listed,
        },
        _ => list_once(rt, Others::AreLockedOut),
    }
}

impl<R: Files<File = File> + AllocGlobal + Clone + Drop> FolderDisk<R> {
    pub(super) fn try_list(&mut self) -> io::Result<Listed>
        ensures { self.new.faults ≡ self.old.faults }
    {
        self.hold.enter(&self.rt)?;
        names_found(&self.rt, &self.hold)
    }

    pub(super) fn try_len(&mut self, place: Place<'_>) -> io::Result<u64>
        ensures { self.new.faults ≡ self.old.faults }
    {
        self.hold.enter(&self.rt)?;
        length_of(&self.rt, place.path)
    }

    // A file that is read on stays open; a reading that begins anew opens it anew.
    pub(super) fn try_read(&mut self, place: Place<'_>, at: u64, count: u32) -> io::Result<Vec<u8>>
        ensures { self.new.faults ≡ self.old.faults }
    {
        self.hold.enter(&self.rt)?;
        let mut file = match self.opened.take() {
            Some(opened) if at != 0 && opened.name == *place.name => opened.file,
            _ => open_to_read(&self.rt, place.path)?,
        };
        let bytes = read_part(self.rt.alloc(), &mut file, at, count)?;
        self.opened = Some(Opened {
            name: *place.name,
            file,
        });
        Ok(bytes)
    }

    pub(super) fn try_append(&mut self, place: Place<'_>, at: u64, bytes: &[u8]) -> io::Result<()>
        ensures { self.new.faults ≡ self.old.faults }
    {
        self.hold.enter(&self.rt)?;
        let held = self.hold.to_write(&self.rt)?;
        held.append(&self.rt, place, at, bytes)
    }

    pub(super) fn try_sync(&mut self, place: Place<'_>) -> io::Result<()>
        ensures { self.new.faults ≡ self.old.faults }
    {
        self.hold.enter(&self.rt)?;
        let held = self.hold.held(&self.rt)?;
        held.sync(&self.rt, place)
    }

    // The file alone: its name may not last yet.
    pub(super) fn try_sync_file(&mut self, place: Place<'_>) -> io::Result<()>
        ensures { self.new.faults ≡ self.old.faults }
    {
        self.hold.enter(&self.rt)?;
        let held = self.hold.held(&self.rt)?;
        held.sync_file(&self.rt, place)
    }

    // Where the folder is absent, no name is to be made lasting.
    pub(super) fn try_sync_names(&mut self) -> io::Result<()>
        ensures { self.new.faults ≡ self.old.faults }
    {
        self.hold.enter(&self.rt)?;
        if let Hold::Absent = self.hold {
            return Ok(());
        }
        let held = self.hold.held(&self.rt)?;
        held.sync_names()
    }

    // What was opened to be read goes, since its name may come to stand for another file.
    pub(super) fn try_publish(&mut self, place: Place<'_>, bytes: &[u8]) -> io::Result<()>
        ensures { self.new.faults ≡ self.old.faults }
    {
        self.hold.enter(&self.rt)?;
        self.opened = None;
        let held = self.hold.to_write(&self.rt)?;
        held.publish(&self.rt, place, bytes)
    }

    pub(super) fn try_remove(&mut self, place: Place<'_>) -> io::Result<()>
        ensures { self.new.faults ≡ self.old.faults }
    {
        self.hold.enter(&self.rt)?;
        self.opened = None;
        let held = self.hold.held(&self.rt)?;
        held.remove(&self.rt, place)
    }

    pub(super) fn try_link(&mut self, place: Place<'_>, second: Place<'_>) -> io::Result<()>
        ensures { self.new.faults ≡ self.old.faults }
    {
        self.hold.enter(&self.rt)?;
        self.opened = None;
        let held = self.hold.held(&self.rt)?;
        held.link(&self.rt, place, second)
    }
}
