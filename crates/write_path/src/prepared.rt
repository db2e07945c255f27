//! Writes whose memory is all taken.
ghost use Rattle.std.specs.Prelude.{◌≡◌, ℕ, ◌+◌, ◌<◌, ◌^◌, [], ◌∷◌};
ghost use Rattle.clog_base.specs.declared.sizes.Sizes.{Sizes};
ghost use Rattle.clog_mutation.specs.declared.mutation.Mutation.{Mutation};
ghost use Rattle.clog_mutation.specs.Limits.{IsWithinLimits};
ghost use Rattle.path_core.specs.declared.note.EntryNote.{EntryNote};
ghost use Rattle.write_path.specs.Receipts.{IsLineOf};
ghost use Rattle.write_path.specs.Writes.{Prepares, TablesBelow, IsPrepared, IsClaimed};

use crate::copies::{copies_of, say_in_each};
use crate::fault::PrepareFault;
use clog_base::{Key, Sizes, Writer};
use clog_mutation::Mutation;
use clog_notes::{entry_size, note_of};
use path_core::EntryNote;
use std::alloc::Global;
use std::collections::LinkedList;

/// A write that takes no more memory: it holds the node of its note with the entry's bytes, which
/// goes into its writer's box, and a copy of the note for each of its tables, which go into
/// memtables.
#[derive(Drop)]
pub struct Prepared {
    pub(crate) notes: LinkedList<EntryNote>,
    pub(crate) updates: LinkedList<EntryNote>,
    pub(crate) size: u32,
}

impl Prepared {
    /// Takes all of the memory of the write of a line. It is `TooLarge` exactly where the payload
    /// and 12 bytes are more than half the capacity (`CommitLog.add`).
    pub fn make(
        alloc: Global,
        sizes: Sizes,
        line: u32,
        mutation: Mutation,
    ) -> Result<Prepared, PrepareFault>
        requires within { IsWithinLimits mutation }
        requires tables { TablesBelow mutation sizes.tables }
        ensures { Prepares sizes line mutation result }
    {
        let size = entry_size(&mutation, sizes.capacity)?;
        let note = note_of(alloc, line, &mutation, size)?;
        let updates = copies_of(alloc, &note)?;
        let mut notes = LinkedList::new(alloc);
        notes.push_back(note)?;
        Ok(Prepared {
            notes,
            updates,
            size,
        })
    }

    /// Says in its note where the claim of its entry begins, and who made it: what is deposited.
    /// The copies say the same.
    pub fn claimed(&mut self, start: Key, writer: Writer)
        requires { start.0 + self.old.size < 2 ^ 64 }
        ensures { (sizes : Sizes) (line : ℕ) (m : Mutation) → IsPrepared sizes line m self.old
            → IsClaimed sizes line m start.0 writer.0 self.new }
    {
        let end = Key(start.0 + u64::from(self.size));
        say_in_each(&mut self.notes, start, end, writer);
        say_in_each(&mut self.updates, start, end, writer);
    }

    // The tables of its note.
    pub(crate) fn tables(&self) -> u16
        ensures { (note : EntryNote) → self.now.notes ≡ note ∷ [] → result ≡ note.tables }
    {
        match self.notes.front() {
            Some(note) => note.tables,
            None => 0,
        }
    }

    // The line that it was made for.
    pub(crate) fn line(&self) -> u32
        ensures { IsLineOf self.now result }
    {
        match self.notes.front() {
            Some(note) => note.line,
            None => 0,
        }
    }

    /// How many bytes its entry has: the payload's and 12.
    pub fn size(&self) -> u32
        ensures { result ≡ self.now.size }
    {
        self.size
    }
}
