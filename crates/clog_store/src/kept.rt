//! What a sync that was refused had begun to write. Its notes are pending with the caller, who
//! lends them again, so of them only what a discard asks is kept: which segments have one. The
//! notes themselves are for contracts alone.
ghost use Rattle.std.specs.Prelude.{◌≡◌, ◌↔◌, [], ℕ, Contains, IfOk};
ghost use Rattle.clog_due.specs.Dropping.{HasEntry};

use clog_base::OutOfMemory;
use clog_due::hold_all;
use path_core::EntryNote;
use std::alloc::Global;
use std::marker::Model;
use std::snapshot::Snapshot;

/// What is kept of the notes of a sync that was refused, in the order of the log: for contracts
/// all, else their segments.
#[derive(Drop)]
pub struct Kept {
    notes: Snapshot<Vec<EntryNote>>,
    /// The ordinals of their segments.
    ordinals: Vec<u64>,
}

impl Model for Kept {
    ghost use Rattle.std.specs.Prelude.{◌↔◌, ℕ, Contains, List};
    ghost use Rattle.path_core.specs.declared.note.EntryNote.{EntryNote};
    ghost use Rattle.clog_due.specs.Dropping.{HasEntry};

    ghost Value = { List EntryNote };

    ghost view = { λ k. k.notes.value.items };

    ghost invariant = { λ k. (o : ℕ)
        → Contains k.ordinals.items o ↔ HasEntry k.notes.value.items o };
}

impl Kept {
    /// Nothing is kept.
    pub(crate) fn none(alloc: Global) -> Kept
        ensures { result ≡ [] }
    {
        let notes = Vec::new(alloc);
        Kept {
            notes: Snapshot::of(&notes),
            ordinals: Vec::new(alloc),
        }
    }

    /// These notes are kept.
    pub(crate) fn of(alloc: Global, notes: &Vec<EntryNote>) -> Result<Kept, OutOfMemory>
        ensures { IfOk result (λ kept. kept ≡ notes.now.items) }
    {
        let mut ordinals = Vec::new(alloc);
        hold_all(&mut ordinals, notes)?;
        Ok(Kept {
            notes: Snapshot::of(notes),
            ordinals,
        })
    }

    /// The ordinals of the segments that have one of the notes.
    pub(crate) fn ordinals(&self) -> &[u64]
        ensures { (o : ℕ) → Contains result.now o ↔ HasEntry self.now o }
    {
        &self.ordinals
    }
}
