//! The payloads of a section's entries, for contracts alone: an entry's bytes are held once, as its
//! note's.
ghost use Rattle.std.specs.Prelude.{◌≡◌, drop, take};
ghost use Rattle.clog_segments.specs.NoteSections.{payloads_in};

use path_core::EntryNote;
use std::marker::Model;
use std::snapshot::Snapshot;

/// The payloads of so many notes of a list, from one on. It takes no memory of its own.
#[derive(Drop)]
pub struct Payloads {
    // A snapshot of a snapshot, since of a slice there is none.
    notes: Snapshot<Snapshot<Vec<EntryNote>>>,
    first: usize,
    count: usize,
}

impl Model for Payloads {
    ghost use Rattle.std.specs.Prelude.{ℕ, List, drop, map, take};
    ghost use Rattle.path_core.specs.declared.note.EntryNote.{EntryNote as note};
    ghost use Rattle.clog_segments.specs.Notes.{payload_in};

    ghost Value = { List (List ℕ) };

    ghost view = { λ p. map (λ (n : note). payload_in n.bytes)
        (take p.count (drop p.first p.notes.value.value.items)) };
}

impl Payloads {
    /// Those of `count` notes from `first` on.
    pub fn of(notes: &Snapshot<Vec<EntryNote>>, first: usize, count: usize) -> Payloads
        ensures { result ≡ payloads_in (take count (drop first notes.now.value.items)) }
    {
        Payloads {
            notes: Snapshot::of(notes),
            first,
            count,
        }
    }
}
