//! What notes are as lines of the log.
ghost use Rattle.std.specs.Prelude.{◌≡◌, ◌↔◌, ◌≤◌, ℕ, List, IsTrue};
ghost use Rattle.std.specs.List.{Contains};
ghost use Rattle.clog_spec.specs.Sizes.{greatest_capacity};
ghost use Rattle.clog_base.specs.declared.cell.Table.{Table};
ghost use Rattle.clog_base.specs.Positions.{position_of};
ghost use Rattle.clog_mutation.specs.Payload.{payload_of};
ghost use Rattle.clog_scan.specs.Segment.{entry_from};
ghost use Rattle.clog_crash.specs.Droppable.{Touches};
ghost use Rattle.path_core.specs.declared.note.EntryNote.{EntryNote};
ghost use Rattle.path_core.specs.History.{IsHistory, IsInSegment};
ghost use Rattle.path_core.specs.Keys.{offset_of};
ghost use Rattle.path_core.specs.Parts.{touches};
ghost use Rattle.path_core.specs.Whole.{IsWhole};
ghost use Rattle.clog_applied.specs.History.{IsLawful, LoggedLine, entry_of, logged_at};
ghost use Rattle.clog_layout.specs.Logged.{AreNotesOf, IsNoteOf};

/// Whole notes are those of lines of the log. Where they are a history, so are the lines: each
/// stands in its segment, and none over another.
pub fn whole_notes_are_logged_lines()
    ensures exist { (base : ℕ) (notes : List EntryNote)
        → ((n : EntryNote) → Contains notes n → IsWhole n)
        → (history : List LoggedLine) × AreNotesOf base notes history }
    ensures lawful { (base capacity : ℕ) (notes : List EntryNote) (history : List LoggedLine)
        → capacity ≤ greatest_capacity → IsHistory capacity notes
        → AreNotesOf base notes history → IsLawful capacity history }
{}

/// A note tells where its line stands, which entry it has, and which tables it touches.
pub fn notes_tell_their_lines()
    ensures position { (base capacity : ℕ) (n : EntryNote) (w : LoggedLine)
        → capacity ≤ greatest_capacity → IsInSegment capacity n → IsNoteOf base n w
        → logged_at w ≡ position_of base n.end.0 }
    ensures entry { (base : ℕ) (n : EntryNote) (w : LoggedLine) → IsNoteOf base n w
        → entry_of w ≡ entry_from (offset_of n.start.0) (payload_of w.mutation) }
    ensures tables { (base : ℕ) (n : EntryNote) (w : LoggedLine) → IsNoteOf base n w
        → (table : Table)
        → Touches (entry_of w) table ↔ IsTrue (touches n.tables table.0) }
{}
