//! Notes of entries as parts of the log: where each stands, and which sections they make.
ghost use Rattle.std.specs.Prelude.{◌≡◌, ◌+◌, ◌∷◌, ℕ, List};
ghost use Rattle.clog_spec.specs.Segment.{entry_bytes};
ghost use Rattle.clog_base.specs.Positions.{ordinal_of, offset_of};
ghost use Rattle.clog_crash.specs.Runs.{BeginsAt, Run, run_from};
ghost use Rattle.clog_crash.specs.WorkedRuns.{the_runs};
ghost use Rattle.path_core.specs.declared.note.EntryNote.{EntryNote};
ghost use Rattle.path_core.specs.Keeper.{Holding, IsWritable, MayWrite};
ghost use Rattle.clog_segments.specs.Notes.{
  MakeRuns,
  payload_in,
  place_of,
  the_notes,
};

/// The entry of a whole note stands where the note says, and its payload is that of the note's
/// bytes.
pub fn a_note_tells_its_place()
    ensures { (h : Holding) (n : EntryNote) → IsWritable h n
        → (n.bytes ≡ entry_bytes (payload_in n.bytes))
        × ((place_of h.base n).1.end ≡ offset_of n.end.0)
        × ((place_of h.base n).0 ≡ h.base + ordinal_of n.end.0) }
{}

/// Notes that may be written are runs behind the log, where the first may begin one: their entries
/// in order, each at its place, and nothing else.
pub fn notes_are_runs()
    ensures { (h : Holding) (upto id until : ℕ) (n : EntryNote) (ns : List EntryNote)
        → MayWrite h upto (n ∷ ns) → BeginsAt id until (run_from (place_of h.base n))
        → (runs : List Run) × MakeRuns h.base id until (n ∷ ns) runs }
{}

/// A worked row: of four notes the first two stand end to end and are one section; behind them
/// stands a marker, and the fourth is in the next segment.
pub fn four_notes_are_three_sections()
    ensures { MakeRuns 1000 1000 20 the_notes the_runs }
{}
