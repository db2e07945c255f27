//! Entries at their places in the log, and the sections that they make.
ghost use Rattle.std.specs.Prelude.{◌≡◌, ◌<◌, ◌+◌, ◌++◌, ◌∷◌, [], ℕ, List, length};
ghost use Rattle.std.specs.List.{AllByRecursion};
ghost use Rattle.clog_spec.specs.Names.{segment_name_of};
ghost use Rattle.clog_spec.specs.Sizes.{header_size, marker_size};
ghost use Rattle.clog_scan.specs.Cut.{Section, last_until};
ghost use Rattle.clog_scan.specs.Segment.{entries_of};
ghost use Rattle.clog_crash.specs.Grown.{Append, HoldsGrown, grown};
ghost use Rattle.clog_crash.specs.Log.{Write};
ghost use Rattle.clog_crash.specs.Runs.{
  AreRuns,
  BeginsAt,
  FollowOn,
  IsWhole,
  Placed,
  Run,
  placed_in,
  placed_in_all,
  placed_log,
  run_from,
};
ghost use Rattle.clog_crash.specs.Sections.{IsStored, next_section, segment_bytes};
ghost use Rattle.clog_crash.specs.WorkedRuns.{the_places, the_runs};

/// The next section of a segment adds to the log the run of its entries behind the segment's end,
/// and the log is the same once it goes on in the next segment.
pub fn the_next_section_is_a_run()
    ensures more { (past : List Write) (id : ℕ) (sections : List Section)
        (payloads : List (List ℕ))
        → placed_log past id (sections ++ next_section sections payloads ∷ [])
        ≡ placed_log past id sections ++ placed_in (record {
          id = id;
          start = last_until header_size sections + marker_size;
          payloads = payloads;
        }) }
    ensures rolled { (past : List Write) (id next : ℕ) (sections : List Section)
        → placed_log (past ++ record { id = id; sections = sections } ∷ []) next []
        ≡ placed_log past id sections }
{}

/// Entries that follow one another behind a log, end to end, with a marker between them, or in a
/// later segment, are runs.
pub fn entries_that_follow_are_runs()
    ensures { (id until : ℕ) (p : Placed) (ps : List Placed) → BeginsAt id until (run_from p)
        → IsWhole p.1 → FollowOn p.0 p.1.end ps → AllByRecursion (λ (q : Placed). IsWhole q.1) ps
        → (runs : List Run) × AreRuns id until runs × (placed_in_all runs ≡ p ∷ ps) }
{}

/// A worked row: of four entries the first two stand end to end and are one run; behind them stands
/// a marker, and the fourth is in the next segment.
pub fn entries_are_cut_where_a_marker_stands()
    ensures runs { AreRuns 1000 header_size the_runs }
    ensures places { placed_in_all the_runs ≡ the_places }
{}

/// Where appends have brought the bytes of a segment with sections, the segment that they made
/// holds the entries of these.
pub fn appended_segments_hold_their_entries()
    ensures { (appends : List Append) (id : ℕ) (sections : List Section) → IsStored id sections
        → 0 < length sections
        → grown appends (segment_name_of 6 id) ≡ segment_bytes id sections
        → HoldsGrown appends id (entries_of header_size sections) }
{}
