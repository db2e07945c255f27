//! What follows from the definition of a segment alone.
ghost use Rattle.std.specs.Prelude.{◌≡◌, ◌<◌, ◌≤◌, ◌^◌, ◌+◌, ◌++◌, ◌⊎◌, ℕ, List, length, take};
ghost use Rattle.clog_spec.specs.Segment.{header_bytes, section_bytes};
ghost use Rattle.clog_spec.specs.Sizes.{header_size, marker_size};
ghost use Rattle.clog_base.specs.declared.fault.PayloadFault.{PayloadFault};
ghost use Rattle.clog_entry.specs.declared.cause.Cause.{Cause as tear_cause};
ghost use Rattle.clog_entry.specs.declared.cause.Cause.TheVariants.{Payload};
ghost use Rattle.clog_entry.specs.Soft.{IsSoft, IsOfHeader};
ghost use Rattle.clog_entry.specs.Spelled.{IsHeaderAt};
ghost use Rattle.clog_scan.specs.declared.answer.End.{End as segment_end};
ghost use Rattle.clog_scan.specs.declared.answer.End.TheVariants.{Clean, Torn};
ghost use Rattle.clog_scan.specs.Cut.{Section, entries_bytes, sections_bytes, AreLong};
ghost use Rattle.clog_scan.specs.Laws.{
  IsFile,
  IsForeign,
  HasSegment,
  AreOne,
  AreLaidOut,
  AreWhole,
  HoldsThem,
  Reaches,
  place_of,
};
ghost use Rattle.clog_scan.specs.Segment.{Entry, entries_from, entries_of, IsSegment};

/// Any bytes hold one list of entries, and have one end.
pub fn one_answer_for_any_bytes()
    ensures some { (bytes : List ℕ) (id : ℕ) → IsFile bytes → id < 2 ^ 64 → HasSegment bytes id }
    ensures one { (bytes : List ℕ) (id : ℕ) (entries : List Entry) (end : segment_end)
        (entries' : List Entry) (end' : segment_end) → IsFile bytes → id < 2 ^ 64
        → IsSegment bytes id entries end → IsSegment bytes id entries' end'
        → AreOne entries end entries' end' }
{}

/// Entries lie in order in front of the end, none over another. Each is the entry of its payload,
/// at `FRONT_SIZE` or later, and lies within a section whose marker reading comes to.
pub fn entries_in_order()
    ensures { (bytes : List ℕ) (id : ℕ) (entries : List Entry) (end : segment_end)
        → IsSegment bytes id entries end → AreLaidOut bytes id 0 entries (place_of end) }
{}

/// Reading comes to no place behind the end.
pub fn reading_stops_at_the_end()
    ensures { (bytes : List ℕ) (id at until : ℕ) (entries : List Entry) (end : segment_end)
        → Reaches bytes id at until → IsSegment bytes id entries end → at ≤ place_of end }
{}

/// A header and sections that are filled by their entries hold exactly these entries, and end clean
/// at the end of the bytes.
pub fn what_was_written_is_held()
    ensures { (bytes : List ℕ) (id : ℕ) (sections : List Section) → IsFile bytes
        → bytes ≡ header_bytes id ++ sections_bytes id header_size sections
        → AreWhole (length bytes) header_size sections
        → IsSegment bytes id (entries_of header_size sections) (Clean (length bytes)) }
{}

/// Whole sections behind a file that ends clean at its own end: it then holds their entries behind
/// those that it held, and ends clean at its new end. Likewise one section, as its bytes.
pub fn sections_are_appended()
    ensures sections { (bytes new : List ℕ) (id : ℕ) (entries : List Entry) (more : List Section)
        → IsFile new → new ≡ bytes ++ sections_bytes id (length bytes) more
        → AreWhole (length new) (length bytes) more
        → IsSegment bytes id entries (Clean (length bytes))
        → IsSegment new id (entries ++ entries_of (length bytes) more) (Clean (length new)) }
    ensures one { (bytes new : List ℕ) (id : ℕ) (entries : List Entry) (payloads : List (List ℕ))
        → IsFile new → new ≡ bytes ++ section_bytes id (length bytes) (entries_bytes payloads)
        → AreLong payloads → IsSegment bytes id entries (Clean (length bytes))
        → IsSegment new id (entries ++ entries_from (length bytes + marker_size) payloads)
        (Clean (length new)) }
{}

/// What stands at and behind a segment's end does not matter to the entries in front of it: any
/// bytes that are as many or more, and the same in front of that place, begin with the same
/// entries, and do not end before it.
pub fn bytes_behind_the_end()
    ensures { (bytes other : List ℕ) (id : ℕ) (entries entries' : List Entry)
        (end end' : segment_end) → IsFile other → id < 2 ^ 64 → length bytes ≤ length other
        → take (place_of end) other ≡ take (place_of end) bytes
        → IsSegment bytes id entries end → IsSegment other id entries' end'
        → HoldsThem entries (place_of end) entries' (place_of end') }
{}

/// A segment is torn for a soft cause, one that a crash may leave, or at its start, where its
/// header has a right check and another version, id or parameters. Behind its own header it is torn
/// for a soft cause alone. No cause that a header with a right check is refused for is soft, and
/// none that a payload is refused for, so a scan never tells that a payload is bad.
pub fn tears_are_soft_behind_the_header()
    ensures tear { (bytes : List ℕ) (id : ℕ) (entries : List Entry) (place : ℕ)
        (cause : tear_cause) → IsSegment bytes id entries (Torn place cause)
        → IsSoft cause ⊎ IsForeign bytes place cause }
    ensures soft { (bytes : List ℕ) (id : ℕ) (entries : List Entry) (place : ℕ)
        (cause : tear_cause) → id < 2 ^ 64 → IsHeaderAt bytes id
        → IsSegment bytes id entries (Torn place cause) → IsSoft cause }
    ensures header { (cause : tear_cause) → IsSoft cause → IsOfHeader cause → ⊥ }
    ensures payload { (fault : PayloadFault) → IsSoft (Payload fault) → ⊥ }
{}
