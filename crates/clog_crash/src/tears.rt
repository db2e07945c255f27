//! What reading a segment gives whose last sections a crash has torn.
ghost use Rattle.std.specs.Prelude.{◌≡◌, ◌<◌, ◌^◌, ◌++◌, ℕ, List};
ghost use Rattle.clog_scan.specs.Cut.{Section};
ghost use Rattle.clog_scan.specs.Laws.{IsFile};
ghost use Rattle.clog_crash.specs.Chance.{NoChance};
ghost use Rattle.clog_crash.specs.Sections.{IsStored, segment_bytes};
ghost use Rattle.clog_crash.specs.Tail.{Written, Begins, ReadsFirst};

/// Whatever a crash leaves behind sections that last, of further ones that were written: reading
/// gives the entries of the sections that last, and then the first of the others. Behind them the
/// segment ends clean, or torn for a soft cause. Where no section lasts the image may be anything.
pub fn torn_sections_read_as_a_first_part()
    ensures { (id : ℕ) (old new : List Section) (image : List ℕ) → id < 2 ^ 64 → IsFile image
        → Written old new → Begins id old image → NoChance id (old ++ new) image
        → ReadsFirst id old new image }
{}

/// A segment that is not torn has nothing by chance, whatever its payloads hold: the premise asks
/// no more than it says.
pub fn untorn_segments_have_nothing_by_chance()
    ensures { (id : ℕ) (sections : List Section) → IsStored id sections
        → NoChance id sections (segment_bytes id sections) }
{}

/// Nor has a segment that a crash has only cut off, anywhere.
pub fn cut_segments_have_nothing_by_chance()
    ensures { (id : ℕ) (sections : List Section) (image rest : List ℕ) → IsStored id sections
        → segment_bytes id sections ≡ image ++ rest → NoChance id sections image }
{}
