//! What a crash leaves of a folder to which a segment is written.
ghost use Rattle.std.specs.Prelude.{◌≡◌, ◌↔◌, ◌⊎◌, ◌++◌, ◌∷◌, [], ℕ, List, length, Contains};
ghost use Rattle.std.specs.FinMap as finmap;
ghost use Rattle.clog_spec.specs.Names.{IsArchiveName, archive_name_of, segment_name_of};
ghost use Rattle.clog_spec.specs.Sizes.{front_size};
ghost use Rattle.clog_base.specs.declared.cell.Cell.{Cell};
ghost use Rattle.clog_base.specs.declared.cell.CellKey.{CellKey};
ghost use Rattle.clog_disk.specs.Files.{Files, bytes_at, no_files};
ghost use Rattle.clog_mutation.specs.Payload.{payload_of};
ghost use Rattle.clog_scan.specs.declared.answer.End.{End as segment_end};
ghost use Rattle.clog_scan.specs.Cut.{Section};
ghost use Rattle.clog_scan.specs.Segment.{Entry, IsSegment, entry_from};
ghost use Rattle.clog_crash.specs.Archive.{IsArchived};
ghost use Rattle.clog_crash.specs.Chance.{NoChance};
ghost use Rattle.clog_crash.specs.Covering.{Either, SameMerge};
ghost use Rattle.clog_crash.specs.Log.{HasShown, Write, logged_in};
ghost use Rattle.clog_crash.specs.Readings.{IsCellAmong, Reading, RestoresIn};
ghost use Rattle.clog_crash.specs.Rest.{IsInFiles, Lasting, settled};
ghost use Rattle.clog_crash.specs.Restore.{IsRestored, IsUndamaged};
ghost use Rattle.clog_crash.specs.Sections.{IsStored};
ghost use Rattle.clog_crash.specs.Showing.{Shows};
ghost use Rattle.clog_crash.specs.Worked.{logged, the_mutation, the_segment};
ghost use Rattle.clog_crash.specs.WorkedCrash.{one_section};

/// While sections are written behind those that last, each image shows what lasts and the first of
/// their entries, in the order of the log; and so it does since an opening, with all entries that
/// have lasted since then.
pub fn images_show_a_first_part()
    ensures now { (files image : Files) (id : ℕ) (old kept more : List Section)
        → IsInFiles files id old kept
        → Lasting files (λ name left. left ≡ finmap.get image name) id old (old ++ more)
        → Shows files id old more image }
    ensures since { (files image : Files) (r : Reading) (past : List Write) (id : ℕ)
        (old kept more : List Section) → IsInFiles files id old kept
        → Lasting files (λ name left. left ≡ finmap.get image name) id old (old ++ more)
        → SameMerge (RestoresIn (settled files id old))
        (Either (RestoresIn r) (IsCellAmong (logged_in past old)))
        → HasShown r (length (logged_in past old)) past id (old ++ more) image }
{}

/// What an image once showed it shows too once more is written: behind in the segment, or in the
/// next one.
pub fn shown_stays_shown()
    ensures behind { (r : Reading) (least : ℕ) (past : List Write) (id : ℕ)
        (sections more : List Section) (image : Files) → HasShown r least past id sections image
        → HasShown r least past id (sections ++ more) image }
    ensures rolled { (r : Reading) (least : ℕ) (past : List Write) (id next : ℕ)
        (sections : List Section) (image : Files) → IsStored id sections
        → HasShown r least past id sections image
        → HasShown r least (past ++ record { id = id; sections = sections } ∷ []) next [] image }
{}

/// An archived segment holds the entries of the bytes that its name was given, whatever else is
/// there; and the folder restores what it did without it. The worked segment under an archive name
/// holds its entry.
pub fn archives_are_not_read()
    ensures holds { (files : Files) (name bytes : List ℕ) (id : ℕ) (entries : List Entry)
        (end : segment_end) (entry : Entry) → IsArchiveName name id
        → IsSegment bytes id entries end → Contains entries entry
        → IsArchived (finmap.insert files name bytes) id entry }
    ensures row { IsArchived (finmap.insert no_files (archive_name_of 1000) the_segment) 1000
        (entry_from front_size (payload_of the_mutation)) }
    ensures restores { (files : Files) (name bytes : List ℕ) (id : ℕ) → IsArchiveName name id
        → (pair : CellKey × Cell)
        → RestoresIn (bytes_at (finmap.insert files name bytes)) pair
        ↔ RestoresIn (bytes_at files) pair }
{}

/// A worked row: into an empty folder segment 1000 is written, with one section of one entry, and
/// has not been made to last. Whatever a crash leaves restores the entry's cell or nothing, and is
/// not damaged.
pub fn a_crash_leaves_the_entry_or_nothing()
    ensures { (image : Files)
        → Lasting no_files (λ name left. left ≡ finmap.get image name) 1000 [] one_section
        → NoChance 1000 one_section (bytes_at image (segment_name_of 6 1000))
        → IsUndamaged image × (IsRestored image [] ⊎ IsRestored image (logged ∷ [])) }
{}
