//! Laws of a folder whose store's disk has failed.
ghost use Rattle.std.specs.Prelude.{◌<◌, ◌^◌, ℕ, List, [], Option, Contains, unwrap_or};
ghost use Rattle.clog_disk.specs.Files.{Files};
ghost use Rattle.clog_scan.specs.Cut.{Section};
ghost use Rattle.clog_crash.specs.Chance.{NoChance};
ghost use Rattle.clog_crash.specs.Folder.{AreGoodTables};
ghost use Rattle.clog_crash.specs.Log.{Write};
ghost use Rattle.clog_crash.specs.Sections.{IsStored};
ghost use Rattle.clog_segments.specs.StoreFailed.{HoldsButOne};
ghost use Rattle.clog_segments.specs.StoreFolder.{Deeds, StoreLog};
ghost use Rattle.clog_segments.specs.Torn.{ReadsTorn, StandsTorn};

/// A put that the disk has failed leaves no table file that reading calls bad: where none was so at
/// the opening, none is.
pub fn a_failed_put_leaves_no_bad_table_file()
    ensures { (first now : Files) (log : StoreLog) (deeds : Deeds)
        → ((w : Write) → Contains log.past w → w.id < log.id) → log.id < 2 ^ 63
        → AreGoodTables first → HoldsButOne first log deeds now → AreGoodTables now }
{}

/// The segment at hand, whatever its disk has failed at, reads as its sections but perhaps the
/// last, each that lasts among them, and then as the first entries of that one.
pub fn a_torn_segment_at_hand_reads_as_a_first_part()
    ensures { (id count : ℕ) (sections : List Section) (what : Option (List ℕ))
        → IsStored id sections → StandsTorn id count sections what
        → NoChance id sections (unwrap_or what [])
        → ReadsTorn id count sections (unwrap_or what []) }
{}
