//! A store gives its disk back, and tells all that it has kept true.
ghost use Rattle.std.specs.Prelude.{◌≡◌, ◌≤◌, Some, false, true};
ghost use Rattle.clog_io.specs.Causes.{Rose};
ghost use Rattle.clog_disk.specs.Files.{Files};
ghost use Rattle.clog_disk.specs.Images.{IsLater};
ghost use Rattle.clog_crash.specs.Sections.{IsStored};
ghost use Rattle.clog_segments.specs.Life.{LastsHere, LastsNow, ShownSince, StandsHere};
ghost use Rattle.clog_segments.specs.NamesLast.{NamesLast};
ghost use Rattle.clog_segments.specs.NoteLog.{IsNoteLog};
ghost use Rattle.clog_segments.specs.StoreFailed.{AllStay};
ghost use Rattle.clog_segments.specs.StoreFolder.{IsSound};
ghost use Rattle.clog_segments.specs.StoreImages.{MostSince, OpensSince, TablesSince};
ghost use Rattle.clog_store.specs.StoreNames.{RowsLast};
ghost use Rattle.clog_segments.specs.StoreOrder.{AreSettled};
ghost use Rattle.clog_segments.specs.StoreState.{
  AppendsAlone,
  HasGrown,
  HasOrdered,
  HoldsIt,
  HoldsItButOne,
};

use crate::store::Store;
use clog_disk::Disk;
use std::thread::Threads;

impl<D: Disk> Store<D> {
    /// Gives the disk back. The appends since the opening have brought just the log's sections, and
    /// where all lasted at the opening, each image since restores what the folder restored then and
    /// the first of the entries, and each image of now all that last. A store that has put no file
    /// and dropped no segment has appended alone. Also where the disk has failed its changes stand
    /// in order: a table file behind the log up to its end, and a segment that goes behind the
    /// table files that stand for it. Its folder holds just what the store wrote and what was there
    /// at the opening, but for the one file with which the disk has failed, of which it is told
    /// what may stand there; each file that was there at the opening stays. Where the store has not
    /// stopped and all sections of the segment at hand last, its name does, whatever lasted at the
    /// opening. So does each other name that it wrote: of the segments that it has left, of those
    /// that it archived, and of the table files that it put. At each name but that of the segment
    /// at hand a crash leaves just what is read there, or nothing has changed there since the
    /// opening.
    ///
    /// Where all lasted at the opening, each image since holds at most what was there then, parts
    /// of the log's segments, archive names of earlier ones, and table files that end in the log:
    /// those that stand now, or, once the disk has failed, the next one of a table. So it can be
    /// opened, and its segments are bytes, where the folder could be then, and sequences and ids
    /// stay within their limits.
    ///
    /// Where the store has not stopped, the disk has counted no fault since the opening; else the
    /// count has risen, or stands at the greatest `u64`.
    ///
    /// The memory of many entries is given back by a thread for which nobody waits.
    pub fn into_disk<R: Threads>(self, rt: &R) -> D
        ensures disk { result ≡ self.notes.log.disk }
        ensures opened { self.notes.log.opened ≡ D.moment self.first }
        ensures later { IsLater D.moment D.read_at D.lasted_at self.first result }
        ensures no_fewer { D.faults self.first ≤ D.faults result }
        ensures quiet { self.notes.log.is_stopped ≡ false → D.faults result ≡ D.faults self.first }
        ensures risen { self.notes.log.is_stopped ≡ true
            → Rose (D.faults self.first) (D.faults result) }
        ensures grown { HasGrown D.changes self.first self.notes.log }
        ensures alone { AppendsAlone D.changes self }
        ensures settled { AreSettled self.notes self.files }
        ensures ordered { HasOrdered D.changes self }
        ensures notes { IsNoteLog self.notes }
        ensures stored { IsStored self.notes.log.id self.notes.log.sections }
        ensures sound { IsSound self.notes.log }
        ensures folder { self.notes.log.is_stopped ≡ false → HoldsIt D.files self }
        ensures left { HoldsItButOne D.files self }
        ensures stay { (first now : Files) → D.files self.first ≡ Some first
            → D.files result ≡ Some now → AllStay first now }
        ensures shown { D.lasted_at result self.notes.log.opened
            → ShownSince D.files D.moment D.since D.read_at D.lasted_at self.first result
            self.notes.log.opened self.notes.log.past self.notes.log.id self.notes.log.sections }
        ensures lasts { D.lasted_at result self.notes.log.opened
            → LastsNow D.files D.leaves D.read_at D.lasted_at self.notes.log }
        ensures here { self.notes.log.is_stopped ≡ false
            → LastsHere D.files D.leaves self.notes.log }
        ensures stands { StandsHere D.files self.notes.log }
        ensures names { NamesLast D.files D.leaves self.first self.notes.log }
        ensures rows { RowsLast D.files D.leaves self }
        ensures most { D.lasted_at result self.notes.log.opened
            → MostSince D.files D.moment D.since self }
        ensures tables { D.lasted_at result self.notes.log.opened
            → TablesSince D.files D.moment D.since self }
        ensures opens { D.lasted_at result self.notes.log.opened
            → OpensSince D.files D.moment D.since self }
    {
        self.notes.into_log(rt).into_disk()
    }
}
