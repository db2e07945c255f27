//! What a store tells of itself: its sizes, the entries that it has made lasting, how far its table
//! files reach, and its disk's count of faults.
ghost use Rattle.std.specs.Prelude.{◌≡◌, ◌==◌, ◌<◌, ℕ, false, get_or, if◌then◌else◌, true};
ghost use Rattle.clog_io.specs.Causes.{Rose};
ghost use Rattle.clog_spec.specs.Sizes.{most_tables};
ghost use Rattle.path_core.specs.Keeper.{upper_from};
ghost use Rattle.clog_segments.specs.NoteLog.{IsNoteLog};

use crate::store::Store;
use clog_base::{Key, Sizes};
use clog_disk::Disk;
use clog_due::StoredFile;
use clog_segments::Published;
use path_core::EntryNote;

// The last keys of tables get that of one file more.
fn put_upper(uppers: &mut [Key; 16], file: Published)
    ensures { (t : ℕ) → t < most_tables → (get_or uppers.new t (record { 0 = 0 })).0
        ≡ (if file.table.0 == t then file.upper.0 else (get_or uppers.old t (record { 0 = 0 })).0) }
{
    let place = usize::from(file.table.0);
    if place >= uppers.len() {
        return;
    }
    uppers[place] = file.upper;
}

// The key at which the last of the files of each table ends.
fn uppers_of(files: &[StoredFile]) -> [Key; 16]
    ensures { (t : ℕ) → t < most_tables
        → (get_or result t (record { 0 = 0 })).0 ≡ upper_from t 0 files.now }
{
    let mut uppers = [Key(0); 16];
    for file in files {
        put_upper(&mut uppers, file.interval());
    }
    uppers
}

impl<D: Disk> Store<D> {
    /// The sizes that it was opened with: tables, writers, bytes of a segment, segments.
    pub fn sizes(&self) -> Sizes
        ensures { result ≡ self.now.notes.sizes }
    {
        self.notes.sizes()
    }

    /// The entries that it has made lasting since its opening, in the order of the log.
    pub fn logged(&self) -> &[EntryNote]
        ensures { result.now ≡ self.now.notes.logged }
    {
        self.notes.logged()
    }

    /// The key at which the last table file of each table ends, by the table's number; 0 where
    /// there is none.
    pub fn filed_to(&self) -> [Key; 16]
        ensures { (t : ℕ) → t < most_tables
            → (get_or result t (record { 0 = 0 })).0 ≡ upper_from t 0 self.now.files }
    {
        uppers_of(&self.files)
    }

    /// Its disk's count of faults. While it has not stopped, none was counted since the opening;
    /// where it has, the count has risen since, or stands at the greatest `u64`.
    pub fn fault_count(&self) -> u64
        ensures count { result ≡ D.faults self.now.notes.log.disk }
        ensures noted { IsNoteLog self.now.notes }
        ensures quiet { self.now.notes.log.is_stopped ≡ false
            → D.faults self.now.notes.log.disk ≡ D.faults self.now.first }
        ensures risen { self.now.notes.log.is_stopped ≡ true
            → Rose (D.faults self.now.first) (D.faults self.now.notes.log.disk) }
    {
        self.notes.fault_count()
    }
}
