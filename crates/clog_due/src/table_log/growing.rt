//! A table's part of the log grows: with the intervals of further files, and with the ends of
//! further entries.
ghost use Rattle.std.specs.Prelude.{
  ◌≡◌,
  ◌≢◌,
  ◌↔◌,
  ◌⊎◌,
  ◌<◌,
  ◌≤◌,
  ◌++◌,
  ◌∷◌,
  [],
  ℕ,
  List,
  OnOk,
  length,
  take,
};
ghost use Rattle.clog_spec.specs.Sizes.{most_tables};
ghost use Rattle.clog_base.specs.declared.position.Position.{Position as At};
ghost use Rattle.clog_base.specs.Positions.{position_of};
ghost use Rattle.clog_intervals.specs.Hulls.{IsEmptyOrOf, IsHull};
ghost use Rattle.clog_intervals.specs.Union.{Holds};
ghost use Rattle.path_core.specs.Parts.{touches};
ghost use Rattle.clog_due.specs.Dropping.{
  AreClean,
  AreHulls,
  ArePlaced,
  IsOfFile,
  IsPlaced,
  ends_of,
};
ghost use Rattle.clog_due.specs.HullRows.{hull_at};

use crate::hulls::Hulls;
use crate::stored_file::StoredFile;
use clog_base::{Key, OutOfMemory, Position, Table};
use clog_intervals::Cleans;
use clog_segments::Published;
use path_core::EntryNote;

// ---- what files hold of a table's log

// The union with a file's interval too, where the file is of the table.
fn add_file(cleans: &mut Cleans, file: Published, table: Table) -> Result<(), OutOfMemory>
    ensures { OnOk result ((at : At) → Holds cleans.new.intervals at
        ↔ (Holds cleans.old.intervals at
        ⊎ IsOfFile table.0 file.table.0 file.lower.0 file.upper.0 at)) }
{
    if file.table.0 != table.0 || file.lower.0 >= file.upper.0 {
        return Ok(());
    }
    cleans.add(file.lower.position(0), file.upper.position(0))
}

/// The union with the intervals of the files from one on too.
pub(super) fn add_files(
    cleans: &mut Cleans,
    files: &[StoredFile],
    first: usize,
    table: Table,
) -> Result<(), OutOfMemory>
    requires within { first ≤ length files.now }
    requires clean { AreClean table.0 (take first files.now) cleans.old.intervals }
    ensures { OnOk result (AreClean table.0 files.now cleans.new.intervals) }
{
    for index in first..files.len() {
        add_file(cleans, files[index].interval(), table)?;
    }
    Ok(())
}

// ---- where a table's log reaches in each segment

// The hulls with one more position, in the segment of its ordinal.
fn add_end(hulls: &mut Hulls, at: Position) -> Result<(), OutOfMemory>
    requires { IsEmptyOrOf (hull_at hulls.old at.id) at.id }
    ensures here { OnOk result ((ends : List At) → IsHull (hull_at hulls.old at.id) ends
        → IsHull (hull_at hulls.new at.id) (ends ++ at ∷ [])) }
    ensures others { OnOk result ((o : ℕ) → o ≢ at.id → hull_at hulls.new o ≡ hull_at hulls.old o) }
{
    let mut hull = hulls.at(at.id);
    hull.add(at);
    hulls.put(at.id, hull)
}

// The place of a key, with the segment's ordinal for its id.
fn place_of(key: Key) -> Position
    ensures { result ≡ position_of 0 key.0 }
{
    key.position(0)
}

fn is_touching(note: &EntryNote, table: Table) -> bool
    requires { table.0 < most_tables }
    ensures { result ≡ touches note.now.tables table.0 }
{
    note.tables >> table.0 & 1 == 1
}

// The hulls with one more entry, where it touches the table.
fn add_entry(hulls: &mut Hulls, note: &EntryNote, table: Table) -> Result<(), OutOfMemory>
    requires table { table.0 < most_tables }
    requires placed { IsPlaced note.now }
    requires own { (o : ℕ) → IsEmptyOrOf (hull_at hulls.old o) o }
    ensures { OnOk result ((o : ℕ) (ends : List At) → IsHull (hull_at hulls.old o) ends
        → IsHull (hull_at hulls.new o) (ends ++ ends_of table.0 o (note.now ∷ []))) }
{
    if is_touching(note, table) {
        return add_end(hulls, place_of(note.end));
    }
    Ok(())
}

/// The hulls with the entries from one on too.
pub(super) fn add_entries(
    hulls: &mut Hulls,
    notes: &[EntryNote],
    first: usize,
    table: Table,
) -> Result<(), OutOfMemory>
    requires table { table.0 < most_tables }
    requires placed { ArePlaced notes.now }
    requires within { first ≤ length notes.now }
    requires hulls { AreHulls table.0 (take first notes.now) hulls.old }
    ensures { OnOk result (AreHulls table.0 notes.now hulls.new) }
{
    for index in first..notes.len() {
        add_entry(hulls, &notes[index], table)?;
    }
    Ok(())
}
