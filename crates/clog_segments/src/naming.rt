//! What the names of a folder say: the id where a log may go on, the next sequence of a table, and
//! the segments in their order.
ghost use Rattle.std.specs.Prelude.{◌≡◌, ◌↔◌, ◌<◌, ◌^◌, ℕ, IsTrue, IfOk, MatchOption, Contains};
ghost use Rattle.std.specs.List.{Any};
ghost use Rattle.clog_crash.specs.Folder.{IsBase};
ghost use Rattle.clog_segments.specs.Named.{
  AreSegmentIds,
  EndsIn,
  GivesBase,
  HasId,
  HasSequence,
  IsLateTable,
  NamesOne,
  OneHas,
};

use clog_base::{
    Name, OutOfMemory, Quantity, Table, parse_archive_name, parse_segment_name, parse_table_name,
};
use clog_folder::{OpenFault, TableHeld, segment_names};
use std::alloc::Global;

/// Ids that a folder names are less than this.
const ID_LIMIT: u64 = 4_611_686_018_427_387_903;

/// The greatest sequence that a table's file may have where a folder is opened.
pub(crate) const SEQUENCE_LIMIT: u64 = 4_611_686_018_427_387_904;

/// The id in the name of a segment of any version, or of an archived one.
fn id_in(name: &Name) -> Option<u64>
    ensures { MatchOption result ((id : ℕ) → ¬ HasId name.now id)
        (λ id. (n : ℕ) → HasId name.now n ↔ (n ≡ id)) }
{
    match parse_segment_name(name) {
        Some(said) => Some(said.id),
        None => parse_archive_name(name),
    }
}

/// A base above an id too, if that is below the limit.
fn raised(base: u64, id: u64) -> Result<u64, OpenFault>
    ensures { GivesBase (λ n. n ≡ id) base result }
{
    if id >= ID_LIMIT {
        return Err(OpenFault::Limit(Quantity::Ids, ID_LIMIT));
    }
    Ok(base.max(id + 1))
}

/// A base above the id of a name too.
fn raised_by(base: u64, name: &Name) -> Result<u64, OpenFault>
    ensures { GivesBase (HasId name.now) base result }
{
    match id_in(name) {
        Some(id) => raised(base, id),
        None => Ok(base),
    }
}

fn base_of_names(names: &[Name], now: u64) -> Result<u64, OpenFault>
    ensures { GivesBase (OneHas HasId names.now) now result }
{
    let mut base = now;
    for name in names {
        // A match in place of `?`, since the exit speaks of the name.
        base = match raised_by(base, name) {
            Ok(base) => base,
            Err(fault) => return Err(fault),
        };
    }
    Ok(base)
}

fn base_of_tables(tables: &[TableHeld], now: u64) -> Result<u64, OpenFault>
    ensures { GivesBase (OneHas EndsIn tables.now) now result }
{
    let mut base = now;
    for held in tables {
        // A match in place of `?`, since the exit speaks of the file.
        base = match raised(base, held.file.upper.id) {
            Ok(base) => base,
            Err(fault) => return Err(fault),
        };
    }
    Ok(base)
}

/// The id at which a log may go on: the moment, or one more than the greatest id that the names and
/// the table files have.
pub(crate) fn base_of(names: &[Name], tables: &[TableHeld], now: u64) -> Result<u64, OpenFault>
    ensures { GivesBase (NamesOne names.now tables.now) now result }
{
    let base = match base_of_names(names, now) {
        Ok(base) => base,
        Err(fault) => return Err(fault),
    };
    base_of_tables(tables, base)
}

/// Whether both are one table.
pub(crate) fn is_one_table(a: Table, b: Table) -> bool
    ensures { IsTrue result ↔ (a ≡ b) }
{
    a == b
}

/// A sequence above that of a name too, where it is of a file of the table.
fn above_sequence(next: u64, name: &Name, table: Table) -> u64
    ensures { IsBase (HasSequence table name.now) next result }
{
    let Some((of, sequence)) = parse_table_name(name) else {
        return next;
    };
    if is_one_table(of, table) {
        return next.max(sequence + 1);
    }
    next
}

/// The sequence of a table's next file: 1, or one more than the greatest that the names have.
pub(crate) fn next_sequence(names: &[Name], table: Table) -> u64
    ensures next { IsBase (OneHas (HasSequence table) names.now) 1 result }
    ensures starts { 0 < result }
    ensures fits { ¬ Any IsLateTable names.now → result < 2 ^ 63 }
{
    let mut next = 1;
    for name in names {
        next = above_sequence(next, name, table);
    }
    next
}

fn is_late_table(name: &Name) -> bool
    ensures { IsTrue result ↔ IsLateTable name.now }
{
    match parse_table_name(name) {
        Some((_, sequence)) => sequence > SEQUENCE_LIMIT,
        None => false,
    }
}

/// Whether one of the names is that of a table file whose sequence is above the limit.
pub(crate) fn has_late_table(names: &[Name]) -> bool
    ensures { IsTrue result ↔ Any IsLateTable names.now }
{
    names.iter().any(is_late_table)
}

/// The ids of the segments among the names, in their order.
pub(crate) fn segment_ids(alloc: Global, names: &[Name]) -> Result<Vec<u64>, OutOfMemory>
    ensures { IfOk result (λ ids. AreSegmentIds (Contains names.now) ids.items) }
{
    let segments = segment_names(alloc, names)?;
    let mut ids = Vec::new(alloc);
    for (place, _) in segments {
        ids.push(place.0)?;
    }
    Ok(ids)
}
