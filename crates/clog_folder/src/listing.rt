//! What the names of a folder's files say.
ghost use Rattle.std.specs.Prelude.{◌↔◌, IsTrue, IfOk, Contains};
ghost use Rattle.clog_crash.specs.Counts.{IsNameOfTable};
ghost use Rattle.clog_crash.specs.Folder.{IsNameOf, IsNameOfSegment, place_cmp};
ghost use Rattle.clog_folder.specs.Listing.{AreRows, IsCount, IsSegmentAt, segment_cmp};
ghost use Rattle.clog_folder.specs.Segments.{IsGreatestId};

use clog_base::{Name, OutOfMemory, Table, parse_segment_name, parse_table_name};
use std::alloc::Global;
use std::collections::BTreeMap;

/// The names of table files, by table and sequence.
pub type TableNames = BTreeMap<(Table, u64), Name>;

/// The names of segments of any version, by id and version.
pub type SegmentNames = BTreeMap<(u64, u32), Name>;

fn is_segment(name: &Name) -> bool
    ensures { IsTrue result ↔ IsNameOfSegment name.now }
{
    parse_segment_name(name).is_some()
}

fn is_table(name: &Name) -> bool
    ensures { IsTrue result ↔ IsNameOfTable name.now }
{
    parse_table_name(name).is_some()
}

/// How many of the names are those of segments, of any version.
pub fn count_segments(names: &[Name]) -> usize
    ensures { IsCount IsNameOfSegment names.now result }
{
    let mut count = 0;
    for name in names {
        if is_segment(name) {
            count += 1;
        }
    }
    count
}

/// How many of the names are those of table files.
pub fn count_tables(names: &[Name]) -> usize
    ensures { IsCount IsNameOfTable names.now result }
{
    let mut count = 0;
    for name in names {
        if is_table(name) {
            count += 1;
        }
    }
    count
}

/// The names that are those of table files; `OutOfMemory` where memory was refused.
pub fn table_names(alloc: Global, names: &[Name]) -> Result<TableNames, OutOfMemory>
    ensures { IfOk result (λ tables.
        AreRows place_cmp IsNameOf (Contains names.now) tables.entries) }
{
    let mut tables = BTreeMap::new(alloc);
    for name in names {
        if let Some(place) = parse_table_name(name) {
            tables.insert(place, *name)?;
        }
    }
    Ok(tables)
}

/// The names that are those of segments.
pub fn segment_names(alloc: Global, names: &[Name]) -> Result<SegmentNames, OutOfMemory>
    ensures { IfOk result (λ segments.
        AreRows segment_cmp IsSegmentAt (Contains names.now) segments.entries) }
{
    let mut segments = BTreeMap::new(alloc);
    for name in names {
        if let Some(said) = parse_segment_name(name) {
            segments.insert((said.id, said.version), *name)?;
        }
    }
    Ok(segments)
}

/// The greatest id of a segment; 0 where there is none.
pub fn greatest_id(names: &SegmentNames) -> u64
    ensures { IsGreatestId names.now.entries result }
{
    match names.last_key_value() {
        Some((place, _)) => place.0,
        None => 0,
    }
}
