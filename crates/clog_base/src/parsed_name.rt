//! What the names of segments, archived segments and table files say. A name is read exactly where
//! it is written as this project writes it, so that two names never say the same.
ghost use Rattle.std.specs.Prelude.{◌≡◌, ℕ, List, MatchOption};
ghost use Rattle.clog_spec.specs.Names.{
  IsSegmentName,
  IsArchiveName,
  IsTableName,
  IsNoSegmentName,
  IsNoArchiveName,
  IsNoTableName,
};

use crate::cell::Table;
use crate::format::MOST_TABLES;
use crate::name::Name;
use crate::name_reading::{between, number_of, two_numbers_of};

/// The greatest id of a segment, and the greatest sequence of a table file.
const GREATEST_ID: u64 = (1 << 63) - 1;

/// The greatest version of a segment's format.
const GREATEST_VERSION: u64 = (1 << 32) - 1;

/// The version and the id in a segment's name.
#[derive(Clone, Copy, Debug, PartialEq, Eq)]
pub struct SegmentName {
    /// The version of the segment's format.
    pub version: u32,
    /// The segment's id, below 2^63.
    pub id: u64,
}

/// What a segment's name says, of any version; None for every other name.
pub fn parse_segment_name(name: &Name) -> Option<SegmentName>
    ensures { MatchOption result (IsNoSegmentName name.now)
        (λ said. IsSegmentName name.now said.version said.id) }
{
    let Some(middle) = between(name.as_bytes(), b"CommitLog-", b".log") else {
        return None;
    };
    let Some((version, id)) = two_numbers_of(middle) else {
        return None;
    };
    if version > GREATEST_VERSION || id > GREATEST_ID {
        return None;
    }
    Some(SegmentName {
        version: version as u32,
        id,
    })
}

/// The id in an archived segment's name; None for every other name.
pub fn parse_archive_name(name: &Name) -> Option<u64>
    ensures { MatchOption result (IsNoArchiveName name.now) (λ id. IsArchiveName name.now id) }
{
    let Some(middle) = between(name.as_bytes(), b"Archive-CommitLog-6-", b".log") else {
        return None;
    };
    let Some(id) = number_of(middle) else {
        return None;
    };
    if id > GREATEST_ID {
        return None;
    }
    Some(id)
}

/// The table and the sequence in a table file's name; None for every other name.
pub fn parse_table_name(name: &Name) -> Option<(Table, u64)>
    ensures { MatchOption result (IsNoTableName name.now)
        (λ said. IsTableName name.now said.0.0 said.1) }
{
    let Some(middle) = between(name.as_bytes(), b"Table-", b".tbl") else {
        return None;
    };
    let Some((table, sequence)) = two_numbers_of(middle) else {
        return None;
    };
    if table >= u64::from(MOST_TABLES) || sequence == 0 || sequence > GREATEST_ID {
        return None;
    }
    Some((Table(table as u8), sequence))
}

/// A name says one thing at most: it is of one kind, and what it says is determined.
pub fn name_laws()
    ensures one_segment { (name : List ℕ) (version id version' id' : ℕ)
        → IsSegmentName name version id → IsSegmentName name version' id'
        → (version ≡ version') × (id ≡ id') }
    ensures one_archive { (name : List ℕ) (id id' : ℕ) → IsArchiveName name id
        → IsArchiveName name id' → id ≡ id' }
    ensures one_table { (name : List ℕ) (table sequence table' sequence' : ℕ)
        → IsTableName name table sequence → IsTableName name table' sequence'
        → (table ≡ table') × (sequence ≡ sequence') }
    ensures segment_is_no_other { (name : List ℕ) (version id : ℕ)
        → IsSegmentName name version id → IsNoArchiveName name × IsNoTableName name }
    ensures archive_is_no_table { (name : List ℕ) (id : ℕ) → IsArchiveName name id
        → IsNoTableName name }
{}
