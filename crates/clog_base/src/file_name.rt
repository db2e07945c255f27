//! The names of segments, archived segments and table files.
ghost use Rattle.std.specs.Prelude.{◌≡◌, ◌<◌, ◌^◌};
ghost use Rattle.clog_spec.specs.Names.{segment_name_of, archive_name_of, table_name_of};

use crate::cell::Table;
use crate::format::LONGEST_FILE_NAME;
use crate::name::{Name, padded};
use crate::name_text::{put_numbered, put_two_numbered};

/// The name of the segment of an id, in version 6.
pub fn segment_name(id: u64) -> Name
    ensures { result ≡ segment_name_of 6 id }
{
    versioned_name(6, id)
}

// The name of a segment of any version.
pub(crate) fn versioned_name(version: u32, id: u64) -> Name
    ensures { result ≡ segment_name_of version id }
{
    let mut row = [0u8; LONGEST_FILE_NAME];
    let len = put_two_numbered(&mut row, b"CommitLog-", u64::from(version), id, b".log");
    padded(&row[..len])
}

/// The name under which the segment of an id is archived.
pub fn archive_name(id: u64) -> Name
    requires { id < 2 ^ 63 }
    ensures { result ≡ archive_name_of id }
{
    let mut row = [0u8; LONGEST_FILE_NAME];
    let len = put_numbered(&mut row, b"Archive-CommitLog-6-", id, b".log");
    padded(&row[..len])
}

/// The name of a table's file. Sequences begin at 1.
pub fn table_name(table: Table, sequence: u64) -> Name
    requires some { 0 < sequence }
    requires fits { sequence < 2 ^ 63 }
    ensures { result ≡ table_name_of table.0 sequence }
{
    let mut row = [0u8; LONGEST_FILE_NAME];
    let len = put_two_numbered(&mut row, b"Table-", u64::from(table.0), sequence, b".tbl");
    padded(&row[..len])
}
