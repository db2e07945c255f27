//! The head of a table file.
ghost use Rattle.std.specs.Prelude.{◌≡◌, ◌≤◌, ◌↔◌, length, take, drop, IsTrue};
ghost use Rattle.clog_table.specs.Format.{check_bytes, head_size, head_front_size};
ghost use Rattle.clog_table.specs.Heads.{position_at, head_at, HeadGives};
ghost use Rattle.clog_table.specs.Limits.{is_this_table};

use crate::check::is_check_of;
use crate::fault::TableFault;
use byteorder::{BigEndian, ByteOrder};
use clog_base::{MOST_TABLES, Position, Table};

/// The length of a head.
pub(crate) const HEAD_SIZE: usize = 37;

/// The length of a head without its check, which is of so many bytes.
const HEAD_FRONT_SIZE: usize = 33;

/// What the head says behind the version; the interval holds the places above `lower` and at or
/// below `upper`.
#[derive(Clone, Copy)]
pub struct Head {
    /// The table that all cells of the file are of.
    pub table: Table,
    /// The end of the interval that is not in it.
    pub lower: Position,
    /// The end of the interval that is in it.
    pub upper: Position,
    /// How many cells stand behind the head.
    pub count: u32,
}

fn position_at(bytes: &[u8]) -> Position
    requires { 12 ≤ length bytes.now }
    ensures { result ≡ position_at bytes.now }
{
    Position {
        id: BigEndian::read_u64(bytes),
        offset: BigEndian::read_u32(&bytes[8..]),
    }
}

fn head_at(bytes: &[u8]) -> Head
    requires { head_size ≤ length bytes.now }
    ensures { result ≡ head_at bytes.now }
{
    Head {
        table: Table(bytes[4]),
        lower: position_at(&bytes[5..]),
        upper: position_at(&bytes[17..]),
        count: BigEndian::read_u32(&bytes[29..]),
    }
}

/// Whether the check of the head is right.
fn is_checked(bytes: &[u8]) -> bool
    requires { head_size ≤ length bytes.now }
    ensures { IsTrue result ↔ (take 4 (drop head_front_size bytes.now)
        ≡ check_bytes (take head_front_size bytes.now)) }
{
    let (front, check) = bytes.split_at(HEAD_FRONT_SIZE);
    is_check_of(check, front)
}

/// Whether the table of a head is the one that is asked for, and below 16.
fn is_this_table(found: Table, table: Table) -> bool
    ensures { result ≡ is_this_table found table }
{
    found.0 < MOST_TABLES && found == table
}

/// The head of a file of this table.
pub(crate) fn head_of(bytes: &[u8], table: Table) -> Result<Head, TableFault>
    ensures { HeadGives table bytes.now result }
{
    if bytes.len() < HEAD_SIZE {
        return Err(TableFault::Short);
    }
    let version = BigEndian::read_u32(bytes);
    if version != 1 {
        return Err(TableFault::Version(version));
    }
    if !is_checked(bytes) {
        return Err(TableFault::HeadCheck);
    }
    let head = head_at(bytes);
    if !is_this_table(head.table, table) {
        return Err(TableFault::Table);
    }
    if !head.lower.is_up_to(head.upper) {
        return Err(TableFault::Interval);
    }
    Ok(head)
}
