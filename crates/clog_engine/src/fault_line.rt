//! The line that tells a fault. It takes no memory.
ghost use Rattle.std.specs.Prelude.{◌≡◌, ◌≤◌, ◌+◌, ◌++◌, [], length};
ghost use Rattle.clog_text.specs.Refusals.{part_name, refusal_name, refusal_text};
ghost use Rattle.clog_engine.specs.Faults.{fault_line, limit_line, quantity_name};

use crate::status::Status;
use clog_base::{Name, Quantity, TextRow};
use clog_scan::Cause;
use clog_table::{FaultText, TableFault};
use clog_text::{BadLine, Part};
use std::marker::Model;

fn quantity_name(what: Quantity) -> &'static [u8]
    ensures text { result.now ≡ quantity_name what }
    ensures short { length result.now ≤ 13 }
{
    match what {
        Quantity::FileBytes => b"file-bytes",
        Quantity::Lines => b"lines",
        Quantity::SegmentBytes => b"segment-bytes",
        Quantity::Ids => b"ids",
        Quantity::TableFiles => b"table-files",
    }
}

fn part_name(part: Part) -> &'static [u8]
    ensures text { result.now ≡ part_name part }
    ensures short { length result.now ≤ 7 }
{
    part.name().as_bytes()
}

fn refusal_name(cause: BadLine) -> &'static [u8]
    ensures text { result.now ≡ refusal_name cause }
    ensures short { length result.now ≤ 12 }
{
    cause.name().as_bytes()
}

// Puts why a line is refused.
fn put_refusal(row: &mut TextRow, cause: BadLine)
    requires { length row.old + 20 ≤ 192 }
    ensures text { row.new ≡ row.old ++ refusal_text cause }
    ensures short { length row.new ≤ length row.old + 20 }
{
    row.put(refusal_name(cause));
    if let Some(part) = cause.part() {
        row.put(b" ");
        row.put(part_name(part));
    }
}

fn put_bad_line(row: &mut TextRow, number: u32, cause: BadLine)
    requires { row.old ≡ [] }
    ensures { row.new ≡ fault_line (Status.BadLine number cause) }
{
    row.put(b"error 2: line ");
    row.put_number(u64::from(number));
    row.put(b": ");
    put_refusal(row, cause);
    row.put(b"\n");
}

fn put_too_large(row: &mut TextRow, number: u32, size: u32, most: u32)
    requires { row.old ≡ [] }
    ensures { row.new ≡ fault_line (Status.TooLarge number size most) }
{
    row.put(b"error 3: line ");
    row.put_number(u64::from(number));
    row.put(b": size ");
    row.put_number(u64::from(size));
    row.put(b" above ");
    row.put_number(u64::from(most));
    row.put(b"\n");
}

fn put_limit(row: &mut TextRow, name: &[u8], number: u64)
    requires void { row.old ≡ [] }
    requires short { length name.now ≤ 13 }
    ensures { row.new ≡ limit_line name.now number }
{
    row.put(b"error 10: limit ");
    row.put(name);
    row.put(b" ");
    row.put_number(number);
    row.put(b"\n");
}

fn put_bad_table(row: &mut TextRow, name: &Name, fault: &TableFault)
    requires { row.old ≡ [] }
    ensures { row.new ≡ fault_line (Status.BadTable name.now fault.now) }
{
    let text = FaultText::new(fault);
    row.put(b"error 8: ");
    row.put(name.as_bytes());
    row.put(b": ");
    row.put(text.as_bytes());
    row.put(b"\n");
}

fn put_damaged(row: &mut TextRow, name: &Name, at: u32, cause: Cause)
    requires { row.old ≡ [] }
    ensures { row.new ≡ fault_line (Status.Damaged name.now at cause) }
{
    let text = cause.text();
    row.put(b"error 7: ");
    row.put(name.as_bytes());
    row.put(b" at ");
    row.put_number(u64::from(at));
    row.put(b": ");
    row.put(text.as_bytes());
    row.put(b"\n");
}

fn put_absent(row: &mut TextRow, name: &Name)
    requires { row.old ≡ [] }
    ensures { row.new ≡ fault_line (Status.Absent name.now) }
{
    row.put(b"error 11: no file ");
    row.put(name.as_bytes());
    row.put(b"\n");
}

// Puts a status' line; for `Ok` and `WriteFault` there is none.
fn put_fault(row: &mut TextRow, status: &Status)
    requires { row.old ≡ [] }
    ensures { row.new ≡ fault_line status.now }
{
    match status {
        Status::Ok | Status::WriteFault => {}
        Status::Usage => row.put(b"error 1: usage\n"),
        Status::BadLine(number, cause) => put_bad_line(row, *number, *cause),
        Status::TooLarge(number, size, most) => put_too_large(row, *number, *size, *most),
        Status::ReadFault => row.put(b"error 4: read fault\n"),
        Status::DiskFault => row.put(b"error 6: disk fault\n"),
        Status::Damaged(name, at, cause) => put_damaged(row, name, *at, *cause),
        Status::BadTable(name, fault) => put_bad_table(row, name, fault),
        Status::OutOfMemory => row.put(b"error 9: out of memory\n"),
        Status::Limit(what, number) => put_limit(row, quantity_name(*what), *number),
        Status::Absent(name) => put_absent(row, name),
    }
}

/// The line of a fault, with its 0A; for `Ok` and `WriteFault` there is none.
#[derive(Drop)]
pub struct FaultLine {
    row: TextRow,
}

impl Model for FaultLine {
    ghost use Rattle.std.specs.Prelude.{ℕ, List};

    ghost Value = { List ℕ };

    ghost view = { λ l. l.row };
}

impl FaultLine {
    /// The line that tells a status.
    pub fn new(status: &Status) -> FaultLine
        ensures { result ≡ fault_line status.now }
    {
        let mut row = TextRow::new();
        put_fault(&mut row, status);
        FaultLine { row }
    }

    /// Its bytes.
    pub fn as_bytes(&self) -> &[u8]
        ensures { result.now ≡ self.now }
    {
        self.row.as_bytes()
    }
}
