//! The text of a fault, which takes no memory.
ghost use Rattle.std.specs.Prelude.{◌≡◌, ◌≤◌, ◌++◌, length, decimal};
ghost use Rattle.clog_table.specs.FaultTexts.{fault_text};

use crate::fault::TableFault;
use clog_base::TextRow;
use std::marker::Model;

/// A text of at most 40 bytes, which contracts see as its bytes.
#[derive(Drop)]
pub struct FaultText {
    text: TextRow,
}

impl Model for FaultText {
    ghost use Rattle.std.specs.Prelude.{List, ℕ, ◌≤◌, length};

    ghost Value = { List ℕ };

    ghost view = { λ t. t.text };

    ghost invariant = { λ t. length t.text ≤ 40 };
}

impl FaultText {
    /// The name of the fault, and behind a space its number where it has one: `Order 54`.
    pub fn new(fault: &TableFault) -> FaultText
        ensures { result ≡ fault_text fault.now }
    {
        match *fault {
            TableFault::Short => named(b"Short"),
            TableFault::Version(version) => numbered(b"Version ", u64::from(version)),
            TableFault::HeadCheck => named(b"HeadCheck"),
            TableFault::Table => named(b"Table"),
            TableFault::Interval => named(b"Interval"),
            TableFault::Cell(at) => numbered(b"Cell ", at),
            TableFault::Order(at) => numbered(b"Order ", at),
            TableFault::CellsCheck => named(b"CellsCheck"),
            TableFault::Trailing(at) => numbered(b"Trailing ", at),
            TableFault::OutOfMemory => named(b"OutOfMemory"),
        }
    }

    /// Its bytes.
    pub fn as_bytes(&self) -> &[u8]
        ensures same { result.now ≡ self.now }
        ensures short { length self.now ≤ 40 }
    {
        self.text.as_bytes()
    }
}

fn named(name: &[u8]) -> FaultText
    requires { length name.now ≤ 20 }
    ensures { result ≡ name.now }
{
    let mut text = TextRow::new();
    text.put(name);
    FaultText { text }
}

fn numbered(name: &[u8], number: u64) -> FaultText
    requires { length name.now ≤ 20 }
    ensures { result ≡ name.now ++ decimal number }
{
    let mut text = TextRow::new();
    text.put(name);
    text.put_number(number);
    FaultText { text }
}
