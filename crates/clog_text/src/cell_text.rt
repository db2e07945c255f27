//! Cells as lines of text: compact JSON with the names in the order of the alphabet.
ghost use Rattle.std.specs.Prelude.{◌≡◌, [], ◌∷◌, ◌++◌, IfOk, OnOk, OnErr};
ghost use Rattle.clog_text.specs.CellTexts.{cell_line, cell_tokens, text_tokens, number_tokens};
ghost use Rattle.clog_text.specs.CellTexts.{value_token};

use clog_base::{Cell, CellKey, Kind, OutOfMemory, Table};
use json::Writer;
use std::alloc::{AllocError, Global};
use std::mem;

// Writes a member whose value is a string.
fn write_text(writer: &mut Writer, name: &str, text: &str) -> Result<(), AllocError>
    ensures ok { OnOk result (writer.new.tokens
        ≡ writer.old.tokens ++ text_tokens name.now text.now) }
    ensures before { writer.new.before ≡ writer.old.before }
{
    writer.key(name)?;
    writer.string(text)
}

// Writes the members `table` and `ts`.
fn write_numbers(writer: &mut Writer, table: Table, ts: i64) -> Result<(), AllocError>
    ensures ok { OnOk result (writer.new.tokens
        ≡ writer.old.tokens ++ number_tokens table ts) }
    ensures before { writer.new.before ≡ writer.old.before }
{
    writer.key("table")?;
    writer.u64(table.0 as u64)?;
    writer.key("ts")?;
    writer.i64(ts)
}

// Writes the value: null for a deletion.
fn write_value(writer: &mut Writer, cell: &Cell) -> Result<(), AllocError>
    ensures ok { OnOk result (writer.new.tokens
        ≡ writer.old.tokens ++ value_token cell.now.kind cell.now.value ∷ []) }
    ensures before { writer.new.before ≡ writer.old.before }
{
    match cell.kind {
        Kind::Deletion => writer.null(),
        Kind::Live => writer.string(cell.value.as_str()),
    }
}

// Writes a cell's object.
#[tactic(auto, unfolding(crate::specs::CellTexts::cell_tokens))]
fn write_cell(writer: &mut Writer, key: &CellKey, cell: &Cell) -> Result<(), AllocError>
    ensures ok { OnOk result (writer.new.tokens
        ≡ writer.old.tokens ++ cell_tokens key.now cell.now) }
    ensures before { writer.new.before ≡ writer.old.before }
{
    writer.begin_object()?;
    write_text(writer, "column", key.column.as_str())?;
    write_text(writer, "key", key.key.as_str())?;
    write_numbers(writer, key.table, cell.ts)?;
    writer.key("value")?;
    write_value(writer, cell)?;
    writer.end_object()?;
    Ok(())
}

/// A printer of cells' lines. It keeps the memory in which it makes a line.
#[derive(Drop)]
pub struct CellPrinter {
    alloc: Global,
    line: Vec<u8>,
}

impl CellPrinter {
    /// A printer that has printed nothing.
    pub fn new(alloc: Global) -> CellPrinter {
        CellPrinter {
            alloc,
            line: Vec::new(alloc),
        }
    }

    // Makes a cell's line alone.
    fn make(&mut self, key: &CellKey, cell: &Cell) -> Result<(), AllocError>
        ensures { OnOk result (self.new.line.items ≡ cell_line key.now cell.now) }
    {
        let mut line = mem::replace(&mut self.line, Vec::new(self.alloc));
        line.clear();
        let mut writer = Writer::new(line);
        let written = write_cell(&mut writer, key, cell);
        self.line = writer.into_inner();
        written?;
        Ok(self.line.push(b'\n')?)
    }

    /// Puts a cell's line at the end of `out`: the compact JSON object with the names `column`,
    /// `key`, `table`, `ts` and `value`, the value null for a deletion, and 0A. After a refusal
    /// `out` is as before.
    pub fn put(&mut self, out: &mut Vec<u8>, key: &CellKey, cell: &Cell) -> Result<(), OutOfMemory>
        ensures ok { OnOk result (out.new.items ≡ out.old.items ++ cell_line key.now cell.now) }
        ensures err { OnErr result (out.new.items ≡ out.old.items) }
    {
        self.make(key, cell)?;
        out.extend_from_slice(self.line.as_slice())?;
        Ok(())
    }
}

/// A cell's line alone.
pub fn cell_line(alloc: Global, key: &CellKey, cell: &Cell) -> Result<Vec<u8>, OutOfMemory>
    ensures { IfOk result (λ line. line.items ≡ cell_line key.now cell.now) }
{
    let mut line = Vec::new(alloc);
    let mut printer = CellPrinter::new(alloc);
    printer.put(&mut line, key, cell)?;
    Ok(line)
}
