//! What a run prints where it is well.
ghost use Rattle.std.specs.Prelude.{
  ◌≡◌,
  ◌+◌,
  ◌*◌,
  ◌≤◌,
  ◌++◌,
  [],
  length,
  vec_capacity,
  vec_len,
  IfOk,
  IsOk,
  OnOk,
};
ghost use Rattle.std.specs.List.{flat_map};
ghost use Rattle.clog_text.specs.CellTexts.{row_line};
ghost use Rattle.clog_text.specs.FileLines.{line_limit};
ghost use Rattle.clog_applied.specs.Printed.{applied_line};
ghost use Rattle.clog_engine.specs.Report.{AreRowsOf, head_with, longest_receipt};
ghost use Rattle.clog_engine.specs.Refusal.{HasRoomFor};

use crate::printing::Report;
use crate::receipts::{LONGEST_RECEIPT, put_told};
use clog_base::{Cell, CellKey, OutOfMemory};
use clog_cells::CellMap;
use clog_text::CellPrinter;
use itoa::Buffer;
use std::alloc::{AllocError, Global};
use std::collections::BTreeMap;
use write_path::Receipt;

// Puts how many lines were applied. It is not refused where there is room for the longest line.
fn put_applied(out: &mut Vec<u8>, lines: u64) -> Result<(), AllocError>
    ensures items { OnOk result (out.new.items ≡ out.old.items ++ applied_line lines) }
    ensures len { OnOk result (vec_len out.new ≤ vec_len out.old + longest_receipt) }
    ensures room { vec_len out.old + longest_receipt ≤ vec_capacity out.old → IsOk result }
    ensures capacity { vec_capacity out.old ≤ vec_capacity out.new }
{
    let mut buffer = Buffer::new();
    out.extend_from_slice(b"applied ")?;
    out.extend_from_slice(buffer.format(lines).as_bytes())?;
    Ok(out.push(b'\n')?)
}

// Puts the line of each cell, in the order of their keys.
fn put_rows(
    alloc: Global,
    out: &mut Vec<u8>,
    rows: &BTreeMap<CellKey, Cell>,
) -> Result<(), OutOfMemory>
    ensures { OnOk result (out.new.items ≡ out.old.items ++ flat_map row_line rows.now.entries) }
{
    let mut printer = CellPrinter::new(alloc);
    for (key, cell) in rows {
        printer.put(out, key, cell)?;
    }
    Ok(())
}

/// Puts the line of each cell.
pub(crate) fn put_cells(
    alloc: Global,
    out: &mut Vec<u8>,
    cells: &CellMap,
) -> Result<(), OutOfMemory>
    ensures { OnOk result (out.new.items ≡ out.old.items ++ flat_map row_line cells.now) }
{
    put_rows(alloc, out, cells.entries())
}

/// A report whose head is to come: its rows, and room for the head.
#[derive(Drop)]
pub(crate) struct PendingReport {
    pub(crate) room: Vec<u8>,
    pub(crate) rows: Vec<u8>,
}

// The text of the rows that cells of before and others merge to, where a dump asks for them.
fn rows_text(
    alloc: Global,
    dump: bool,
    before: CellMap,
    cells: CellMap,
) -> Result<Vec<u8>, OutOfMemory>
    ensures { IfOk result (λ text. AreRowsOf dump before cells text.items) }
{
    let mut text = Vec::new(alloc);
    if !dump {
        return Ok(text);
    }
    let mut all = before;
    // A match, since the exit speaks of what was merged.
    match all.join(cells) {
        Ok(()) => {}
        Err(e) => return Err(e),
    }
    put_cells(alloc, &mut text, &all)?;
    Ok(text)
}

/// Takes the memory of a report of so many lines over the cells of before and of the lines: its
/// rows are there, and room for a head of the longest lines.
pub(crate) fn pending(
    alloc: Global,
    dump: bool,
    before: CellMap,
    cells: CellMap,
    lines: usize,
) -> Result<PendingReport, OutOfMemory>
    requires few { lines ≤ line_limit }
    ensures room { IfOk result (HasRoomFor lines) }
    ensures rows { IfOk result (λ p. AreRowsOf dump before cells p.rows.items) }
    ensures void { IfOk result (λ p. p.room.items ≡ []) }
{
    let rows = rows_text(alloc, dump, before, cells)?;
    let room = Vec::with_capacity(alloc, (lines + 1) * LONGEST_RECEIPT)?;
    Ok(PendingReport { room, rows })
}

// Puts what stands in front of a report, by the receipts of all lines, for which there is room.
fn put_head(out: &mut Vec<u8>, receipts: bool, told: &[Receipt]) -> Result<(), OutOfMemory>
    requires void { out.old.items ≡ [] }
    requires room { longest_receipt * (length told.now + 1) ≤ vec_capacity out.old }
    ensures ok { IsOk result }
    ensures items { OnOk result (out.new.items ≡ head_with receipts told.now) }
    ensures len { OnOk result (vec_len out.new ≤ longest_receipt * (length told.now + 1)) }
    ensures capacity { vec_capacity out.old ≤ vec_capacity out.new }
{
    put_applied(out, told.len() as u64)?;
    // Each way returns by itself, since nothing is known of the two joined.
    if receipts {
        put_told(out, told)?;
        return Ok(());
    }
    Ok(())
}

/// Puts the head, in the room that there is for it, in front of the rows. It takes no memory.
pub(crate) fn finished(pending: PendingReport, receipts: bool, told: &[Receipt]) -> Report
    requires void { pending.room.items ≡ [] }
    requires room { HasRoomFor (length told.now) pending }
    ensures { result ≡ head_with receipts told.now ++ pending.rows.items }
{
    let PendingReport { room, rows } = pending;
    let mut head = room;
    if put_head(&mut head, receipts, told).is_err() {
        unreachable!()
    }
    Report::with_rows(head, rows)
}
