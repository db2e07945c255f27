//! What a drill prints: the numbers of its lines, and of what the folder restores to behind them.
ghost use Rattle.std.specs.Prelude.{
  ◌≡◌,
  ◌+◌,
  ◌+ℤ◌,
  ◌∷◌,
  ◌++◌,
  List,
  length,
  cond,
  IfOk,
  OnOk,
};
ghost use Rattle.std.specs.Fmt.{signed_decimal};
ghost use Rattle.clog_mutation.specs.declared.mutation.Mutation.{Mutation as Line};
ghost use Rattle.clog_applied.specs.Printed.{line};
ghost use Rattle.clog_engine.specs.Drill.{
  IsTallyOf,
  drill_report,
  is_deletion_kind,
  is_live_kind,
  updates_of,
};

use crate::printing::Report;
use crate::replaying::put_count;
use clog_base::{Cell, CellKey, Kind, OutOfMemory};
use clog_cells::CellMap;
use clog_mutation::Mutation;
use itoa::Buffer;
use std::alloc::{AllocError, Global};
use std::collections::BTreeMap;

/// How many cells are live and how many are deletions, and the sum of their timestamps.
#[derive(Clone, Copy)]
pub(crate) struct Tally {
    pub(crate) live: u64,
    pub(crate) deletions: u64,
    pub(crate) timestamps: i128,
}

fn live_cells(kind: Kind) -> u64
    ensures { result ≡ cond (is_live_kind kind) 1 0 }
{
    match kind {
        Kind::Live => 1,
        Kind::Deletion => 0,
    }
}

fn deleted_cells(kind: Kind) -> u64
    ensures { result ≡ cond (is_deletion_kind kind) 1 0 }
{
    match kind {
        Kind::Live => 0,
        Kind::Deletion => 1,
    }
}

fn plus(count: u64, more: u64) -> Result<u64, OutOfMemory>
    ensures { IfOk result (λ sum. sum ≡ count + more) }
{
    match count.checked_add(more) {
        Some(sum) => Ok(sum),
        None => Err(OutOfMemory),
    }
}

// The tally with one cell more.
fn tally_with(tally: Tally, cell: &Cell) -> Result<Tally, OutOfMemory>
    ensures live { IfOk result (λ t. t.live ≡ tally.live + cond (is_live_kind cell.now.kind) 1 0) }
    ensures deletions { IfOk result (λ t.
        t.deletions ≡ tally.deletions + cond (is_deletion_kind cell.now.kind) 1 0) }
    ensures timestamps { IfOk result (λ t. t.timestamps ≡ tally.timestamps +ℤ cell.now.ts) }
{
    let Some(timestamps) = tally.timestamps.checked_add(i128::from(cell.ts)) else {
        return Err(OutOfMemory);
    };
    let live = plus(tally.live, live_cells(cell.kind))?;
    let deletions = plus(tally.deletions, deleted_cells(cell.kind))?;
    Ok(Tally {
        live,
        deletions,
        timestamps,
    })
}

fn tally_of(rows: &BTreeMap<CellKey, Cell>) -> Result<Tally, OutOfMemory>
    ensures { IfOk result (IsTallyOf rows.now.entries) }
{
    let mut tally = Tally {
        live: 0,
        deletions: 0,
        timestamps: 0,
    };
    for (_key, cell) in rows {
        tally = tally_with(tally, cell)?;
    }
    Ok(tally)
}

/// How many updates lines have.
pub(crate) fn count_updates(lines: &[Mutation]) -> Result<u64, OutOfMemory>
    ensures { IfOk result (λ count. count ≡ updates_of lines.now) }
{
    let mut count: u64 = 0;
    for line in lines {
        count = plus(count, line.updates.as_slice().len() as u64)?;
    }
    Ok(count)
}

// Puts what is summed, and the sum.
fn put_sum(out: &mut Vec<u8>, what: &str, sum: i128) -> Result<(), AllocError>
    ensures { OnOk result
        (out.new.items ≡ out.old.items ++ line (what.now ++ 32 ∷ signed_decimal sum)) }
{
    let mut buffer = Buffer::new();
    out.extend_from_slice(what.as_bytes())?;
    out.push(b' ')?;
    out.extend_from_slice(buffer.format(sum).as_bytes())?;
    Ok(out.push(b'\n')?)
}

/// The numbers of so many lines with so many updates, and of the cells that the folder restores
/// to, one a line.
pub(crate) fn summary_of(
    alloc: Global,
    lines: u32,
    updates: u64,
    cells: &CellMap,
) -> Result<Report, OutOfMemory>
    ensures { IfOk result (λ text. (mutations : List Line) → lines ≡ length mutations
        → updates ≡ updates_of mutations → text ≡ drill_report mutations cells.now) }
{
    let tally = tally_of(cells.entries())?;
    let mut out = Vec::new(alloc);
    put_count(&mut out, "lines", u64::from(lines))?;
    put_count(&mut out, "updates", updates)?;
    put_count(&mut out, "cells", cells.len() as u64)?;
    put_count(&mut out, "live", tally.live)?;
    put_count(&mut out, "deletions", tally.deletions)?;
    put_sum(&mut out, "timestamps", tally.timestamps)?;
    Ok(Report::whole(alloc, out))
}
