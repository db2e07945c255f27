//! What a run of writers left is counted: each line once, by the receipt of its commit, each
//! writer's in order, and no range within another.
use crate::plan::{Plan, writer_of};
use crate::recorder::Row;
use anyhow::{Result, bail};
use clog_base::{Key, Position};
use write_path::Receipt;

// Each line from 1 on stands there once.
fn check_lines(rows: &mut Vec<Row>, count: u32) -> Result<()> {
    rows.sort_unstable_by_key(|row| row.line);
    let mut next = 0u32;
    for row in rows.as_slice() {
        next = next.saturating_add(1);
        if row.line != next {
            bail!("line {} where {} is due", row.line, next);
        }
    }
    if next != count {
        bail!("{next} lines of {count}");
    }
    Ok(())
}

// The position of a key.
fn position_of(key: Key, base: u32) -> Position {
    key.position(u64::from(base))
}

// Each row's line has a receipt, and its position is the end of the row's range. The rows are in
// the order of their lines, and there are so many receipts. The first segment has the id `base`.
fn check_receipts(rows: &[Row], receipts: &mut Vec<Receipt>, base: u32) -> Result<()> {
    if receipts.len() != rows.len() {
        bail!("{} receipts of {} rows", receipts.len(), rows.len());
    }
    receipts.sort_unstable_by_key(|receipt| receipt.line);
    for (row, receipt) in rows.iter().zip(receipts.as_slice()) {
        if receipt.line != row.line || receipt.position != position_of(row.end, base) {
            bail!("line {} has not its receipt", row.line);
        }
    }
    Ok(())
}

// In the order of the log no range begins before the one before it has ended.
fn check_ranges(rows: &mut Vec<Row>) -> Result<()> {
    rows.sort_unstable_by_key(|row| row.start.0);
    let mut end = 0;
    for row in rows.as_slice() {
        if row.start.0 < end || row.end <= row.start {
            bail!("line {} overlaps", row.line);
        }
        end = row.end.0;
    }
    Ok(())
}

// The lines of a writer, in the order of the log, are its own, and rise. In batch mode each was
// made lasting by a sync of its own.
fn check_writer(rows: &[Row], writer: u8, writers: u8, is_batch: bool) -> Result<()> {
    let mut last = 0;
    let mut sync = 0;
    for row in rows.iter().filter(|row| row.writer == writer) {
        if is_batch && row.sync <= sync {
            bail!("line {} of writer {writer} shares a sync", row.line);
        }
        sync = row.sync;
        if row.line <= last || writer_of(row.line, writers) != u32::from(writer) {
            bail!("line {} of writer {writer} behind {last}", row.line);
        }
        last = row.line;
    }
    Ok(())
}

/// Checks what was made lasting by so many writers by a plan, and by which receipts; in batch mode
/// no two entries of a writer by one sync. The first segment has the id `base`.
pub fn check(
    rows: &mut Vec<Row>,
    receipts: &mut Vec<Receipt>,
    base: u32,
    writers: u8,
    plan: Plan,
) -> Result<()> {
    check_lines(rows, u32::from(writers).wrapping_mul(plan.lines))?;
    check_receipts(rows.as_slice(), receipts, base)?;
    check_ranges(rows)?;
    for writer in 0..writers {
        check_writer(rows.as_slice(), writer, writers, plan.is_batch())?;
    }
    Ok(())
}
