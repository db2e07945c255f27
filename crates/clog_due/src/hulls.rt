//! The hulls of a table's entries by the ordinals of their segments. Kept: the ordinals ascend, so
//! a search by halves finds a segment's.
ghost use Rattle.std.specs.Prelude.{
  ◌≡◌,
  ◌≢◌,
  ◌↔◌,
  ◌<◌,
  ◌≤◌,
  [],
  ℕ,
  drop,
  length,
  nat_lt,
  take,
  IsTrue,
  OnOk,
};
ghost use Rattle.clog_due.specs.HullRows.{AreBelow, AreFrom, Ascend, BeginsAt, hull_at};

use clog_base::OutOfMemory;
use clog_intervals::Hull;
use std::alloc::Global;
use std::marker::Model;

/// A segment's ordinal, and the hull of positions in it.
#[derive(Clone, Copy)]
pub(crate) struct SegmentHull {
    ordinal: u64,
    hull: Hull,
}

impl SegmentHull {
    fn is_before(&self, ordinal: u64) -> bool
        ensures { result ≡ nat_lt self.now.ordinal ordinal }
    {
        self.ordinal < ordinal
    }
}

/// Hulls by ordinals. A segment that is not among them has the empty one.
#[derive(Drop)]
pub(crate) struct Hulls {
    rows: Vec<SegmentHull>,
}

impl Model for Hulls {
    ghost use Rattle.std.specs.Prelude.{List};
    ghost use Rattle.clog_due.specs.declared.hulls.SegmentHull.{SegmentHull};
    ghost use Rattle.clog_due.specs.HullRows.{Ascend};

    ghost Value = { List SegmentHull };

    ghost view = { λ h. h.rows.items };

    ghost invariant = { λ h. Ascend h.rows.items };
}

impl Hulls {
    /// No hull; takes no memory.
    pub(crate) fn new(alloc: Global) -> Hulls
        ensures { result ≡ [] }
    {
        Hulls {
            rows: Vec::new(alloc),
        }
    }

    /// The hull of a segment, in time logarithmic in the number of segments.
    pub(crate) fn at(&self, ordinal: u64) -> Hull
        ensures { result ≡ hull_at self.now ordinal }
    {
        hull_of(&self.rows, ordinal)
    }

    /// Puts a segment's hull, in place of the one that it had.
    pub(crate) fn put(&mut self, ordinal: u64, hull: Hull) -> Result<(), OutOfMemory>
        ensures here { OnOk result (hull_at self.new ordinal ≡ hull) }
        ensures others { OnOk result ((o : ℕ) → o ≢ ordinal
            → hull_at self.new o ≡ hull_at self.old o) }
    {
        put_row(&mut self.rows, SegmentHull { ordinal, hull })
    }
}

// How many of the segments stand before an ordinal.
fn count_before(rows: &[SegmentHull], ordinal: u64) -> usize
    requires { Ascend rows.now }
    ensures within { result ≤ length rows.now }
    ensures before { AreBelow ordinal (take result rows.now) }
    ensures others { AreFrom ordinal (drop result rows.now) }
{
    rows.partition_point(|row| row.is_before(ordinal))
}

// Whether the first of the rows from one on is a segment's.
fn is_at(rows: &[SegmentHull], first: usize, ordinal: u64) -> bool
    ensures found { IsTrue result ↔ BeginsAt ordinal (drop first rows.now) }
    ensures inside { IsTrue result → first < length rows.now }
{
    if first >= rows.len() {
        return false;
    }
    rows[first].ordinal == ordinal
}

fn hull_of(rows: &[SegmentHull], ordinal: u64) -> Hull
    requires { Ascend rows.now }
    ensures { result ≡ hull_at rows.now ordinal }
{
    let first = count_before(rows, ordinal);
    if is_at(rows, first, ordinal) {
        return rows[first].hull;
    }
    Hull::empty()
}

// Puts a row in place of that of its segment, or where its segment stands in their order.
fn put_row(rows: &mut Vec<SegmentHull>, row: SegmentHull) -> Result<(), OutOfMemory>
    requires { Ascend rows.old.items }
    ensures ascend { Ascend rows.new.items }
    ensures here { OnOk result (hull_at rows.new.items row.ordinal ≡ row.hull) }
    ensures others { OnOk result ((o : ℕ) → o ≢ row.ordinal
        → hull_at rows.new.items o ≡ hull_at rows.old.items o) }
{
    let first = count_before(rows, row.ordinal);
    if is_at(rows, first, row.ordinal) {
        rows[first] = row;
        return Ok(());
    }
    rows.insert(first, row)?;
    Ok(())
}
