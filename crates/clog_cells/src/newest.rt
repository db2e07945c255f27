//! Which of two cells is newer.
ghost use Rattle.std.specs.Prelude.{◌≡◌};
ghost use Rattle.clog_cells.specs.Merge.{cell_cmp, is_newer, kind_rank};

use clog_base::{Cell, Kind};
use std::cmp::Ordering;

pub(crate) fn kind_rank(kind: Kind) -> u8
    ensures { result ≡ kind_rank kind }
{
    match kind {
        Kind::Live => 0,
        Kind::Deletion => 1,
    }
}

// How two cells compare, the older one below: `newer` says by what.
pub(crate) fn compare(a: &Cell, b: &Cell) -> Ordering
    ensures { result ≡ cell_cmp a.now b.now }
{
    a.ts.cmp(&b.ts)
        .then(kind_rank(a.kind).cmp(&kind_rank(b.kind)))
        .then(a.value.cmp(&b.value))
}

/// Whether the first cell is strictly newer: its timestamp is greater; at one timestamp it is a
/// deletion and the other is not; of two alike its value has the greater bytes, unsigned, where a
/// proper prefix is smaller. (Cassandra's `Cells.reconcile`; the last part is this log's own.)
pub fn newer(a: &Cell, b: &Cell) -> bool
    ensures { result ≡ is_newer a.now b.now }
{
    compare(a, b) == Ordering::Greater
}
