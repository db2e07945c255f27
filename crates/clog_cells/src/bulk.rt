//! A map of many cells at once. Put in one by one, each cell would cost a descent of the tree to
//! look its key up, and one more to put it, each by ten to twenty comparisons of keys in a map of a
//! thousand cells. A sort compares less, and least where the pairs come in runs that are in order,
//! which it merges. Of sorted pairs the standard map is built from its leaves up: it takes them to
//! a list of its own and sorts that by key, which compares each pair with the next one.
ghost use Rattle.std.specs.Prelude.{◌≡◌, IfOk, OnOk};
ghost use Rattle.std.specs.List.Sorted.{IsPermutation, IsSorted};
ghost use Rattle.clog_cells.specs.Merge.{IsCellMap, IsMerge, pair_cmp};

use crate::cell_map::MAX_CELLS;
use crate::newest::compare;
use clog_base::{Cell, CellKey, OutOfMemory};
use std::alloc::Global;
use std::cmp::Ordering;
use std::collections::BTreeMap;

// By key, and of one key the oldest cell first.
fn order_of(a: &(CellKey, Cell), b: &(CellKey, Cell)) -> Ordering
    ensures { result ≡ pair_cmp a.now b.now }
{
    match a.0.cmp(&b.0) {
        Ordering::Equal => compare(&a.1, &b.1),
        apart => apart,
    }
}

fn sort_oldest_first(pairs: &mut Vec<(CellKey, Cell)>) -> Result<(), OutOfMemory>
    ensures same { IsPermutation pairs.old.items pairs.new.items }
    ensures sorted { OnOk result (IsSorted pair_cmp pairs.new.items) }
{
    pairs.sort_by(order_of)?;
    Ok(())
}

// The newest cell of each key among these pairs: the map keeps the last pair of each key, so within
// a key the oldest goes first.
pub(crate) fn map_of(
    alloc: Global,
    mut pairs: Vec<(CellKey, Cell)>,
) -> Result<BTreeMap<CellKey, Cell>, OutOfMemory>
    ensures merged { IfOk result (λ cells. IsMerge pairs.items cells.entries) }
    ensures map { IfOk result (λ cells. IsCellMap cells.entries) }
{
    sort_oldest_first(&mut pairs)?;
    let cells = BTreeMap::from_iter(alloc, pairs)?;
    if cells.len() > MAX_CELLS {
        return Err(OutOfMemory);
    }
    Ok(cells)
}
