//! A table is opened, and its seats are handed out.
ghost use Rattle.std.specs.Prelude.{◌≡◌, ◌+◌, ◌<◌, ◌≤◌, ℕ, [], length, slice_index, IfOk, IfErr};
ghost use Rattle.path_rule.specs.Boxed.{AreFirst};
ghost use Rattle.path_rule.specs.Boxes.{all_boxes, first_progress};
ghost use Rattle.path_rule.specs.FirstBoxes.{AreEmpty, HasInFront};
ghost use Rattle.path_rule.specs.Lasts.{beside_of, shows_of, IsNew};
ghost use Rattle.path_rule.specs.Layout.{first_words};
ghost use Rattle.path_rule.specs.Rule.{opener, new_seat, IsFit};
ghost use Rattle.path_table.specs.Members.{view_of, boxes_of};

use crate::table::{Member, Opener, PathTable};
use crate::words::{FIRST_KEY, LOG, WORDS};
use atomic_table::{Refused, Table};
use clog_base::OutOfMemory;
use path_core::Keeper;
use path_rule::{Deal, Desk, PathKey, PathSize, Progress, Slot};
use std::alloc::{AllocError, Allocator, Global};
use std::collections::LinkedList;
use std::snapshot::Snapshot;

// The boxes of a new table, without the keeper's desk: each holds no note.
fn empty_boxes<K: Keeper + Drop>(alloc: Global, size: &PathSize) -> Result<Vec<Slot<K>>, AllocError>
    requires few { size.now.seats ≤ 64 }
    ensures { IfOk result (λ v. (length v.items ≡ all_boxes size.now.seats) × AreEmpty v.items) }
{
    let mut boxes = Vec::new(alloc);
    for _ in 0..1 + 66 * size.seats {
        boxes.push(Slot::Notes(LinkedList::new(alloc)))?;
    }
    Ok(boxes)
}

// The desk of a new table.
fn first_desk<K>(alloc: Global, keeper: K) -> Desk<K>
    ensures { (result.keeper ≡ keeper) × (result.lent.items ≡ []) × (result.gathered ≡ [])
        × (result.progress ≡ first_progress)
        × ((t : ℕ) → slice_index result.uppers t ≡ 0) }
{
    let progress = Progress {
        gathered: true,
        marker: None,
    };
    Desk {
        keeper,
        lent: Vec::new(alloc),
        gathered: LinkedList::new(alloc),
        progress,
        uppers: [0; 16],
    }
}

// The boxes of a new table: the keeper's desk, and for each seat two for the log and four for each
// of sixteen tables.
fn first_boxes<K: Keeper + Drop>(
    alloc: Global,
    keeper: K,
    size: &PathSize,
) -> Result<Vec<Slot<K>>, K>
    requires few { size.now.seats ≤ 64 }
    requires keeper { IsNew size.now (K.holds keeper) }
    ensures boxes { IfOk result (λ v. (length v.items ≡ all_boxes size.now.seats)
        × AreFirst (shows_of K.holds) (beside_of (K.holds keeper)) size.now v.items) }
    ensures front { IfOk result (λ v. HasInFront keeper v.items) }
    ensures back { IfErr result (λ k. k ≡ keeper) }
{
    let Ok(mut boxes) = empty_boxes(alloc, size) else {
        return Err(keeper);
    };
    boxes[0] = Slot::Turn(first_desk(alloc, keeper));
    Ok(boxes)
}

// The keeper on the desk of a table that was not made.
fn keeper_back<K: Keeper + Drop>(boxes: Vec<Slot<K>>) -> K
    requires { (keeper : K) × HasInFront keeper boxes.items }
    ensures { (keeper : K) → HasInFront keeper boxes.items → result ≡ keeper }
{
    let mut boxes = boxes;
    match boxes.swap_remove(0) {
        Slot::Turn(desk) => {
            let Desk {
                keeper,
                lent: _,
                gathered: _,
                progress: _,
                uppers: _,
            } = desk;
            keeper
        }
        Slot::Notes(_) => unreachable!(),
    }
}

// The words of a new table: the log is at its first key.
fn first_words(alloc: Global) -> Result<Vec<u64>, AllocError>
    ensures { IfOk result (λ v. v.items ≡ first_words) }
{
    let mut words = Vec::from_elem(alloc, 0u64, WORDS)?;
    words[LOG] = FIRST_KEY;
    Ok(words)
}

/// Opens a table for a machine of these sizes, over a keeper that was just opened for them. It
/// answers the table and the seat that hands out the others. It takes 704 words. Where memory
/// is refused the keeper comes back.
pub fn open<K: Keeper + Drop>(
    alloc: Global,
    keeper: K,
    size: PathSize,
) -> Result<(PathTable<K, Global>, Opener<K>), (K, OutOfMemory)>
    requires fit { IsFit size }
    requires keeper { IsNew size (K.holds keeper) }
    ensures first { IfOk result (λ r. r.0.table.shared.key.first.value ≡ keeper) }
    ensures opened { IfOk result (λ r. (r.0.size ≡ size)
        × (r.1.seat.table_id ≡ r.0.table.shared.table_id) × (r.1.made ≡ 0)
        × (r.1.seat.me.0 ≡ opener 0 size)) }
    ensures back { IfErr result (λ r. r.0 ≡ keeper) }
{
    let Ok(words) = first_words(alloc) else {
        return Err((keeper, OutOfMemory));
    };
    let key = PathKey {
        size,
        first: Snapshot::of(&keeper),
    };
    let boxes = match first_boxes(alloc, keeper, &size) {
        Ok(boxes) => boxes,
        Err(keeper) => return Err((keeper, OutOfMemory)),
    };
    match Table::new(alloc, words.as_slice(), boxes, &key) {
        Ok((table, seat)) => Ok((PathTable { table, size }, Opener { seat, made: 0 })),
        Err(Refused { slots }) => Err((keeper_back(slots), OutOfMemory)),
    }
}

impl<K: Keeper, A: Allocator> PathTable<K, A> {
    /// Hands out the next seat, which has made no step.
    pub fn seat(&self, opener: &mut Opener<K>) -> Member<K>
        requires table { (opener.old.seat.table_id ≡ self.now.table.shared.table_id)
            × (opener.old.seat.me.0.size ≡ self.now.size) }
        requires left { opener.old.made < self.now.size.seats }
        ensures opener { (opener.new.seat.table_id ≡ opener.old.seat.table_id)
            × (opener.new.made ≡ opener.old.made + 1)
            × (opener.new.seat.me.0.size ≡ opener.old.seat.me.0.size) }
        ensures seat { (result.seat.table_id ≡ opener.old.seat.table_id)
            × (result.number ≡ opener.old.made)
            × (view_of result ≡ new_seat opener.old.made self.now.size)
            × (boxes_of result ≡ []) }
    {
        let seat = self.table.shared.split_seat::<Deal>(&mut opener.seat);
        let number = opener.made;
        opener.made += 1;
        Member {
            seat,
            number,
            issued: 0,
            last_end: 0,
        }
    }
}
