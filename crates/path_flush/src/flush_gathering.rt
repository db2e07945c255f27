//! What was written to a memtable is gathered behind its barrier, from the boxes of all seats, and
//! merged into the cells of a table file. For that its table's Flush turn is enough.
ghost use Rattle.std.specs.Prelude.{◌≡◌, suc, ◌<◌, ◌||◌, [], Some, true, false, IfSome};
ghost use Rattle.clog_cells.specs.Batches.{WerePut};
ghost use Rattle.path_core.specs.declared.note.EntryNote.{EntryNote};
ghost use Rattle.path_rule.specs.declared.view.FlushRead.{FlushRead};
ghost use Rattle.path_rule.specs.Layout.{numbers_end};
ghost use Rattle.path_table.specs.Members.{view_of, hands_of, boxes_of, IsOf};
ghost use Rattle.path_flush.specs.FlushGathers.{AreSome, HasGathered, HasGatheredAll};
ghost use Rattle.path_flush.specs.FlushGathers.{HoldsGathered, IsMadeOf, told_some};
ghost use Rattle.path_flush.specs.FlushReads.{HasRead, ReadSteps};
ghost use Rattle.path_flush.specs.FlushTurns.{HasTable};
ghost use Rattle.path_flush.specs.Seats.{Stays};

use crate::flush_reading::box_number;
use clog_base::{OutOfMemory, Table};
use clog_cells::{CellBatches, CellMap};
use clog_memtable::gather;
use path_core::{EntryNote, Keeper};
use path_table::{Member, PathTable};
use std::alloc::{Allocator, Global};
use std::collections::LinkedList;

/// What the boxes of all seats had of a memtable.
#[derive(Drop)]
pub enum Gathered {
    /// Nothing.
    Nothing,
    /// Entries with these cells.
    Cells(CellMap),
    /// Memory was refused.
    OutOfMemory,
}

// Whether there are some.
fn are_some(notes: &LinkedList<EntryNote>) -> bool
    ensures { AreSome result notes.now }
{
    !notes.is_empty()
}

// Whether something was found so far: in this box, or before.
fn found_some(here: bool, before: bool) -> bool
    ensures { result ≡ (here || before) }
{
    here || before
}

// What is answered behind a box, by whether memory was refused.
fn told_some(done: Result<(), OutOfMemory>, some: bool) -> Option<bool>
    ensures { result ≡ told_some done some }
{
    match done {
        Ok(()) => Some(some),
        Err(_) => None,
    }
}

// The newest of these cells, unless memory is refused for their map.
fn merged(cells: CellBatches) -> Gathered
    ensures { IsMadeOf (Some true) cells result }
{
    match cells.into_map() {
        Ok(cells) => Gathered::Cells(cells),
        Err(_) => Gathered::OutOfMemory,
    }
}

// What was gathered, by whether something was found.
fn gathered_of(some: Option<bool>, cells: CellBatches) -> Gathered
    ensures { IsMadeOf some cells result }
{
    match some {
        Some(true) => merged(cells),
        Some(false) => Gathered::Nothing,
        None => Gathered::OutOfMemory,
    }
}

// Gathers what the box of the next seat has of the memtable, where something was found before,
// or nothing. It answers whether something was found so far, and `None` where memory was
// refused.
fn gather_box<K: Keeper, A: Allocator>(
    path: &PathTable<K, A>,
    alloc: Global,
    member: Member<K>,
    table: Table,
    memtable: u64,
    seat: u64,
    cells: &mut CellBatches,
    some: bool,
) -> (Member<K>, Option<bool>)
    requires table { IsOf path.now.table.shared.table_id path.now.size member }
    requires there { (table.0 < path.now.size.tables) × (memtable < numbers_end)
        × (seat < path.now.size.seats) }
    requires reads { HasRead table.0 memtable false seat (hands_of member) }
    requires gathered { HoldsGathered table cells.old some (hands_of member) }
    ensures same { Stays path.now.table.shared.table_id path.now.size member
        result.0 × (boxes_of result.0 ≡ boxes_of member) }
    ensures steps { ReadSteps member.number table.0 (view_of member) (view_of result.0) }
    ensures reads { HasRead table.0 memtable false (suc seat) (hands_of result.0) }
    ensures gathered { IfSome result.1 (λ some. HoldsGathered table cells.new
        some (hands_of result.0)) }
{
    let mut member = member;
    path.take_read(&mut member, table);
    let number = box_number(path.size().seats, seat, table, memtable);
    let (member, notes) = path.lend_read(alloc, member, number);
    let done = gather(alloc, cells, table, &notes);
    let some = found_some(are_some(&notes), some);
    let mut member = path.return_read(member, number, notes);
    path.give_read(&mut member, table);
    (member, told_some(done, some))
}

// Gathers what the boxes of all seats have of the memtable.
fn gather_boxes<K: Keeper, A: Allocator>(
    path: &PathTable<K, A>,
    alloc: Global,
    member: Member<K>,
    table: Table,
    memtable: u64,
    cells: &mut CellBatches,
) -> (Member<K>, Option<bool>)
    requires table { IsOf path.now.table.shared.table_id path.now.size member }
    requires there { (table.0 < path.now.size.tables) × (memtable < numbers_end) }
    requires reads { HasRead table.0 memtable false 0 (hands_of member) }
    requires void { ((q : FlushRead) → (hands_of member).reading ≡ Some q → q.seen ≡ [])
        × WerePut [] cells.old }
    ensures same { Stays path.now.table.shared.table_id path.now.size member
        result.0 × (boxes_of result.0 ≡ boxes_of member) }
    ensures steps { ReadSteps member.number table.0 (view_of member) (view_of result.0) }
    ensures all { HasGatheredAll path.now.size.seats table memtable cells.new
        result.1 (hands_of result.0) }
{
    let mut member = member;
    let mut some = false;
    for seat in 0..path.size().seats {
        let (next, more) = gather_box(path, alloc, member, table, memtable, seat, cells, some);
        member = next;
        match more {
            Some(more) => some = more,
            None => return (member, None),
        }
    }
    (member, Some(some))
}

// Gathers and merges what the boxes of all seats have of a memtable. The table's turn is the only
// one in hand: others sync meanwhile, and flush other tables.
pub(crate) fn gather_apart<K: Keeper, A: Allocator>(
    path: &PathTable<K, A>,
    alloc: Global,
    member: Member<K>,
    table: Table,
    memtable: u64,
) -> (Member<K>, Gathered)
    requires table { IsOf path.now.table.shared.table_id path.now.size member }
    requires there { (table.0 < path.now.size.tables) × (memtable < numbers_end) }
    requires holds { HasTable table.0 member.seat.me }
    requires reads { HasRead table.0 memtable false 0 (hands_of member) }
    requires void { (q : FlushRead) → (hands_of member).reading ≡ Some q → q.seen ≡ [] }
    ensures same { Stays path.now.table.shared.table_id path.now.size member
        result.0 }
    ensures holds { HasTable table.0 result.0.seat.me }
    ensures steps { ReadSteps member.number table.0 (view_of member) (view_of result.0) }
    ensures gathered { HasGathered path.now.size.seats table memtable result.1
        (hands_of result.0) }
{
    let mut cells = CellBatches::new(alloc);
    let (member, some) = gather_boxes(path, alloc, member, table, memtable, &mut cells);
    (member, gathered_of(some, cells))
}
