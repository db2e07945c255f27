//! What was written to a memtable is read behind its barrier, in the boxes of all seats. Before
//! that the boxes of the memtable below are emptied, which is retired.
ghost use Rattle.std.specs.Prelude.{◌≡◌, ℕ, suc, ◌≤◌, ◌<◌, true, false, [], None, Some};
ghost use Rattle.path_rule.specs.declared.view.FlushRead.{FlushRead};
ghost use Rattle.path_rule.specs.Boxes.{memtable_box};
ghost use Rattle.path_rule.specs.Flushes.{HasEmptied, SeesNone};
ghost use Rattle.path_rule.specs.Layout.{numbers_end};
ghost use Rattle.path_rule.specs.Switches.{FlushOldest, MayBeginRead};
ghost use Rattle.path_table.specs.Members.{view_of, part_of, hands_of, boxes_of, IsOf};
ghost use Rattle.path_flush.specs.FlushReads.{HasRead, ReadSteps};
ghost use Rattle.path_flush.specs.Seats.{Stays};

use clog_base::Table;
use path_core::Keeper;
use path_table::{Member, PathTable};
use std::alloc::{Allocator, Global};

// Which box a seat has for a table and the place of a memtable.
pub(crate) fn box_number(seats: u64, seat: u64, table: Table, memtable: u64) -> usize
    requires { (seats ≤ 64) × (seat < seats) × (table.0 < 16) }
    ensures { result ≡ memtable_box seats seat table.0 memtable }
{
    (1 + 2 * seats + 64 * seat + 4 * u64::from(table.0) + memtable % 4) as usize
}

// Empties the box of the next seat: the memtable is retired, and nobody reads what lies there.
fn empty_box<K: Keeper, A: Allocator>(
    path: &PathTable<K, A>,
    alloc: Global,
    member: Member<K>,
    table: Table,
    memtable: u64,
    seat: u64,
) -> Member<K>
    requires table { IsOf path.now.table.shared.table_id path.now.size member }
    requires there { (table.0 < path.now.size.tables) × (seat < path.now.size.seats) }
    requires reads { HasRead table.0 memtable true seat (hands_of member) }
    ensures same { Stays path.now.table.shared.table_id path.now.size member
        result × (boxes_of result ≡ boxes_of member) }
    ensures steps { ReadSteps member.number table.0 (view_of member) (view_of result) }
    ensures reads { HasRead table.0 memtable true (suc seat) (hands_of result) }
{
    let mut member = member;
    path.take_read(&mut member, table);
    let number = box_number(path.size().seats, seat, table, memtable);
    let (mut member, _gone) = path.lend_read(alloc, member, number);
    path.give_read(&mut member, table);
    member
}

// Empties the boxes of all seats.
fn empty_boxes<K: Keeper, A: Allocator>(
    path: &PathTable<K, A>,
    alloc: Global,
    member: Member<K>,
    table: Table,
    memtable: u64,
) -> Member<K>
    requires table { IsOf path.now.table.shared.table_id path.now.size member }
    requires there { table.0 < path.now.size.tables }
    requires reads { HasRead table.0 memtable true 0 (hands_of member) }
    ensures same { Stays path.now.table.shared.table_id path.now.size member
        result × (boxes_of result ≡ boxes_of member) }
    ensures steps { ReadSteps member.number table.0 (view_of member) (view_of result) }
    ensures reads { HasRead table.0 memtable true path.now.size.seats (hands_of result) }
{
    let mut member = member;
    for seat in 0..path.size().seats {
        member = empty_box(path, alloc, member, table, memtable, seat);
    }
    member
}

// Empties the boxes of the memtable below, where there is one, which is retired.
fn empty_below<K: Keeper, A: Allocator>(
    path: &PathTable<K, A>,
    alloc: Global,
    member: Member<K>,
    table: Table,
    memtable: u64,
) -> Member<K>
    requires table { IsOf path.now.table.shared.table_id path.now.size member }
    requires there { table.0 < path.now.size.tables }
    requires stage { MayBeginRead table.0 (view_of member) memtable }
    requires oldest { FlushOldest table.0 (part_of member) memtable }
    requires unread { (hands_of member).reading ≡ None }
    ensures same { Stays path.now.table.shared.table_id path.now.size member
        result × (boxes_of result ≡ boxes_of member) }
    ensures steps { ReadSteps member.number table.0 (view_of member) (view_of result) }
    ensures emptied { HasEmptied path.now.size.seats (view_of result) table.0 memtable }
{
    if memtable == 0 {
        return member;
    }
    let mut member = member;
    path.begin_emptying(&mut member, table, memtable - 1);
    empty_boxes(path, alloc, member, table, memtable - 1)
}

// Begins to read the memtable behind its passed barrier, once the boxes of the one below are empty.
// It takes no memory.
pub(crate) fn start_read<K: Keeper, A: Allocator>(
    path: &PathTable<K, A>,
    alloc: Global,
    member: Member<K>,
    table: Table,
    memtable: u64,
) -> Member<K>
    requires table { IsOf path.now.table.shared.table_id path.now.size member }
    requires there { table.0 < path.now.size.tables }
    requires stage { MayBeginRead table.0 (view_of member) memtable }
    requires oldest { FlushOldest table.0 (part_of member) memtable }
    requires unread { (hands_of member).reading ≡ None }
    ensures same { Stays path.now.table.shared.table_id path.now.size member
        result × (boxes_of result ≡ boxes_of member) }
    ensures steps { ReadSteps member.number table.0 (view_of member) (view_of result) }
    ensures reads { HasRead table.0 memtable false 0 (hands_of result) }
    ensures void { (q : FlushRead) → (hands_of result).reading ≡ Some q → q.seen ≡ [] }
{
    let mut member = empty_below(path, alloc, member, table, memtable);
    path.begin_read(&mut member, table, memtable);
    member
}

// Reads the box of the next seat. It answers whether nothing lies there. It takes no memory.
fn read_box<K: Keeper, A: Allocator>(
    path: &PathTable<K, A>,
    alloc: Global,
    member: Member<K>,
    table: Table,
    memtable: u64,
    seat: u64,
) -> (Member<K>, bool)
    requires table { IsOf path.now.table.shared.table_id path.now.size member }
    requires there { (table.0 < path.now.size.tables) × (memtable < numbers_end)
        × (seat < path.now.size.seats) }
    requires reads { HasRead table.0 memtable false seat (hands_of member) }
    ensures same { Stays path.now.table.shared.table_id path.now.size member
        result.0 × (boxes_of result.0 ≡ boxes_of member) }
    ensures steps { ReadSteps member.number table.0 (view_of member) (view_of result.0) }
    ensures reads { HasRead table.0 memtable false (suc seat) (hands_of result.0) }
    ensures void { (p q : FlushRead) → (hands_of member).reading ≡ Some p
        → (hands_of result.0).reading ≡ Some q → result.1 ≡ true → q.seen ≡ p.seen }
{
    let mut member = member;
    path.take_read(&mut member, table);
    let number = box_number(path.size().seats, seat, table, memtable);
    let (member, notes) = path.lend_read(alloc, member, number);
    let empty = notes.is_empty();
    let mut member = path.return_read(member, number, notes);
    path.give_read(&mut member, table);
    (member, empty)
}

// Reads the boxes of all seats, until something is seen in one. It answers whether nothing was
// seen in any. It takes no memory.
pub(crate) fn read_boxes<K: Keeper, A: Allocator>(
    path: &PathTable<K, A>,
    alloc: Global,
    member: Member<K>,
    table: Table,
    memtable: u64,
) -> (Member<K>, bool)
    requires table { IsOf path.now.table.shared.table_id path.now.size member }
    requires there { (table.0 < path.now.size.tables) × (memtable < numbers_end) }
    requires reads { HasRead table.0 memtable false 0 (hands_of member) }
    requires void { (q : FlushRead) → (hands_of member).reading ≡ Some q → q.seen ≡ [] }
    ensures same { Stays path.now.table.shared.table_id path.now.size member
        result.0 × (boxes_of result.0 ≡ boxes_of member) }
    ensures steps { ReadSteps member.number table.0 (view_of member) (view_of result.0) }
    ensures reads { (count : ℕ) × HasRead table.0 memtable false count (hands_of result.0) }
    ensures all { result.1 ≡ true → SeesNone path.now.size.seats (hands_of result.0)
        table.0 memtable }
{
    let mut member = member;
    for seat in 0..path.size().seats {
        let (next, empty) = read_box(path, alloc, member, table, memtable, seat);
        member = next;
        if !empty {
            return (member, false);
        }
    }
    (member, true)
}
