//! A write that has deposited its entry is placed and ends, by single tries that are never
//! refused. At each of its tables it tries the oldest live memtable, and after one that is final
//! below its end the next, until one takes it, and puts its updates there; then it leaves the write
//! order, and its seat is idle again.
ghost use Rattle.std.specs.Prelude.{◌≡◌, ◌≢◌, ℕ, suc, ◌<◌, List, IsTrue, Some, None};
ghost use Rattle.clog_base.specs.declared.cell.Table.{Table as TableOf};
ghost use Rattle.op_core.specs.declared.count.Order.TheVariants.{Write};
ghost use Rattle.path_core.specs.declared.event.Carried.TheVariants.{Applied};
ghost use Rattle.path_core.specs.declared.event.Cursor.TheVariants.{OldestLive};
ghost use Rattle.path_core.specs.declared.event.Event.TheVariants.{Look, Close};
ghost use Rattle.path_core.specs.declared.event.Place.TheVariants.{CursorWord};
ghost use Rattle.path_core.specs.Allowed.{IsItsPlaces};
ghost use Rattle.path_core.specs.Parts.{seat_table, touches};
ghost use Rattle.path_rule.specs.Layout.{numbers_end};
ghost use Rattle.path_table.specs.Members.{view_of, part_of, IsOf, Stepped};
ghost use Rattle.write_path.specs.Applies.{HoldsUpdates, IsAppliedBelow, IsUnappliedFrom};
ghost use Rattle.path_flush.specs.OwnWrites.{writes_of};
ghost use Rattle.write_path.specs.Ends.{EndsWrite, IsSameWrite, IsUntriedFrom, IsWriteStill};
ghost use Rattle.path_flush.specs.Seats.{Stays};

use crate::accepting::Accept;
use crate::copies::touches;
use crate::deposited::Deposited;
use crate::prepared::Prepared;
use crate::seats::WritePath;
use clog_base::{Table, Writer};
use clog_io::{Gate, Point};
use path_core::Keeper;
use path_table::PathSeat;
use std::alloc::Allocator;

impl<K: Keeper, A: Allocator> WritePath<K, A> {
    /// The number of the oldest live memtable of a table, which a write of the table tries first.
    pub fn oldest(&self, seat: &mut Deposited<K>, table: Table) -> u64
        requires table { IsOf self.now.table.table.shared.table_id self.now.table.size
            seat.old.member }
        requires there { table.0 < self.now.table.size.tables }
        ensures same { IsSameWrite self.now.table.table.shared.table_id self.now.table.size
            seat.old seat.new }
        ensures step { Stepped seat.old.member
            (Look seat.old.member.number (CursorWord (OldestLive table))) result seat.new.member }
        ensures below { result < numbers_end }
        ensures tries { IsTrue (touches seat.old.tables table.0)
            → (seat_table (part_of seat.old.member) table.0).trying ≡ None
            → (seat_table (part_of seat.new.member) table.0).trying ≡ Some result }
        ensures others { (t : ℕ) → t ≢ table.0 → seat_table (part_of seat.new.member) t
            ≡ seat_table (part_of seat.old.member) t }
    {
        self.table.look_oldest_live(&mut seat.member, table)
    }

    /// Leaves the write order with the write's places, one for each of its tables, where its
    /// updates have been put. The seat is idle again.
    pub fn finish(&self, seat: Deposited<K>) -> PathSeat<K>
        requires table { IsOf self.now.table.table.shared.table_id self.now.table.size seat.member }
        requires group { seat.writing < numbers_end }
        requires applied { IsAppliedBelow self.now.table.size.tables seat }
        ensures same { Stays self.now.table.table.shared.table_id self.now.table.size seat.member
            result.member }
        ensures step { (places : List (TableOf × ℕ)) × (n : ℕ)
            × IsItsPlaces (part_of seat.member) places × Stepped seat.member
            (Close seat.member.number Write seat.writing (Applied places)) n result.member }
        ensures list { writes_of (view_of result.member).trail
            ≡ writes_of (view_of seat.member).trail }
    {
        let Deposited {
            mut member,
            writing,
            start: _,
            end: _,
            tables: _,
        } = seat;
        let _found = self.table.leave_placed(&mut member, writing);
        PathSeat { member }
    }

    // At one table: one memtable after another is asked, from the one that the write tries, until
    // one takes it, which is told.
    fn place_from(&self, seat: Deposited<K>, table: Table, first: u64) -> (Deposited<K>, u64)
        requires table { IsOf self.now.table.table.shared.table_id self.now.table.size seat.member }
        requires there { table.0 < self.now.table.size.tables }
        requires tried { (first < numbers_end)
            × ((seat_table (part_of seat.member) table.0).trying ≡ Some first) }
        ensures same { IsSameWrite self.now.table.table.shared.table_id self.now.table.size
            seat result.0 }
        ensures placed { (seat_table (part_of result.0.member) table.0).place ≡ Some result.1 }
        ensures others { (t : ℕ) → t ≢ table.0 → seat_table (part_of result.0.member) t
            ≡ seat_table (part_of seat.member) t }
    {
        let mut seat = seat;
        for memtable in first..140_737_488_355_328 {
            match self.accept(&mut seat, table, memtable) {
                Accept::Yes => return (seat, memtable),
                Accept::Later(_) => {}
            }
        }
        unreachable!()
    }

    // At one table of the write: a memtable takes it, as the gate is told, and gets its updates.
    fn place_at<G: Gate>(
        &self,
        seat: Deposited<K>,
        prepared: &mut Prepared,
        table: u8,
        gate: &G,
    ) -> Deposited<K>
        requires table { IsOf self.now.table.table.shared.table_id self.now.table.size seat.member }
        requires there { (table < self.now.table.size.tables)
            × IsTrue (touches seat.tables table) }
        requires untried { IsUntriedFrom table seat }
        requires holds { HoldsUpdates seat prepared.old }
        requires unapplied { IsUnappliedFrom table seat }
        ensures same { IsWriteStill self.now.table.table.shared.table_id self.now.table.size
            seat result }
        ensures applied { IsAppliedBelow table seat → IsAppliedBelow (suc table) result }
        ensures untried { IsUntriedFrom (suc table) result }
        ensures holds { HoldsUpdates result prepared.new }
        ensures unapplied { IsUnappliedFrom (suc table) result }
    {
        let mut seat = seat;
        let first = self.oldest(&mut seat, Table(table));
        let (seat, memtable) = self.place_from(seat, Table(table), first);
        gate.reached(Writer(seat.member.number()), Point::Accepted);
        self.apply(seat, Table(table), memtable, prepared)
    }

    /// Places a write at each of its tables in ascending order, puts its updates there, and ends
    /// it: the seat is idle again, and its list has the write. The gate is told each time that a
    /// memtable has accepted it.
    pub fn end_write<G: Gate>(
        &self,
        seat: Deposited<K>,
        prepared: Prepared,
        gate: &G,
    ) -> PathSeat<K>
        requires table { IsOf self.now.table.table.shared.table_id self.now.table.size seat.member }
        requires group { seat.writing < numbers_end }
        requires untried { IsUntriedFrom 0 seat }
        requires holds { HoldsUpdates seat prepared }
        requires unapplied { IsUnappliedFrom 0 seat }
        ensures same { Stays self.now.table.table.shared.table_id self.now.table.size seat.member
            result.member }
        ensures ends { EndsWrite seat result.member }
    {
        let mut seat = seat;
        let mut prepared = prepared;
        for table in 0..self.table.size().tables as u8 {
            // A seat is moved on only where there is something to be done.
            if !touches(seat.tables, table) {
                continue;
            }
            seat = self.place_at(seat, &mut prepared, table, gate);
        }
        self.finish(seat)
    }
}
