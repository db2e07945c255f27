//! A switch, and a flush, of a table's memtable (`ColumnFamilyStore.Flush`), by a seat that is idle
//! before and behind it.
ghost use Rattle.std.specs.Prelude.{◌+◌, ◌≡◌, ◌^◌, ◌<◌, ◌≤◌, true};
ghost use Rattle.path_flush.specs.Flushed.{Flushes, barriers_by};
ghost use Rattle.path_flush.specs.Seats.{Stays};
ghost use Rattle.path_flush.specs.Switched.{Switches, most_barriers};
ghost use Rattle.path_rule.specs.Issued.{issued_in};
ghost use Rattle.path_table.specs.Members.{view_of, IsOf};

use crate::seats::WritePath;
use clog_base::Table;
use path_core::Keeper;
use path_flush::{Flush, Switch, flush_memtable, switch_memtable};
use path_table::PathSeat;
use std::alloc::{Allocator, Global};
use std::sync::Wait;

impl<K: Keeper, A: Allocator> WritePath<K, A> {
    /// Switches a table's memtable (`ColumnFamilyStore.Flush`, before it writes): what was live
    /// until then takes no write that begins later. What it answers, and what is so then, is told
    /// at `switch_memtable` of path_flush. It takes no memory. The seat has issued at most
    /// 1,099,511,627,776 barriers before, and issues one more at most: none by `Busy` and `Waits`.
    /// No clause says that it returns.
    pub fn switch<R: Wait>(
        &self,
        rt: &R,
        alloc: Global,
        seat: PathSeat<K>,
        table: Table,
    ) -> (PathSeat<K>, Switch)
        requires table { IsOf self.now.table.table.shared.table_id self.now.table.size seat.member }
        requires there { table.0 < self.now.table.size.tables }
        requires spends { issued_in (view_of seat.member).trail ≤ 2 ^ 40 }
        ensures same { Stays self.now.table.table.shared.table_id self.now.table.size seat.member
            result.0.member }
        ensures switches { Switches seat.member.number table.0 (view_of seat.member) result.1
            (view_of result.0.member) }
        ensures issued { issued_in (view_of result.0.member).trail
            ≤ most_barriers result.1 + issued_in (view_of seat.member).trail }
    {
        switch_memtable(&self.table, rt, alloc, seat, table)
    }

    /// Flushes a table's memtable (`ColumnFamilyStore.Flush`), over a path that is opened for table
    /// files: what was live until then takes no write that begins later, and goes to a table file,
    /// if something was written to it. What it answers, and what is so then, is told at
    /// `flush_memtable` of path_flush. The seat has issued at most 1,099,511,627,776 barriers
    /// before, and issues three more at most: none by `Busy`. No clause says that it returns.
    pub fn flush<R: Wait>(
        &self,
        rt: &R,
        alloc: Global,
        seat: PathSeat<K>,
        table: Table,
    ) -> (PathSeat<K>, Flush)
        requires table { IsOf self.now.table.table.shared.table_id self.now.table.size seat.member }
        requires there { table.0 < self.now.table.size.tables }
        requires files { self.now.table.size.files ≡ true }
        requires spends { issued_in (view_of seat.member).trail ≤ 2 ^ 40 }
        ensures same { Stays self.now.table.table.shared.table_id self.now.table.size seat.member
            result.0.member }
        ensures flushes { Flushes seat.member.number table.0 (view_of seat.member) result.1
            (view_of result.0.member) }
        ensures issued { issued_in (view_of result.0.member).trail
            ≤ barriers_by result.1 + issued_in (view_of seat.member).trail }
    {
        flush_memtable(&self.table, rt, alloc, seat, table)
    }
}
