//! A path is closed: its seats are joined into one, which closes the table.
ghost use Rattle.std.specs.Prelude.{◌≡◌, ◌++◌, reverse};
ghost use Rattle.std.specs.List.{range_with_len};
ghost use Rattle.std.specs.List.Sorted.{IsPermutation};
ghost use Rattle.path_rule.specs.Lasts.{beside_of};
ghost use Rattle.path_table.specs.ClosedBounds.{TellsBounds};
ghost use Rattle.path_table.specs.Members.{view_of, part_of, boxes_of, IsOf};
ghost use Rattle.write_path.specs.Closed.{
  AreAll,
  AreOf,
  StaysBeside,
  returned_by,
  IsOutcome,
};
ghost use Rattle.write_path.specs.OneRun.{EndsBy};
ghost use Rattle.write_path.specs.Opened.{numbers_of};

use crate::seats::WritePath;
use clog_base::Key;
use path_core::Keeper;
use path_table::{Member, PathSeat, PathTable, TableBounds};
use std::alloc::{Allocator, Global};
use std::thread::Threads;

/// What a path tells when it is closed, beside its keeper.
#[derive(Clone, Copy, Debug, PartialEq, Eq)]
pub struct Outcome {
    /// Where the log ends.
    pub end: Key,
    /// Of each table up to which key its memtables were switched: the final bound of the memtable
    /// below the newest one, key 0 where there is none.
    pub bounds: TableBounds,
}

// A seat takes in others, the last one first.
fn join_all<K: Keeper, A: Allocator>(
    table: &PathTable<K, A>,
    first: Member<K>,
    seats: Vec<PathSeat<K>>,
) -> Member<K>
    requires table { IsOf table.now.table.shared.table_id table.now.size first }
    requires seats { AreOf table.now.table.shared.table_id table.now.size seats.items }
    ensures same { (result.seat.table_id ≡ first.seat.table_id)
        × (result.number ≡ first.number) × ((view_of result).trail ≡ (view_of first).trail)
        × (part_of result ≡ part_of first) × (boxes_of result ≡ boxes_of first) }
    ensures returned { (view_of result).returned
        ≡ (view_of first).returned ++ returned_by (reverse seats.items) }
{
    let mut first = first;
    let mut seats = seats;
    while let Some(PathSeat { member }) = seats.pop() {
        table.merge(&mut first, member);
    }
    first
}

// Joins all seats into one, and closes the table by it.
fn close_by_all<R: Threads, K: Keeper + Drop>(
    rt: &R,
    alloc: Global,
    table: PathTable<K, Global>,
    seats: Vec<PathSeat<K>>,
) -> (K, u64, TableBounds)
    requires seats { AreOf table.table.shared.table_id table.size seats.items }
    requires all { IsPermutation (range_with_len 0 table.size.seats) (numbers_of seats.items) }
    ensures { (ends : EndsBy (beside_of (K.holds table.table.shared.key.first.value)) table.size
        seats.items result.1 (K.holds result.0)) × TellsBounds ends.ended.core result.2 }
{
    let mut seats = seats;
    match seats.pop() {
        Some(PathSeat { member }) => {
            let member = join_all(&table, member, seats);
            table.finish(rt, alloc, member)
        }
        None => unreachable!(),
    }
}

impl<K: Keeper + Drop> WritePath<K, Global> {
    /// Closes the path with all of its seats, or with none where they were not handed out. It gives
    /// the keeper back, and where the log ends: what the seats wrote, together, is a lawful
    /// history, and the keeper has its part up to the synced key; each write stands in exactly one
    /// memtable of each of its tables, the one whose interval of the log holds its position; the
    /// bounds are those of the run's last state. It goes back to the disk of the keeper over which
    /// the path was opened. A marker stands between each write that is sealed in its seat's trail
    /// and each later one of that seat. Of a path that was opened by `open_filing` each table file
    /// is true of that history and stands for an entry of it, what a seat knows to be flushed lies
    /// in files, a memtable that a seat retired with a table file has that file, one that it
    /// retired without holds nothing, and each segment that was dropped, or has its archive name,
    /// may go; of one that was opened by `open` there is no file, and no segment has gone. What
    /// commits and syncs have answered is so of the trails at the end too (`what_close_keeps`).
    ///
    /// What the memtables hold goes, in a thread for which nobody waits where it is much and one
    /// can be started. It needs no memory.
    pub fn close<R: Threads>(self, rt: &R, alloc: Global, seats: Vec<PathSeat<K>>) -> (K, Outcome)
        requires seats { AreOf self.table.table.shared.table_id self.table.size seats.items }
        requires all { AreAll self.opener self.table.size.seats (numbers_of seats.items) }
        ensures outcome { (o : IsOutcome self.table.size seats.items result.1.end.0
            (K.holds result.0)) × TellsBounds o.core result.1.bounds }
        ensures beside { StaysBeside self.table.size
            (K.holds self.table.table.shared.key.first.value) (K.holds result.0) }
    {
        let WritePath {
            table,
            opener,
            mode: _,
        } = self;
        let (keeper, end, bounds) = match opener {
            Some(opener) => table.finish_unused(alloc, opener.take()),
            None => close_by_all(rt, alloc, table, seats),
        };
        let end = Key(end);
        (keeper, Outcome { end, bounds })
    }
}
