//! A write commits: it is logged and placed, and in batch mode the log is synced before it is
//! answered (`CommitLog.add`, `BatchCommitLogService`). In periodic mode it waits for no sync and
//! takes no memory (`PeriodicCommitLogService`).
ghost use Rattle.std.specs.Prelude.{◌≡◌, ℕ, ◌+◌, ◌^◌, ◌≤◌, List};
ghost use Rattle.clog_base.specs.declared.sizes.Sizes.{Sizes};
ghost use Rattle.clog_base.specs.Positions.{position_of};
ghost use Rattle.clog_mutation.specs.declared.mutation.Mutation.{Mutation};
ghost use Rattle.path_rule.specs.declared.view.OwnStep.{OwnStep};
ghost use Rattle.path_rule.specs.Issued.{issued_in};
ghost use Rattle.path_table.specs.Members.{view_of, IsOf};
ghost use Rattle.write_path.specs.declared.prepared.Prepared.{Prepared as PreparedWrite};
ghost use Rattle.write_path.specs.Commits.{IsWritten};
ghost use Rattle.write_path.specs.Receipts.{Acknowledges, IsCommitted, IsLineOf};
ghost use Rattle.path_flush.specs.Seats.{Stays};
ghost use Rattle.write_path.specs.Writes.{IsPrepared};

use crate::commit::{Commit, Receipt, SyncFault};
use crate::prepared::Prepared;
use crate::seats::WritePath;
use crate::writing::Written;
use clog_base::{Key, Writer};
use clog_io::{Gate, Point};
use path_core::Keeper;
use path_rule::SyncAnswer;
use path_table::PathSeat;
use std::alloc::{Allocator, Global};
use std::sync::Wait;
use sync_core::SyncCore;

impl<K: Keeper, A: Allocator> WritePath<K, A> {
    // What a write of a line is known by that ends at a key.
    fn receipt(&self, line: u32, end: Key) -> Receipt
        ensures line { result.line ≡ line }
        ensures position { result.position ≡ position_of self.now.table.size.base end.0 }
    {
        Receipt {
            line,
            position: end.position(self.table.size().base),
        }
    }

    // Syncs the log behind a write, and answers the write.
    fn sync_write<R: Wait>(
        &self,
        rt: &R,
        alloc: Global,
        seat: PathSeat<K>,
        receipt: Receipt,
    ) -> (PathSeat<K>, Commit)
        requires table { IsOf self.now.table.table.shared.table_id self.now.table.size seat.member }
        requires spends { issued_in (view_of seat.member).trail ≤ 2 ^ 40 }
        ensures same { Stays self.now.table.table.shared.table_id self.now.table.size seat.member
            result.0.member }
        ensures acknowledges { Acknowledges seat.member.number self.now.table.size.at_open
            (view_of seat.member) receipt result.1 (view_of result.0.member) }
        ensures issued { issued_in (view_of result.0.member).trail
            ≤ 1 + issued_in (view_of seat.member).trail }
    {
        let (seat, answer) = self.sync(rt, alloc, seat);
        let fault = match answer {
            SyncAnswer::Done(_) => return (seat, Commit::Durable(receipt)),
            SyncAnswer::Stopped { at_open, now } => SyncFault::Stopped { at_open, now },
            SyncAnswer::OutOfMemory => SyncFault::OutOfMemory,
        };
        (seat, Commit::Unsynced(receipt, fault))
    }

    // Answers a write that was made, in the path's mode.
    fn acknowledge<R: Wait>(
        &self,
        rt: &R,
        alloc: Global,
        seat: PathSeat<K>,
        line: u32,
        written: Written,
    ) -> (PathSeat<K>, Commit)
        requires table { IsOf self.now.table.table.shared.table_id self.now.table.size seat.member }
        requires spends { issued_in (view_of seat.member).trail ≤ 2 ^ 40 }
        ensures same { Stays self.now.table.table.shared.table_id self.now.table.size seat.member
            result.0.member }
        ensures answer { (before : List OwnStep) (p : PreparedWrite) → IsLineOf p line
            → IsWritten self.now.table.size seat.member.number before p written
            (view_of seat.member)
            → IsCommitted self.now.mode self.now.table.size seat.member.number before p result.1
            (view_of result.0.member) }
        ensures issued { issued_in (view_of result.0.member).trail
            ≤ 1 + issued_in (view_of seat.member).trail }
    {
        let end = match written {
            Written::Logged { start: _, end } => end,
            Written::Spent(prepared, key) => return (seat, Commit::Spent(prepared, key)),
        };
        let receipt = self.receipt(line, end);
        match self.mode {
            SyncCore::Periodic { period_ms: _ } => (seat, Commit::Logged(receipt)),
            SyncCore::Batch => self.sync_write(rt, alloc, seat, receipt),
        }
    }

    /// Commits a write: it is logged and placed unless the log has no room for it, and in batch
    /// mode the log is synced then. `Durable` tells a synced key at or above its end that the seat
    /// found, or put, before it claimed anything further: so a marker stands between the write and
    /// the seat's next one. `Unsynced` tells what the seat found, or put, behind the write. The
    /// gate is told `Started` before the write registers, `Claimed`, `Deposited` and `Finished`
    /// once each is done, `Accepted` at each of its tables, and `Returned` at the end. The seat has
    /// issued at most 1,099,511,627,776 barriers before, and issues one more at most. No clause
    /// says that it returns.
    pub fn commit<R: Wait, G: Gate>(
        &self,
        rt: &R,
        alloc: Global,
        seat: PathSeat<K>,
        prepared: Prepared,
        gate: &G,
    ) -> (PathSeat<K>, Commit)
        requires table { IsOf self.now.table.table.shared.table_id self.now.table.size seat.member }
        requires prepared { (sizes : Sizes) × (line : ℕ) × (m : Mutation)
            × IsPrepared sizes line m prepared × (sizes.tables ≡ self.now.table.size.tables)
            × (sizes.capacity ≡ self.now.table.size.capacity) }
        requires spends { issued_in (view_of seat.member).trail ≤ 2 ^ 40 }
        ensures same { Stays self.now.table.table.shared.table_id self.now.table.size seat.member
            result.0.member }
        ensures committed { IsCommitted self.now.mode self.now.table.size seat.member.number
            (view_of seat.member).trail prepared result.1 (view_of result.0.member) }
        ensures issued { issued_in (view_of result.0.member).trail
            ≤ 1 + issued_in (view_of seat.member).trail }
    {
        let writer = Writer(seat.member.number());
        let line = prepared.line();
        let (seat, written) = self.write(rt, seat, prepared, gate);
        let (seat, commit) = self.acknowledge(rt, alloc, seat, line, written);
        gate.reached(writer, Point::Returned);
        (seat, commit)
    }
}
