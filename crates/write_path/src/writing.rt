//! A write from its start to its end, by calls that wait.
ghost use Rattle.std.specs.Prelude.{◌≡◌, ℕ, ◌+◌, ◌<◌};
ghost use Rattle.clog_base.specs.declared.sizes.Sizes.{Sizes};
ghost use Rattle.clog_mutation.specs.declared.mutation.Mutation.{Mutation};
ghost use Rattle.path_rule.specs.Layout.{numbers_end};
ghost use Rattle.path_table.specs.Members.{view_of, IsOf};
ghost use Rattle.write_path.specs.Commits.{HasNoRoom, IsLogged, IsWritten, IssuesNone};
ghost use Rattle.write_path.specs.Commits.{KeepsMemtables, WritesEndBelow};
ghost use Rattle.path_flush.specs.Seats.{Stays};
ghost use Rattle.write_path.specs.Writes.{IsPrepared, entry_size};

use crate::claimed::Claimed;
use crate::prepared::Prepared;
use crate::seats::{Appending, WritePath};
use clog_base::{Key, Writer};
use clog_io::{Gate, Point};
use path_core::Keeper;
use path_table::PathSeat;
use std::alloc::Allocator;
use std::sync::Wait;

/// What a write answers.
#[derive(Drop)]
pub enum Written {
    /// It is logged, in this range, and placed. The log need not be lasting up to there.
    Logged {
        /// Where its range begins.
        start: Key,
        /// Where it ends.
        end: Key,
    },
    /// It was not logged: at this key, which was found in this call, there is no room for it, and
    /// no further segment. The write comes back.
    Spent(Prepared, Key),
}

impl<K: Keeper, A: Allocator> WritePath<K, A> {
    // A claimed write is logged, placed and ended: the seat's list is the old one and this write.
    fn log_claimed<G: Gate>(&self, seat: Claimed<K>, prepared: Prepared, gate: &G) -> PathSeat<K>
        requires table { IsOf self.now.table.table.shared.table_id self.now.table.size seat.member }
        requires groups { (seat.group < numbers_end) × (seat.writing < numbers_end) }
        requires prepared { (sizes : Sizes) × (line : ℕ) × (m : Mutation)
            × IsPrepared sizes line m prepared × (seat.start.0 + entry_size m ≡ seat.end.0)
            × (sizes.tables ≡ self.now.table.size.tables) }
        requires behind { WritesEndBelow seat.start.0 (view_of seat.member).trail }
        ensures same { Stays self.now.table.table.shared.table_id self.now.table.size seat.member
            result.member }
        ensures logged { IsLogged (view_of seat.member).trail seat.member.number seat.start.0
            seat.end.0 prepared (view_of result.member).trail }
        ensures issued { IssuesNone seat.member result.member }
    {
        let writer = Writer(seat.member.number());
        let (deposited, rest) = self.deposit(seat, prepared);
        gate.reached(writer, Point::Deposited);
        let seat = self.end_write(deposited, rest, gate);
        gate.reached(writer, Point::Finished);
        seat
    }

    // Leaves both orders, before a claim.
    fn leave(&self, seat: Appending<K>) -> PathSeat<K>
        requires table { IsOf self.now.table.table.shared.table_id self.now.table.size seat.member }
        requires groups { (seat.group < numbers_end) × (seat.writing < numbers_end) }
        ensures same { KeepsMemtables self.now.table.table.shared.table_id self.now.table.size
            seat.member result.member }
        ensures room { (bytes since key : ℕ)
            → HasNoRoom self.now.table.size bytes since key (view_of seat.member)
            → HasNoRoom self.now.table.size bytes since key (view_of result.member) }
    {
        let begun = self.stop_append(seat);
        self.stop(begun)
    }

    /// Writes what was prepared, unless the log has no room for it. It takes no memory, and after
    /// its claim it is always placed. The gate is told how far it is, up to `Finished`. It issues
    /// no barrier. No clause says that it returns.
    pub fn write<R: Wait, G: Gate>(
        &self,
        rt: &R,
        seat: PathSeat<K>,
        prepared: Prepared,
        gate: &G,
    ) -> (PathSeat<K>, Written)
        requires table { IsOf self.now.table.table.shared.table_id self.now.table.size seat.member }
        requires prepared { (sizes : Sizes) × (line : ℕ) × (m : Mutation)
            × IsPrepared sizes line m prepared × (sizes.tables ≡ self.now.table.size.tables)
            × (sizes.capacity ≡ self.now.table.size.capacity) }
        ensures same { Stays self.now.table.table.shared.table_id self.now.table.size seat.member
            result.0.member }
        ensures written { IsWritten self.now.table.size seat.member.number
            (view_of seat.member).trail prepared result.1 (view_of result.0.member) }
        ensures issued { IssuesNone seat.member result.0.member }
    {
        let writer = Writer(seat.member.number());
        gate.reached(writer, Point::Started);
        let begun = self.start(rt, seat);
        let appending = self.append(rt, begun);
        match self.claim(rt, appending, prepared.size()) {
            Ok(claimed) => {
                gate.reached(writer, Point::Claimed);
                let start = claimed.start;
                let end = claimed.end;
                (
                    self.log_claimed(claimed, prepared, gate),
                    Written::Logged { start, end },
                )
            }
            Err((refused, key)) => (self.leave(refused), Written::Spent(prepared, key)),
        }
    }
}
