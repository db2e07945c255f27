//! A sync of the log by an idle seat (`CommitLog.sync`). It waits until the log is lasting up to
//! where the seat's own last write ends: by another seat's sync, which serves all that wait
//! (`CommitLogSegment.waitForSync`), or by a round of its own, where the Sync turn is free. A round
//! claims a marker where an entry stands behind the last one, waits for the marker's barrier,
//! gathers all boxes behind it, and has the keeper make lasting what is pending; then the seat is
//! idle again. Where the keeper refused the last sync for memory and no entry came since, the same
//! marker serves.
ghost use Rattle.std.specs.Prelude.{◌+◌, ◌^◌, ◌≤◌};
ghost use Rattle.path_core.specs.declared.event.Event.TheVariants.{Look};
ghost use Rattle.path_core.specs.declared.event.Place.TheVariants.{TurnWord};
ghost use Rattle.path_core.specs.declared.event.Turn.TheVariants.{Sync};
ghost use Rattle.path_rule.specs.Issued.{issued_in};
ghost use Rattle.path_rule.specs.SyncAnswers.{MayAnswer};
ghost use Rattle.path_table.specs.Members.{view_of, IsOf, Stepped};
ghost use Rattle.write_path.specs.Syncs.{Syncs};
ghost use Rattle.path_flush.specs.Seats.{Stays};

use crate::seats::WritePath;
use crossbeam_utils::Backoff;
use path_core::Keeper;
use path_rounds::{sleep_a_little, sync_round, wait_for_turn};
use path_rule::SyncAnswer;
use path_table::PathSeat;
use std::alloc::{Allocator, Global};
use std::sync::Wait;

// Where a round told nothing, the last marker waits for its barrier: the turn is left to its seat.
fn leave_unless<R: Wait>(rt: &R, answered: bool) {
    if !answered {
        sleep_a_little(rt);
    }
}

impl<K: Keeper, A: Allocator> WritePath<K, A> {
    // One round of a sync, where the Sync turn is free; the turn is given back. `None` where
    // another seat has the turn, or left the last marker without a barrier.
    fn sync_free<R: Wait>(
        &self,
        rt: &R,
        alloc: Global,
        seat: PathSeat<K>,
    ) -> (PathSeat<K>, Option<SyncAnswer>)
        requires table { IsOf self.now.table.table.shared.table_id self.now.table.size seat.member }
        requires spends { issued_in (view_of seat.member).trail ≤ 2 ^ 40 }
        ensures same { Stays self.now.table.table.shared.table_id self.now.table.size seat.member
            result.0.member }
        ensures answer { MayAnswer seat.member.number 1 self.now.table.size.at_open
            (view_of seat.member) result.1 (view_of result.0.member) }
    {
        let PathSeat { mut member } = seat;
        if self.table.take_sync(&mut member) != 0 {
            return (PathSeat { member }, None);
        }
        let (mut member, answer) = sync_round(&self.table, rt, alloc, member);
        self.table.give_sync(&mut member);
        leave_unless(rt, answer.is_some());
        (PathSeat { member }, answer)
    }

    // The word of the Sync turn, which is 0 where nobody has it.
    fn look_turn(&self, seat: PathSeat<K>) -> (PathSeat<K>, u64)
        requires { IsOf self.now.table.table.shared.table_id self.now.table.size seat.member }
        ensures same { Stays self.now.table.table.shared.table_id self.now.table.size seat.member
            result.0.member }
        ensures looked { Stepped seat.member (Look seat.member.number (TurnWord Sync)) result.1
            result.0.member }
    {
        let PathSeat { mut member } = seat;
        let found = self.table.look_turn(&mut member);
        (PathSeat { member }, found)
    }

    // The same, but who waits looks first, and leaves a turn that is taken to others: a failed
    // exchange would take the word from who works.
    fn try_sync<R: Wait>(
        &self,
        rt: &R,
        alloc: Global,
        seat: PathSeat<K>,
    ) -> (PathSeat<K>, Option<SyncAnswer>)
        requires table { IsOf self.now.table.table.shared.table_id self.now.table.size seat.member }
        requires spends { issued_in (view_of seat.member).trail ≤ 2 ^ 40 }
        ensures same { Stays self.now.table.table.shared.table_id self.now.table.size seat.member
            result.0.member }
        ensures answer { MayAnswer seat.member.number 1 self.now.table.size.at_open
            (view_of seat.member) result.1 (view_of result.0.member) }
    {
        let (seat, found) = self.look_turn(seat);
        if found != 0 {
            return (seat, None);
        }
        self.sync_free(rt, alloc, seat)
    }

    // Whether the log is lasting already up to where the seat's last write ends.
    fn try_await(&self, seat: PathSeat<K>) -> (PathSeat<K>, Option<SyncAnswer>)
        requires { IsOf self.now.table.table.shared.table_id self.now.table.size seat.member }
        ensures same { Stays self.now.table.table.shared.table_id self.now.table.size seat.member
            result.0.member }
        ensures answer { MayAnswer seat.member.number 0 self.now.table.size.at_open
            (view_of seat.member) result.1 (view_of result.0.member) }
    {
        let upto = seat.last_end();
        let PathSeat { mut member } = seat;
        let done = self.table.look_done(&mut member, upto);
        (PathSeat { member }, done)
    }

    // One try to have the log lasting up to where the seat's last write ends: by what another
    // seat's sync made lasting, or by a round where the Sync turn is found free.
    fn sync_once<R: Wait>(
        &self,
        rt: &R,
        alloc: Global,
        seat: PathSeat<K>,
    ) -> (PathSeat<K>, Option<SyncAnswer>)
        requires table { IsOf self.now.table.table.shared.table_id self.now.table.size seat.member }
        requires spends { issued_in (view_of seat.member).trail ≤ 2 ^ 40 }
        ensures same { Stays self.now.table.table.shared.table_id self.now.table.size seat.member
            result.0.member }
        ensures answer { MayAnswer seat.member.number 1 self.now.table.size.at_open
            (view_of seat.member) result.1 (view_of result.0.member) }
    {
        let (seat, answer) = self.try_await(seat);
        match answer {
            Some(answer) => (seat, Some(answer)),
            None => self.try_sync(rt, alloc, seat),
        }
    }

    /// Syncs the log: it waits until the log is lasting up to where the seat's last write ends, by
    /// another seat's sync or, where the Sync turn is found free, by a round of its own, which
    /// makes lasting all that is pending. `Done` carries the synced key, at or below which each
    /// write of the seat's list ends; of other seats' writes it tells those below the key alone. So
    /// a seat that wrote nothing is answered by how far the log is lasting. `Stopped` has the
    /// keeper's count of faults at its opening and the count that the log tells; after
    /// `OutOfMemory` all is pending still. What is answered was found, or put, at a step of this
    /// call. The seat has issued at most 1,099,511,627,776 barriers before, and issues one more at
    /// most: a round that gives no answer issues none. No clause says that it returns.
    pub fn sync<R: Wait>(
        &self,
        rt: &R,
        alloc: Global,
        seat: PathSeat<K>,
    ) -> (PathSeat<K>, SyncAnswer)
        requires table { IsOf self.now.table.table.shared.table_id self.now.table.size seat.member }
        requires spends { issued_in (view_of seat.member).trail ≤ 2 ^ 40 }
        ensures same { Stays self.now.table.table.shared.table_id self.now.table.size seat.member
            result.0.member }
        ensures syncs { Syncs seat.member.number self.now.table.size.at_open
            (view_of seat.member) result.1 (view_of result.0.member) }
        ensures issued { issued_in (view_of result.0.member).trail
            ≤ 1 + issued_in (view_of seat.member).trail }
    {
        let mut seat = seat;
        let backoff = Backoff::new();
        let mut looked = 0;
        for _ in rt.forever() {
            let (next, answer) = self.sync_once(rt, alloc, seat);
            seat = next;
            match answer {
                Some(answer) => return (seat, answer),
                None => looked = wait_for_turn(&self.table, rt, &backoff, looked),
            }
        }
        unreachable!()
    }
}
