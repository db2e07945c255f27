//! A write up to its claim, by calls that wait: each tries until one try is not refused by what
//! other seats did. The seat's list is as it was.
ghost use Rattle.std.specs.Prelude.{◌≡◌, ◌+◌, ◌/◌, ◌<◌, ◌≤◌, length, IfOk, MatchResult};
ghost use Rattle.path_rule.specs.Layout.{numbers_end};
ghost use Rattle.path_table.specs.Members.{view_of, IsOf};
ghost use Rattle.write_path.specs.Commits.{HasNoRoom, KeepsMemtables, WritesEndBelow};

use crate::claimed::Claimed;
use crate::claiming::TryClaim;
use crate::seats::{Appending, WritePath};
use clog_base::Key;
use path_core::Keeper;
use path_table::{Begun, PathSeat};
use std::alloc::Allocator;
use std::sync::Wait;
use std::thread::yield_now;

impl<K: Keeper, A: Allocator> WritePath<K, A> {
    /// Joins the write order (`OpOrder.start`). No clause says that it returns.
    pub fn start<R: Wait>(&self, rt: &R, seat: PathSeat<K>) -> Begun<K>
        requires { IsOf self.now.table.table.shared.table_id self.now.table.size seat.member }
        ensures { KeepsMemtables self.now.table.table.shared.table_id self.now.table.size
            seat.member result.member × (result.group < numbers_end) }
    {
        let mut seat = seat;
        for _ in rt.forever() {
            match self.try_start(seat) {
                Ok(begun) => return begun,
                Err((refused, _seen)) => {
                    seat = refused;
                    yield_now();
                }
            }
        }
        unreachable!()
    }

    /// Joins the append order. No clause says that it returns.
    pub fn append<R: Wait>(&self, rt: &R, seat: Begun<K>) -> Appending<K>
        requires { IsOf self.now.table.table.shared.table_id self.now.table.size seat.member }
        ensures { KeepsMemtables self.now.table.table.shared.table_id self.now.table.size
            seat.member result.member × (result.writing ≡ seat.group)
            × (result.group < numbers_end) }
    {
        let mut seat = seat;
        for _ in rt.forever() {
            match self.try_append(seat) {
                Ok(appending) => return appending,
                Err((refused, _seen)) => {
                    seat = refused;
                    yield_now();
                }
            }
        }
        unreachable!()
    }

    /// Claims a range of some bytes (`CommitLogSegment.allocate`), or tells the key that was found
    /// at which there is no room for it, and no further segment. No clause says that it returns.
    pub fn claim<R: Wait>(
        &self,
        rt: &R,
        seat: Appending<K>,
        size: u32,
    ) -> Result<Claimed<K>, (Appending<K>, Key)>
        requires table { IsOf self.now.table.table.shared.table_id self.now.table.size seat.member }
        requires size { (30 ≤ size) × (size ≤ self.now.table.size.capacity / 2) }
        ensures claim { MatchResult result
            (λ c. KeepsMemtables self.now.table.table.shared.table_id self.now.table.size
            seat.member c.member × (c.writing ≡ seat.writing) × (c.group ≡ seat.group)
            × (c.start.0 + size ≡ c.end.0))
            (λ r. KeepsMemtables self.now.table.table.shared.table_id self.now.table.size
            seat.member r.0.member × (r.0.writing ≡ seat.writing) × (r.0.group ≡ seat.group)
            × HasNoRoom self.now.table.size size (length (view_of seat.member).trail) r.1.0
            (view_of r.0.member)) }
        ensures behind { IfOk result (λ c. WritesEndBelow c.start.0 (view_of c.member).trail) }
    {
        let mut seat = seat;
        for _ in rt.forever() {
            match self.try_claim(seat, size) {
                TryClaim::Claimed(claimed) => return Ok(claimed),
                TryClaim::Spent(refused, key) => return Err((refused, key)),
                TryClaim::Again(refused, _seen) => {
                    seat = refused;
                    yield_now();
                }
            }
        }
        unreachable!()
    }
}
