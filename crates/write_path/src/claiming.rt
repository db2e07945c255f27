//! A write claims its range of the log, by one try.
ghost use Rattle.std.specs.Prelude.{◌≡◌, ◌+◌, ◌/◌, ◌≤◌, ⊤};
ghost use Rattle.path_table.specs.Members.{view_of, IsOf};
ghost use Rattle.write_path.specs.Commits.{WritesEndBelow};
ghost use Rattle.write_path.specs.Claims.{MatchClaim, IsClaim, IsAgain, IsSpent};
ghost use Rattle.path_flush.specs.Seats.{Stays};

use crate::allocating::log_after;
use crate::claimed::Claimed;
use crate::seats::{Appending, WritePath};
use clog_base::Key;
use path_core::Keeper;
use path_table::Seen;
use std::alloc::Allocator;

/// What a try to claim answers.
#[derive(Drop)]
pub enum TryClaim<K> {
    /// The range is claimed.
    Claimed(Claimed<K>),
    /// The log moved between the look and the claim: the seat only looked.
    Again(Appending<K>, Seen),
    /// At the key that was found there is no room for the entry, and no further segment.
    Spent(Appending<K>, Key),
}

impl<K: Keeper, A: Allocator> WritePath<K, A> {
    /// Claims a range of some bytes where the log stands (`CommitLogSegment.allocate`). `Spent` is
    /// answered exactly where the key that is looked at has no segment for them.
    pub fn try_claim(&self, seat: Appending<K>, size: u32) -> TryClaim<K>
        requires table { IsOf self.now.table.table.shared.table_id self.now.table.size seat.member }
        requires size { (30 ≤ size) × (size ≤ self.now.table.size.capacity / 2) }
        ensures same { MatchClaim result
            (λ c. Stays self.now.table.table.shared.table_id self.now.table.size seat.member
            c.member × (c.writing ≡ seat.writing) × (c.group ≡ seat.group))
            (λ a seen. Stays self.now.table.table.shared.table_id self.now.table.size seat.member
            a.member × (a.writing ≡ seat.writing) × (a.group ≡ seat.group))
            (λ a key. Stays self.now.table.table.shared.table_id self.now.table.size seat.member
            a.member × (a.writing ≡ seat.writing) × (a.group ≡ seat.group)) }
        ensures step { MatchClaim result
            (λ c. (c.start.0 + size ≡ c.end.0)
            × IsClaim (view_of seat.member) seat.member.number c.end.0 (view_of c.member))
            (λ a seen. IsAgain self.now.table.size (view_of seat.member) seat.member.number size
            seen.looked seen.found (view_of a.member))
            (λ a key. IsSpent self.now.table.size (view_of seat.member) seat.member.number size
            key.0 (view_of a.member)) }
        ensures behind { MatchClaim result
            (λ c. WritesEndBelow c.start.0 (view_of c.member).trail) (λ a seen. ⊤) (λ a key. ⊤) }
    {
        let Appending {
            mut member,
            writing,
            group,
        } = seat;
        let looked = self.table.look_log(&mut member);
        let bytes = u64::from(size);
        let Some(to) = log_after(&self.table.size(), looked, bytes) else {
            let seat = Appending {
                member,
                writing,
                group,
            };
            return TryClaim::Spent(seat, Key(looked));
        };
        let found = self.table.claim(&mut member, looked, to);
        if found == looked {
            TryClaim::Claimed(Claimed {
                member,
                writing,
                group,
                start: Key(to - bytes),
                end: Key(to),
            })
        } else {
            let seat = Appending {
                member,
                writing,
                group,
            };
            TryClaim::Again(seat, Seen { looked, found })
        }
    }
}
