//! Calls that make one attempt and wait for nobody.
ghost use Rattle.std.specs.Prelude.{◌≡◌, ℕ, ◌<◌, ◌≤◌, [], Some, None, MatchResult, length};
ghost use Rattle.op_core.specs.declared.count.Order.TheVariants.{Write};
ghost use Rattle.path_core.specs.declared.event.Carried.TheVariants.{Nothing};
ghost use Rattle.path_core.specs.declared.event.Event.TheVariants.{Close};
ghost use Rattle.path_core.specs.declared.event.Place.TheVariants.{Count};
ghost use Rattle.path_core.specs.Parts.{HoldsNoTurn, IsIdle};
ghost use Rattle.path_rule.specs.Issued.{issued_in, opened_in};
ghost use Rattle.path_rule.specs.Rounds.{WroteBelow};
ghost use Rattle.path_rule.specs.Calls.{Started, Refused, acts, FoundSince};
ghost use Rattle.path_rule.specs.Layout.{numbers_end};
ghost use Rattle.path_table.specs.LastEnds.{last_end_in};
ghost use Rattle.path_table.specs.Members.{view_of, IsOf, IsSame, Stepped};

use crate::table::{Member, PathTable};
use crate::words::{EXPIRED, ONE_GROUP};
use path_core::Keeper;
use std::alloc::Allocator;

/// Why a seat did not join a group: the word of its count was found expired or with another group's
/// number, or another word was found then. A word has the mark of an expired group in its highest
/// bit, the group's number in the 47 bits below, and the operations in the lowest 16.
#[derive(Clone, Copy, Drop)]
pub struct Seen {
    /// The word that it looked at.
    pub looked: u64,
    /// The word that it found then: another one only where it tried to join.
    pub found: u64,
}

/// An idle seat: it is in no group, has claimed nothing, and has neither a turn nor a box. It has
/// issued a barrier for each memtable that it made.
#[derive(Drop)]
pub struct PathSeat<K> {
    /// The seat.
    pub member: Member<K>,
    pub ghost idle: { IsIdle member.seat.me.0.part },
    pub ghost unclaimed: { member.seat.me.0.part.claim ≡ None },
    pub ghost free: { HoldsNoTurn member.seat.me.0.part },
    pub ghost bare: { member.seat.me.1 ≡ [] },
    pub ghost paid: { opened_in member.seat.me.0.trail ≤ issued_in member.seat.me.0.trail },
}

/// A seat in a group of the write order, before it appends.
#[derive(Drop)]
pub struct Begun<K> {
    /// The seat.
    pub member: Member<K>,
    /// The group.
    pub group: u64,
    pub ghost inside: { member.seat.me.0.part.write ≡ Some group },
    pub ghost outside: { member.seat.me.0.part.append ≡ None },
    pub ghost unclaimed: { member.seat.me.0.part.claim ≡ None },
    pub ghost free: { HoldsNoTurn member.seat.me.0.part },
    pub ghost bare: { member.seat.me.1 ≡ [] },
    pub ghost paid: { opened_in member.seat.me.0.trail ≤ issued_in member.seat.me.0.trail },
}

impl<K> PathSeat<K> {
    /// How many barriers it has issued, of both orders.
    pub fn issued(&self) -> u64
        ensures { result ≡ issued_in (view_of self.now.member).trail }
    {
        self.member.issued
    }

    /// The log key at which its last write ends, 0 before the first: all that it wrote ends at or
    /// below it.
    pub fn last_end(&self) -> u64
        ensures ended { result ≡ last_end_in (view_of self.now.member).trail }
        ensures wrote { WroteBelow result (view_of self.now.member).trail }
    {
        self.member.last_end
    }
}

impl<K: Keeper, A: Allocator> PathTable<K, A> {
    /// Joins the current group of the write order, if its count stays as it was looked at. A
    /// refused seat only looked, and says what it found in this call.
    pub fn try_start(&self, seat: PathSeat<K>) -> Result<Begun<K>, (PathSeat<K>, Seen)>
        requires { IsOf self.now.table.shared.table_id self.now.size seat.member }
        ensures { MatchResult result
            (λ b. (b.member.seat.table_id ≡ seat.member.seat.table_id)
            × (b.member.number ≡ seat.member.number) × (b.group < numbers_end)
            × Started (view_of seat.member) seat.member.number Write b.group (view_of b.member))
            (λ r. (r.0.member.seat.table_id ≡ seat.member.seat.table_id)
            × (r.0.member.number ≡ seat.member.number)
            × Refused (view_of seat.member) seat.member.number Write r.1.looked r.1.found
            (view_of r.0.member)
            × (acts (view_of r.0.member).trail ≡ acts (view_of seat.member).trail)
            × ((g : ℕ) × FoundSince (length (view_of seat.member).trail) (Count Write g) r.1.found
            (view_of r.0.member).trail)) }
    {
        let PathSeat { mut member } = seat;
        let group = self.look_write(&mut member);
        let looked = self.look_writers(&mut member, group);
        if looked >= EXPIRED || looked / ONE_GROUP != group {
            let seen = Seen {
                looked,
                found: looked,
            };
            return Err((PathSeat { member }, seen));
        }
        let found = self.register(&mut member, group, looked);
        if found == looked {
            Ok(Begun { member, group })
        } else {
            Err((PathSeat { member }, Seen { looked, found }))
        }
    }

    /// Leaves the write order, before a claim.
    pub fn stop(&self, seat: Begun<K>) -> PathSeat<K>
        requires table { IsOf self.now.table.shared.table_id self.now.size seat.member }
        requires group { seat.group < numbers_end }
        ensures same { IsSame seat.member result.member }
        ensures step { (n : ℕ) × Stepped seat.member
            (Close seat.member.number Write seat.group Nothing) n result.member }
    {
        let Begun { mut member, group } = seat;
        let _found = self.leave(&mut member, group);
        PathSeat { member }
    }
}
