//! The seats of a path by how far their write has got, and the calls that take a seat from one to
//! the next. Each makes one try and waits for nobody.
//!
//!     PathSeat ── try_start ──▶ Begun ── try_append ──▶ Appending
//!              ◀──── stop ────        ◀── stop_append ──
ghost use Rattle.std.specs.Prelude.{◌≡◌, ℕ, ◌^◌, ◌<◌, ◌≤◌, [], ◌∷◌, length, Some, None};
ghost use Rattle.std.specs.Prelude.{MatchResult};
ghost use Rattle.op_core.specs.declared.count.Order.TheVariants.{Write, Append};
ghost use Rattle.path_core.specs.declared.event.Carried.TheVariants.{Nothing};
ghost use Rattle.path_core.specs.declared.event.Event.TheVariants.{Close};
ghost use Rattle.path_core.specs.Parts.{HoldsNoTurn};
ghost use Rattle.path_rule.specs.declared.slot.Slot.TheVariants.{Notes};
ghost use Rattle.path_rule.specs.Boxes.{box_of};
ghost use Rattle.path_rule.specs.Calls.{Started};
ghost use Rattle.path_rule.specs.Issued.{issued_in, opened_in};
ghost use Rattle.path_rule.specs.Layout.{numbers_end};
ghost use Rattle.path_table.specs.Members.{view_of, IsOf, Stepped};
ghost use Rattle.path_table.specs.declared.table.Opener.{Opener};
ghost use Rattle.write_path.specs.declared.resting.Resting.{Resting};
ghost use Rattle.write_path.specs.Opened.{IsUnused};
ghost use Rattle.path_flush.specs.Seats.{Stays};
ghost use Rattle.write_path.specs.Tries.{Joined, OnlyLooked};

use crate::resting::Resting;
use path_core::Keeper;
use path_table::{Begun, EXPIRED, Member, ONE_GROUP, Opener, PathSeat, PathTable, Seen};
use std::alloc::Allocator;
use sync_core::SyncCore;

/// How many barriers a seat may have issued before a commit, a sync, a switch or a flush of it:
/// 2^40, so that numbers of groups and of memtables fit their words.
pub const MOST_ISSUED: u64 = 1_099_511_627_776;

/// A path that threads share: its words and boxes, the seat that hands out the others until they
/// are handed out, which rests there, and how its commits are made lasting.
#[derive(Drop)]
pub struct WritePath<K: Keeper, A: Allocator> {
    pub(crate) table: PathTable<K, A>,
    pub(crate) opener: Option<Resting<Opener<K>>>,
    pub(crate) mode: SyncCore,
    pub ghost rests: { (o : Resting (Opener K)) → opener ≡ Some o
        → IsUnused table.table.shared.table_id table.size o.table.shared.key.value },
    pub ghost based: { table.size.base < 2 ^ 62 },
}

/// A seat in a group of the write order and in one of the append order, before its claim. It has
/// its box for the parity of the latter.
#[derive(Drop)]
pub struct Appending<K> {
    /// The seat.
    pub member: Member<K>,
    /// The group of the write order.
    pub writing: u64,
    /// The group of the append order.
    pub group: u64,
    pub ghost writes: { member.seat.me.0.part.write ≡ Some writing },
    pub ghost appends: { member.seat.me.0.part.append ≡ Some group },
    pub ghost unclaimed: { member.seat.me.0.part.claim ≡ None },
    pub ghost free: { HoldsNoTurn member.seat.me.0.part },
    pub ghost carries: { member.seat.me.1
        ≡ (box_of member.number group, Notes member.seat.me.0.hands.notes) ∷ [] },
    pub ghost few: { length member.seat.me.0.hands.notes ≤ 2 ^ 62 },
    pub ghost paid: { opened_in member.seat.me.0.trail ≤ issued_in member.seat.me.0.trail },
}

impl<K: Keeper, A: Allocator> WritePath<K, A> {
    /// Joins the current group of the write order, if its count stays as it was looked at
    /// (`OpOrder.start`). A refused seat only looked, and says what it found in this call.
    pub fn try_start(&self, seat: PathSeat<K>) -> Result<Begun<K>, (PathSeat<K>, Seen)>
        requires { IsOf self.now.table.table.shared.table_id self.now.table.size seat.member }
        ensures same { MatchResult result
            (λ b. Stays self.now.table.table.shared.table_id self.now.table.size seat.member
            b.member × (b.group < numbers_end))
            (λ r. Stays self.now.table.table.shared.table_id self.now.table.size seat.member
            r.0.member) }
        ensures step { MatchResult result
            (λ b. Started (view_of seat.member) seat.member.number Write b.group
            (view_of b.member))
            (λ r. OnlyLooked Write (view_of seat.member) seat.member.number r.1.looked r.1.found
            (view_of r.0.member)) }
    {
        self.table.try_start(seat)
    }

    /// Joins the current group of the append order, if its count stays as it was looked at
    /// (`OpOrder.start` of the log's appends). A refused seat only looked, and says what it found
    /// in this call.
    pub fn try_append(&self, seat: Begun<K>) -> Result<Appending<K>, (Begun<K>, Seen)>
        requires { IsOf self.now.table.table.shared.table_id self.now.table.size seat.member }
        ensures same { MatchResult result
            (λ a. Stays self.now.table.table.shared.table_id self.now.table.size seat.member
            a.member × (a.writing ≡ seat.group) × (a.group < numbers_end))
            (λ r. Stays self.now.table.table.shared.table_id self.now.table.size seat.member
            r.0.member × (r.0.group ≡ seat.group)) }
        ensures step { MatchResult result
            (λ a. Joined (view_of seat.member) seat.member.number a.group (view_of a.member))
            (λ r. OnlyLooked Append (view_of seat.member) seat.member.number r.1.looked r.1.found
            (view_of r.0.member)) }
    {
        let Begun {
            mut member,
            group: writing,
        } = seat;
        let group = self.table.look_append(&mut member);
        let looked = self.table.look_appenders(&mut member, group);
        if looked >= EXPIRED || looked / ONE_GROUP != group {
            let seen = Seen {
                looked,
                found: looked,
            };
            return Err((
                Begun {
                    member,
                    group: writing,
                },
                seen,
            ));
        }
        let found = self.table.join(&mut member, group, looked);
        if found == looked {
            Ok(Appending {
                member,
                writing,
                group,
            })
        } else {
            Err((
                Begun {
                    member,
                    group: writing,
                },
                Seen { looked, found },
            ))
        }
    }

    /// Leaves the append order, before a claim. The box goes home.
    pub fn stop_append(&self, seat: Appending<K>) -> Begun<K>
        requires table { IsOf self.now.table.table.shared.table_id self.now.table.size seat.member }
        requires group { seat.group < numbers_end }
        ensures same { Stays self.now.table.table.shared.table_id self.now.table.size seat.member
            result.member × (result.group ≡ seat.writing) }
        ensures step { (n : ℕ) × Stepped seat.member
            (Close seat.member.number Append seat.group Nothing) n result.member }
    {
        let Appending {
            mut member,
            writing,
            group,
        } = seat;
        let _found = self.table.withdraw(&mut member, group);
        Begun {
            member,
            group: writing,
        }
    }

    /// Leaves the write order, before a claim.
    pub fn stop(&self, seat: Begun<K>) -> PathSeat<K>
        requires table { IsOf self.now.table.table.shared.table_id self.now.table.size seat.member }
        requires group { seat.group < numbers_end }
        ensures same { Stays self.now.table.table.shared.table_id self.now.table.size seat.member
            result.member }
        ensures step { (n : ℕ) × Stepped seat.member
            (Close seat.member.number Write seat.group Nothing) n result.member }
    {
        self.table.stop(seat)
    }
}
