//! A seat whose write has claimed its range of the log.
ghost use Rattle.std.specs.Prelude.{◌≡◌, ◌^◌, ◌≤◌, [], ◌∷◌, length, Some};
ghost use Rattle.path_core.specs.Parts.{HoldsNoTurn};
ghost use Rattle.path_rule.specs.declared.slot.Slot.TheVariants.{Notes};
ghost use Rattle.path_rule.specs.Boxes.{box_of};
ghost use Rattle.path_rule.specs.Issued.{issued_in, opened_in};

use clog_base::Key;
use path_table::Member;

/// A seat that has claimed the range of its entry. It is in a group of each order, and has its box.
#[derive(Drop)]
pub struct Claimed<K> {
    /// The seat.
    pub member: Member<K>,
    /// The group of the write order.
    pub writing: u64,
    /// The group of the append order.
    pub group: u64,
    /// Where its range begins.
    pub start: Key,
    /// Where it ends.
    pub end: Key,
    pub ghost writes: { member.seat.me.0.part.write ≡ Some writing },
    pub ghost appends: { member.seat.me.0.part.append ≡ Some group },
    pub ghost claims: { member.seat.me.0.part.claim
        ≡ Some (record { start = start.0; end = end.0 }) },
    pub ghost free: { HoldsNoTurn member.seat.me.0.part },
    pub ghost carries: { member.seat.me.1
        ≡ (box_of member.number group, Notes member.seat.me.0.hands.notes) ∷ [] },
    pub ghost few: { length member.seat.me.0.hands.notes ≤ 2 ^ 62 },
    pub ghost paid: { opened_in member.seat.me.0.trail ≤ issued_in member.seat.me.0.trail },
}
