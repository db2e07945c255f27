//! A seat whose entry is deposited: what is left of its write is to place it at its
//! tables, and to put its updates there.
ghost use Rattle.std.specs.Prelude.{◌≡◌, ◌^◌, ◌<◌, ◌≤◌, [], Some, None};
ghost use Rattle.path_core.specs.Parts.{HoldsNoTurn};
ghost use Rattle.path_rule.specs.Issued.{issued_in, opened_in};

use clog_base::Key;
use path_table::Member;

/// A seat that has deposited its entry and left the append order. It is in a group of the write
/// order, and has no box.
#[derive(Drop)]
pub struct Deposited<K> {
    /// The seat.
    pub member: Member<K>,
    /// The group of the write order.
    pub writing: u64,
    /// Where its range begins.
    pub start: Key,
    /// Where it ends.
    pub end: Key,
    /// The tables of its entry: bit `t` for table `t`.
    pub tables: u16,
    pub ghost writes: { member.seat.me.0.part.write ≡ Some writing },
    pub ghost left: { member.seat.me.0.part.append ≡ None },
    pub ghost claims: { member.seat.me.0.part.claim
        ≡ Some (record { start = start.0; end = end.0 }) },
    pub ghost noted: { member.seat.me.0.part.note ≡ Some tables },
    pub ghost few: { tables < 2 ^ member.seat.me.0.size.tables },
    pub ghost free: { HoldsNoTurn member.seat.me.0.part },
    pub ghost bare: { member.seat.me.1 ≡ [] },
    pub ghost rests: { member.seat.me.0.hands.memtable_box ≡ None },
    pub ghost paid: { opened_in member.seat.me.0.trail ≤ issued_in member.seat.me.0.trail },
}
