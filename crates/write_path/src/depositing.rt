//! A write deposits its entry, by one try that is never refused and takes no memory.
ghost use Rattle.std.specs.Prelude.{◌≡◌, ℕ, ◌+◌, ◌<◌};
ghost use Rattle.clog_base.specs.declared.sizes.Sizes.{Sizes};
ghost use Rattle.clog_mutation.specs.declared.mutation.Mutation.{Mutation};
ghost use Rattle.op_core.specs.declared.count.Order.TheVariants.{Append};
ghost use Rattle.path_core.specs.declared.event.Carried.TheVariants.{Deposit};
ghost use Rattle.path_core.specs.declared.event.Event.TheVariants.{Close};
ghost use Rattle.path_core.specs.declared.note.EntryNote.{EntryNote};
ghost use Rattle.path_rule.specs.Layout.{numbers_end};
ghost use Rattle.path_table.specs.Members.{view_of, IsOf, Stepped};
ghost use Rattle.write_path.specs.Applies.{HoldsUpdates, IsUnappliedFrom};
ghost use Rattle.write_path.specs.Ends.{IsListed, IsUntriedFrom};
ghost use Rattle.path_flush.specs.Seats.{Stays};
ghost use Rattle.write_path.specs.Writes.{entry_size, IsPrepared, IsNoteOf};

use crate::claimed::Claimed;
use crate::deposited::Deposited;
use crate::prepared::Prepared;
use crate::seats::WritePath;
use clog_base::Writer;
use path_core::Keeper;
use std::alloc::Allocator;

impl<K: Keeper, A: Allocator> WritePath<K, A> {
    /// Puts the entry of a write into the seat's box, at the range that it claimed, and leaves the
    /// append order with it: the seat's list is the old one and this write. The prepared write that
    /// comes back has its updates still, which say the range too.
    pub fn deposit(&self, seat: Claimed<K>, prepared: Prepared) -> (Deposited<K>, Prepared)
        requires table { IsOf self.now.table.table.shared.table_id self.now.table.size seat.member }
        requires group { seat.group < numbers_end }
        requires prepared { (sizes : Sizes) × (line : ℕ) × (m : Mutation)
            × IsPrepared sizes line m prepared × (seat.start.0 + entry_size m ≡ seat.end.0)
            × (sizes.tables ≡ self.now.table.size.tables) }
        ensures same { Stays self.now.table.table.shared.table_id self.now.table.size seat.member
            result.0.member × (result.0.writing ≡ seat.writing) × (result.0.start ≡ seat.start)
            × (result.0.end ≡ seat.end) }
        ensures step { (note : EntryNote) × (n : ℕ) × Stepped seat.member
            (Close seat.member.number Append seat.group (Deposit note)) n result.0.member
            × ((sizes : Sizes) (line : ℕ) (m : Mutation) → IsPrepared sizes line m prepared
            → IsNoteOf line m note) }
        ensures listed { IsListed (view_of seat.member).trail (view_of result.0.member).trail
            seat.member.number seat.start.0 seat.end.0 result.0.tables prepared }
        ensures untried { IsUntriedFrom 0 result.0 }
        ensures holds { HoldsUpdates result.0 result.1 }
        ensures unapplied { IsUnappliedFrom 0 result.0 }
    {
        let Claimed {
            member,
            writing,
            group,
            start,
            end,
        } = seat;
        let mut prepared = prepared;
        let number = member.number();
        prepared.claimed(start, Writer(number));
        let tables = prepared.tables();
        let own = 1 + 2 * usize::from(number) + (group % 2) as usize;
        let mut member = self.table.put_notes(member, own, &mut prepared.notes);
        let _found = self.table.deposit(&mut member, group, end.0);
        let seat = Deposited {
            member,
            writing,
            start,
            end,
            tables,
        };
        (seat, prepared)
    }
}
