//! A write that a memtable has accepted puts its updates there.
ghost use Rattle.std.specs.Prelude.{◌≡◌, ◌<◌, ◌∷◌, IsTrue, Some};
ghost use Rattle.path_core.specs.Parts.{seat_table, touches};
ghost use Rattle.path_table.specs.Members.{part_of, hands_of, IsOf};
ghost use Rattle.write_path.specs.Applies.{HoldsUpdates, IsUnapplied};
ghost use Rattle.write_path.specs.Ends.{IsWriteStill};

use crate::copies::take_first;
use crate::deposited::Deposited;
use crate::prepared::Prepared;
use crate::seats::WritePath;
use clog_base::Table;
use path_core::Keeper;
use std::alloc::Allocator;

impl<K: Keeper, A: Allocator> WritePath<K, A> {
    /// Puts the write's updates of a table into the memtable that has accepted it there
    /// (`Memtable.put`): a copy of its note goes from the prepared write into the seat's box. The
    /// prepared write is the one that came back with the seat from `deposit`. It takes no memory
    /// and is never refused.
    pub fn apply(
        &self,
        seat: Deposited<K>,
        table: Table,
        memtable: u64,
        prepared: &mut Prepared,
    ) -> Deposited<K>
        requires table { IsOf self.now.table.table.shared.table_id self.now.table.size seat.member }
        requires there { (table.0 < self.now.table.size.tables)
            × IsTrue (touches seat.tables table.0) }
        requires place { (seat_table (part_of seat.member) table.0).place ≡ Some memtable }
        requires holds { HoldsUpdates seat prepared.old }
        requires unapplied { IsUnapplied table.0 seat }
        ensures same { IsWriteStill self.now.table.table.shared.table_id self.now.table.size
            seat result }
        ensures applied { (hands_of result.member).applied ≡ record {
          table = table.0;
          entry = seat.end.0;
          memtable = memtable;
        } ∷ (hands_of seat.member).applied }
        ensures part { part_of result.member ≡ part_of seat.member }
        ensures holds { HoldsUpdates result prepared.new }
    {
        let mut copy = take_first(&mut prepared.updates);
        let Deposited {
            member,
            writing,
            start,
            end,
            tables,
        } = seat;
        let member = self.table.apply_note(member, table, memtable, &mut copy);
        Deposited {
            member,
            writing,
            start,
            end,
            tables,
        }
    }
}
