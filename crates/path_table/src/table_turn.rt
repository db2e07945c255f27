//! A table's Flush turn: taken by an idle seat where nobody has it, and given back once the newest
//! switch of the table is through.
ghost use Rattle.std.specs.Prelude.{◌≡◌, ◌≢◌, ℕ, ◌<◌, Some, IsTrue, is_some};
ghost use Rattle.path_core.specs.declared.event.Event.TheVariants.{Look, TakeTurn, GiveTurn};
ghost use Rattle.path_core.specs.declared.event.Place.TheVariants.{TurnWord};
ghost use Rattle.path_core.specs.declared.event.Turn.TheVariants.{Flush};
ghost use Rattle.path_core.specs.Parts.{seat_table, IsIdle};
ghost use Rattle.path_core.specs.SeatAfter.{new_flush};
ghost use Rattle.path_rule.specs.declared.view.FlushRead.{FlushRead};
ghost use Rattle.path_rule.specs.Switches.{MayGiveFlush};
ghost use Rattle.path_table.specs.Members.{
  view_of,
  part_of,
  hands_of,
  IsOf,
  KeepsBoxes,
  Stepped,
};

use crate::table::{Member, PathTable};
use crate::words::FLUSH_TURN;
use clog_base::Table;
use path_core::Keeper;
use path_rule::{GiveFlush, TakeFlush};
use std::alloc::Allocator;

impl<K: Keeper, A: Allocator> PathTable<K, A> {
    /// Takes the Flush turn of a table, where nobody has it. Returns what it found: where that is
    /// not 0, another seat has the turn: it is 1, and this was a look. The newest switch of a table
    /// whose turn was free is through. A memtable that the member reads is of a turn that it had.
    pub fn take_flush(&self, member: &mut Member<K>, table: Table) -> u64
        requires table { IsOf self.now.table.shared.table_id self.now.size member.old }
        requires there { table.0 < self.now.size.tables }
        requires idle { IsIdle (part_of member.old) }
        ensures same { KeepsBoxes member.old member.new }
        ensures hit { result ≡ 0
            → Stepped member.old (TakeTurn member.old.number (Flush table)) 1 member.new }
        ensures holds { result ≡ 0
            → (seat_table (part_of member.new) table.0).flush ≡ Some new_flush }
        ensures reads { result ≡ 0 → (q : FlushRead) → (hands_of member.new).reading ≡ Some q
            → IsTrue (is_some (seat_table (part_of member.old) q.table).flush) }
        ensures miss { result ≢ 0
            → Stepped member.old (Look member.old.number (TurnWord (Flush table))) result
            member.new × (result ≡ 1) }
        ensures others { (t : ℕ) → t ≢ table.0
            → seat_table (part_of member.new) t ≡ seat_table (part_of member.old) t }
    {
        self.table
            .shared
            .compare_exchange::<TakeFlush<K>>(
                &mut member.seat,
                FLUSH_TURN + 4 * table.0 as usize,
                0,
                1,
            )
    }

    /// Gives the Flush turn of a table back: none of its switches was begun in this holding, or the
    /// barrier of the last one is passed. And no memtable of the table is read.
    pub fn give_flush(&self, member: &mut Member<K>, table: Table)
        requires table { IsOf self.now.table.shared.table_id self.now.size member.old }
        requires there { table.0 < self.now.size.tables }
        requires through { MayGiveFlush table.0 (view_of member.old) }
        ensures same { KeepsBoxes member.old member.new }
        ensures step { Stepped member.old (GiveTurn member.old.number (Flush table)) 0 member.new }
        ensures others { (t : ℕ) → t ≢ table.0
            → seat_table (part_of member.new) t ≡ seat_table (part_of member.old) t }
    {
        self.table
            .shared
            .store::<GiveFlush<K>>(&mut member.seat, FLUSH_TURN + 4 * table.0 as usize, 0);
    }
}
