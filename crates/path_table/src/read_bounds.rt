//! The bound of the memtable that the holder of a Flush turn reads.
ghost use Rattle.std.specs.Prelude.{◌≡◌, ◌<◌, false, Some};
ghost use Rattle.path_core.specs.declared.event.Event.TheVariants.{Look};
ghost use Rattle.path_core.specs.declared.event.Place.TheVariants.{Bound};
ghost use Rattle.path_core.specs.declared.state.Bound.TheVariants.{Final};
ghost use Rattle.path_rule.specs.declared.view.FlushRead.{FlushRead};
ghost use Rattle.path_rule.specs.FilingTold.{FoundFinal};
ghost use Rattle.path_rule.specs.Layout.{bound_word, numbers_end};
ghost use Rattle.path_table.specs.Members.{part_of, hands_of, IsOf, KeepsBoxes, Stepped};

use crate::table::{Member, PathTable};
use crate::words::{BOUNDS, FINAL};
use atomic_table::Play;
use clog_base::{Key, Table};
use path_core::Keeper;
use path_rule::{Slot, View};
use std::alloc::Allocator;
use std::marker::PhantomData;

/// A look at the bound of the memtable that is read.
pub(crate) struct ReadBound<K> {
    keeper: PhantomData<K>,
}

impl<K> Play<Slot<K>, View> for ReadBound<K> {
    ghost use Rattle.path_rule.specs.ReadBound.{BoundRead};

    ghost then = { BoundRead };
}

impl<K: Keeper, A: Allocator> PathTable<K, A> {
    /// The bound of the memtable of a table that the member reads: it is final, whoever made it so.
    pub fn look_read_bound(&self, member: &mut Member<K>, table: Table, memtable: u64) -> Key
        requires table { IsOf self.now.table.shared.table_id self.now.size member.old }
        requires there { (table.0 < self.now.size.tables) × (memtable < numbers_end) }
        requires reads { (q : FlushRead) × ((hands_of member.old).reading ≡ Some q)
            × (q.table ≡ table.0) × (q.memtable ≡ memtable) × (q.retired ≡ false) }
        ensures same { KeepsBoxes member.old member.new }
        ensures step { Stepped member.old (Look member.old.number (Bound table memtable))
            (bound_word (Final result)) member.new }
        ensures bound { FoundFinal table.0 (part_of member.new) memtable result.0 }
    {
        let word = self.table.shared.load::<ReadBound<K>>(
            &mut member.seat,
            BOUNDS + 16 * (memtable % 4) as usize + table.0 as usize,
        );
        let key = word - FINAL;
        Key(key)
    }
}
