//! A table of which no seat was handed out is closed by the seat that would have done so.
ghost use Rattle.std.specs.Prelude.{◌≡◌};
ghost use Rattle.path_rule.specs.Lasts.{beside_of};
ghost use Rattle.path_rule.specs.Rule.{start_of};
ghost use Rattle.path_rule.specs.Sharing.{EndsUnused};
ghost use Rattle.path_table.specs.ClosedBounds.{TellsBounds};

use crate::bounds::TableBounds;
use crate::closing::keeper_and_log;
use crate::table::{Opener, PathTable};
use path_core::Keeper;
use std::alloc::Global;
use std::collections::LinkedList;

impl<K: Keeper + Drop> PathTable<K, Global> {
    /// Closes the table where no seat was handed out, so that no step was made. It answers the
    /// keeper, which holds that nothing is lasting, the log's first key, and key 0 of each table.
    pub fn finish_unused(self, alloc: Global, opener: Opener<K>) -> (K, u64, TableBounds)
        requires table { opener.seat.table_id ≡ self.table.shared.table_id }
        requires unused { opener.made ≡ 0 }
        ensures ended { EndsUnused (beside_of (K.holds self.table.shared.key.first.value)) self.size
            result.1 (K.holds result.0) }
        ensures bounds { TellsBounds (start_of self.size) result.2 }
    {
        let PathTable { table, size: _ } = self;
        let Opener { seat, made: _ } = opener;
        // Nobody wrote, so no note comes.
        let mut none = LinkedList::new(alloc);
        keeper_and_log(table.close_with(seat), &mut none)
    }
}
