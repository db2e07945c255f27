//! A seat gives a turn back, of which nothing is left half done, and is idle again. It has issued a
//! barrier for each memtable that it made.
ghost use Rattle.std.specs.Prelude.{◌≤◌};
ghost use Rattle.path_core.specs.declared.event.Turn.TheVariants.{Sync, Flush};
ghost use Rattle.path_rule.specs.Issued.{issued_in, opened_in};
ghost use Rattle.path_rule.specs.Lasts.{shows_of};
ghost use Rattle.path_table.specs.Members.{view_of, IsOf};
ghost use Rattle.path_flush.specs.Seats.{Stays};
ghost use Rattle.path_flush.specs.Turned.{GaveTurn, HoldsDesk, HoldsFlush, HoldsSync};

use clog_base::Table;
use path_core::Keeper;
use path_table::{Member, PathSeat, PathTable};
use std::alloc::Allocator;

/// Gives the Sync turn back, and the desk with it. The seat is idle again: it has issued a barrier
/// for each memtable that it made.
pub fn give_sync_turn<K: Keeper, A: Allocator>(
    path: &PathTable<K, A>,
    member: Member<K>,
) -> PathSeat<K>
    requires table { IsOf path.now.table.shared.table_id path.now.size member }
    requires holds { HoldsSync (view_of member) }
    requires desk { HoldsDesk (shows_of K.holds) member }
    requires paid { opened_in (view_of member).trail ≤ issued_in (view_of member).trail }
    ensures same { Stays path.now.table.shared.table_id path.now.size member
        result.member }
    ensures step { GaveTurn Sync member result.member }
{
    let mut member = member;
    path.give_sync(&mut member);
    PathSeat { member }
}

/// Gives a table's Flush turn back. The seat is idle again: it has issued a barrier for each
/// memtable that it made.
pub fn give_flush_turn<K: Keeper, A: Allocator>(
    path: &PathTable<K, A>,
    member: Member<K>,
    table: Table,
) -> PathSeat<K>
    requires table { IsOf path.now.table.shared.table_id path.now.size member }
    requires holds { HoldsFlush table.0 member.seat.me }
    requires paid { opened_in (view_of member).trail ≤ issued_in (view_of member).trail }
    ensures same { Stays path.now.table.shared.table_id path.now.size member
        result.member }
    ensures step { GaveTurn (Flush table) member result.member }
{
    let mut member = member;
    path.give_flush(&mut member, table);
    PathSeat { member }
}
