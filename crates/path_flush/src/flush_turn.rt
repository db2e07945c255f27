//! The turns that a flush holds: its table's Flush turn, taken by one try, and beside it the Sync
//! turn, for which it waits. With the first it finds which memtables the table has.
ghost use Rattle.std.specs.Prelude.{◌≡◌, ℕ, ◌<◌, [], Some, IfOk, MatchResult};
ghost use Rattle.path_core.specs.declared.event.Event.TheVariants.{Look};
ghost use Rattle.path_core.specs.declared.event.Place.TheVariants.{TurnWord};
ghost use Rattle.path_core.specs.declared.event.Turn.TheVariants.{Flush};
ghost use Rattle.path_core.specs.declared.seat.Switching.TheVariants.{Settled};
ghost use Rattle.path_core.specs.Parts.{seat_table, stage_of};
ghost use Rattle.path_rule.specs.Lasts.{shows_of};
ghost use Rattle.path_rule.specs.Rounds.{RoundSteps};
ghost use Rattle.path_rule.specs.SyncAnswers.{KnowsMarker};
ghost use Rattle.path_table.specs.Members.{view_of, part_of, hands_of, IsOf, Stepped};
ghost use Rattle.path_flush.specs.FlushSteps.{QuietSteps};
ghost use Rattle.path_flush.specs.FlushTurns.{FindsMemtables, HasTable, HoldsBoth, HoldsTable};
ghost use Rattle.path_flush.specs.FlushTurns.{KnowsMemtables};
ghost use Rattle.path_flush.specs.Seats.{Stays};

use clog_base::Table;
use crossbeam_utils::Backoff;
use path_core::Keeper;
use path_rounds::wait_for_turn;
use path_table::{Member, PathSeat, PathTable};
use std::alloc::Allocator;
use std::sync::Wait;

/// Which memtables a table has, as the holder of its Flush turn finds.
#[derive(Clone, Copy, Drop)]
pub enum Memtables {
    /// An earlier switch left this one: it is final, and not retired.
    Left(u64),
    /// This one is the newest, and no other is in use.
    Free(u64),
}

// Takes a table's Flush turn, where nobody has it. A refused seat only looked, and found the
// turn's word 1.
pub(crate) fn take_table<K: Keeper, A: Allocator>(
    path: &PathTable<K, A>,
    seat: PathSeat<K>,
    table: Table,
) -> Result<Member<K>, (PathSeat<K>, u64)>
    requires table { IsOf path.now.table.shared.table_id path.now.size seat.member }
    requires there { table.0 < path.now.size.tables }
    ensures same { MatchResult result
        (λ m. Stays path.now.table.shared.table_id path.now.size seat.member m)
        (λ r. Stays path.now.table.shared.table_id path.now.size seat.member
        r.0.member) }
    ensures step { MatchResult result
        (λ m. QuietSteps seat.member.number table.0 0 (view_of seat.member) (view_of m))
        (λ r. (r.1 ≡ 1)
        × Stepped seat.member (Look seat.member.number (TurnWord (Flush table))) r.1
        r.0.member) }
    ensures holds { IfOk result (λ m. HoldsTable table.0 m.seat.me
        × (stage_of (part_of m) table.0 ≡ Some Settled)) }
{
    let PathSeat { mut member } = seat;
    let found = path.take_flush(&mut member, table);
    if found == 0 {
        Ok(member)
    } else {
        Err((PathSeat { member }, found))
    }
}

// Which memtables the table has.
pub(crate) fn look_memtables<K: Keeper, A: Allocator>(
    path: &PathTable<K, A>,
    member: &mut Member<K>,
    table: Table,
) -> Memtables
    requires table { IsOf path.now.table.shared.table_id path.now.size member.old }
    requires holds { HoldsTable table.0 member.old.seat.me }
    ensures same { Stays path.now.table.shared.table_id path.now.size member.old
        member.new }
    ensures steps { QuietSteps member.old.number table.0 0 (view_of member.old)
        (view_of member.new) }
    ensures holds { HoldsTable table.0 member.new.seat.me }
    ensures stage { stage_of (part_of member.new) table.0
        ≡ stage_of (part_of member.old) table.0 }
    ensures found { FindsMemtables table.0 result (view_of member.old) (view_of member.new)
        member.old.number }
    ensures known { KnowsMemtables table.0 result (view_of member.new) }
{
    let oldest = path.look_oldest_live(member, table);
    let newest = path.look_newest(member, table);
    if oldest != newest {
        Memtables::Left(oldest)
    } else {
        Memtables::Free(newest)
    }
}

// Takes the Sync turn beside the table's, with the desk, where it is found free. It looks before it
// tries: who finds the turn taken leaves its word to others.
pub(crate) fn try_sync_beside<K: Keeper, A: Allocator>(
    path: &PathTable<K, A>,
    member: Member<K>,
    table: Table,
) -> Result<Member<K>, Member<K>>
    requires table { IsOf path.now.table.shared.table_id path.now.size member }
    requires holds { HasTable table.0 member.seat.me }
    ensures same { MatchResult result
        (λ m. Stays path.now.table.shared.table_id path.now.size member m)
        (λ m. Stays path.now.table.shared.table_id path.now.size member m) }
    ensures steps { MatchResult result
        (λ m. RoundSteps member.number 0 [] (view_of member) (view_of m))
        (λ m. RoundSteps member.number 0 [] (view_of member) (view_of m)) }
    ensures holds { MatchResult result
        (λ m. HoldsBoth (shows_of K.holds) table.0 m.seat.me)
        (λ m. HasTable table.0 m.seat.me) }
    ensures tables { MatchResult result
        (λ m. (t : ℕ) → seat_table (part_of m) t ≡ seat_table (part_of member) t)
        (λ m. (t : ℕ) → seat_table (part_of m) t ≡ seat_table (part_of member) t) }
    ensures knows { IfOk result (λ m. KnowsMarker (view_of m) × ((hands_of m).swept ≡ 0)
        × ((hands_of m).lasting.at_open ≡ path.now.size.at_open)) }
{
    let _ = table;
    let mut member = member;
    if path.look_turn(&mut member) != 0 {
        return Err(member);
    }
    if path.take_sync(&mut member) == 0 {
        Ok(member)
    } else {
        Err(member)
    }
}

// The same, where it waits while another seat has the turn. No clause says that it returns.
pub(crate) fn take_sync_beside<K: Keeper, A: Allocator, R: Wait>(
    path: &PathTable<K, A>,
    rt: &R,
    member: Member<K>,
    table: Table,
) -> Member<K>
    requires table { IsOf path.now.table.shared.table_id path.now.size member }
    requires holds { HasTable table.0 member.seat.me }
    ensures same { Stays path.now.table.shared.table_id path.now.size member
        result }
    ensures steps { RoundSteps member.number 0 [] (view_of member) (view_of result) }
    ensures holds { HoldsBoth (shows_of K.holds) table.0 result.seat.me }
    ensures tables { (t : ℕ) → seat_table (part_of result) t ≡ seat_table (part_of member) t }
    ensures knows { KnowsMarker (view_of result) × ((hands_of result).swept ≡ 0)
        × ((hands_of result).lasting.at_open ≡ path.now.size.at_open) }
{
    let mut member = member;
    let backoff = Backoff::new();
    let mut looked = 0;
    for _ in rt.forever() {
        match try_sync_beside(path, member, table) {
            Ok(holder) => return holder,
            Err(next) => {
                member = next;
                looked = wait_for_turn(path, rt, &backoff, looked);
            }
        }
    }
    unreachable!()
}
