//! The log is made lasting up to a memtable's bound, by at most one round of a sync: behind a round
//! it is lasting up to each log key that the seat had found, and the bound lies at or below the
//! log's end.
ghost use Rattle.std.specs.Prelude.{◌≡◌, ◌<◌, ◌≤◌, ℕ};
ghost use Rattle.path_core.specs.declared.event.Place.TheVariants.{Log};
ghost use Rattle.path_core.specs.Parts.{seat_table};
ghost use Rattle.path_rule.specs.FilingTold.{FoundFinal};
ghost use Rattle.path_rule.specs.Finds.{Finds};
ghost use Rattle.path_rule.specs.Issued.{issued_in, most_issued};
ghost use Rattle.path_rule.specs.Lasts.{shows_of};
ghost use Rattle.path_rule.specs.SyncAnswers.{KnowsMarker};
ghost use Rattle.path_table.specs.Members.{view_of, part_of, hands_of, IsOf};
ghost use Rattle.path_flush.specs.FlushFilings.{HasBoth, IsBarred, MakesLasting, MakesRound};
ghost use Rattle.path_flush.specs.FlushFilings.{round_of};
ghost use Rattle.path_flush.specs.FlushSteps.{QuietSteps};
ghost use Rattle.path_flush.specs.FlushTurns.{HoldsBoth};
ghost use Rattle.path_flush.specs.Seats.{Stays};

use crate::flush_answer::Flush;
use crate::flush_ending::give_sync_beside;
use crate::flush_turn::take_sync_beside;
use crate::going_on::key_behind;
use clog_base::{Key, Table};
use path_core::Keeper;
use path_rounds::sync_round;
use path_rule::SyncAnswer;
use path_table::{Member, PathTable};
use std::alloc::{Allocator, Global};
use std::sync::Wait;
use std::thread::yield_now;

/// What a round of a sync is to a flush.
#[derive(Clone, Copy, Drop)]
pub enum Round {
    /// The log is lasting up to each log key that the seat had found.
    Lasts,
    /// The flush is refused: this is answered.
    Fails(Flush),
    /// The last marker waits for its barrier: nothing is told.
    Waits,
}

// What the answer of a round is to a flush.
fn round_of(answer: Option<SyncAnswer>) -> Round
    ensures { result ≡ round_of answer }
{
    match answer {
        Some(SyncAnswer::Done(_)) => Round::Lasts,
        Some(SyncAnswer::Stopped { at_open, now }) => Round::Fails(Flush::Stopped { at_open, now }),
        Some(SyncAnswer::OutOfMemory) => Round::Fails(Flush::OutOfMemory),
        None => Round::Waits,
    }
}

// Gives the Sync turn back, and takes it anew: it comes with all that a round of a sync asks.
fn renew_sync<K: Keeper, A: Allocator, R: Wait>(
    path: &PathTable<K, A>,
    rt: &R,
    member: Member<K>,
    table: Table,
) -> Member<K>
    requires table { IsOf path.now.table.shared.table_id path.now.size member }
    requires holds { HasBoth (shows_of K.holds) table.0 member.seat.me }
    ensures same { Stays path.now.table.shared.table_id path.now.size member
        result }
    ensures steps { QuietSteps member.number table.0 0 (view_of member) (view_of result) }
    ensures holds { HoldsBoth (shows_of K.holds) table.0 result.seat.me }
    ensures tables { (t : ℕ) → seat_table (part_of result) t ≡ seat_table (part_of member) t }
    ensures reading { (hands_of result).reading ≡ (hands_of member).reading }
    ensures knows { KnowsMarker (view_of result) × ((hands_of result).swept ≡ 0)
        × ((hands_of result).lasting.at_open ≡ path.now.size.at_open) }
{
    let member = give_sync_beside(path, member, table);
    take_sync_beside(path, rt, member, table)
}

// A round of a sync, with the Sync turn taken anew in front and behind. What the seat knows of
// the table's memtables, and what it has read of one, is as it was.
fn sync_beside<K: Keeper, A: Allocator, R: Wait>(
    path: &PathTable<K, A>,
    rt: &R,
    alloc: Global,
    member: Member<K>,
    table: Table,
) -> (Member<K>, Round)
    requires table { IsOf path.now.table.shared.table_id path.now.size member }
    requires holds { HasBoth (shows_of K.holds) table.0 member.seat.me }
    requires barred { IsBarred table.0 (part_of member) }
    requires spends { issued_in (view_of member).trail < most_issued }
    ensures same { Stays path.now.table.shared.table_id path.now.size member
        result.0 }
    ensures holds { HasBoth (shows_of K.holds) table.0 result.0.seat.me }
    ensures tables { seat_table (part_of result.0) table.0
        ≡ seat_table (part_of member) table.0 }
    ensures reading { (hands_of result.0).reading ≡ (hands_of member).reading }
    ensures opened { (hands_of result.0).lasting.at_open ≡ path.now.size.at_open }
    ensures made { MakesRound member.number table.0 (view_of member) result.1
        (view_of result.0) }
{
    let member = renew_sync(path, rt, member, table);
    let (member, answer) = sync_round(path, rt, alloc, member);
    let round = round_of(answer);
    (renew_sync(path, rt, member, table), round)
}

// Makes the log lasting up to a key, at or above which the seat found its end: by one round of a
// sync, unless that is refused. No clause says that it returns.
fn make_lasting<K: Keeper, A: Allocator, R: Wait>(
    path: &PathTable<K, A>,
    rt: &R,
    alloc: Global,
    member: Member<K>,
    table: Table,
    bound: Key,
) -> (Member<K>, Option<Flush>)
    requires table { IsOf path.now.table.shared.table_id path.now.size member }
    requires holds { HasBoth (shows_of K.holds) table.0 member.seat.me }
    requires barred { IsBarred table.0 (part_of member) }
    requires opened { (hands_of member).lasting.at_open ≡ path.now.size.at_open }
    requires found { (end : ℕ) × Finds Log end (view_of member).trail × (bound.0 ≤ end) }
    requires spends { issued_in (view_of member).trail < most_issued }
    ensures same { Stays path.now.table.shared.table_id path.now.size member
        result.0 }
    ensures holds { HasBoth (shows_of K.holds) table.0 result.0.seat.me }
    ensures tables { seat_table (part_of result.0) table.0
        ≡ seat_table (part_of member) table.0 }
    ensures reading { (hands_of result.0).reading ≡ (hands_of member).reading }
    ensures opened { (hands_of result.0).lasting.at_open ≡ path.now.size.at_open }
    ensures lasts { MakesLasting member.number table.0 bound.0 (view_of member) result.1
        (view_of result.0) }
{
    let mut member = member;
    for _ in rt.forever() {
        let (next, round) = sync_beside(path, rt, alloc, member, table);
        member = next;
        match round {
            Round::Lasts => return (member, None),
            Round::Fails(answer) => return (member, Some(answer)),
            Round::Waits => yield_now(),
        }
    }
    unreachable!()
}

// Looks whether the log is lasting up to the final bound of a memtable, and makes it so where it is
// not.
pub(crate) fn await_lasting<K: Keeper, A: Allocator, R: Wait>(
    path: &PathTable<K, A>,
    rt: &R,
    alloc: Global,
    member: Member<K>,
    table: Table,
    bound: Key,
) -> (Member<K>, Option<Flush>)
    requires table { IsOf path.now.table.shared.table_id path.now.size member }
    requires holds { HasBoth (shows_of K.holds) table.0 member.seat.me }
    requires barred { IsBarred table.0 (part_of member) }
    requires opened { (hands_of member).lasting.at_open ≡ path.now.size.at_open }
    requires bound { (m : ℕ) × FoundFinal table.0 (part_of member) m bound.0 }
    requires spends { issued_in (view_of member).trail < most_issued }
    ensures same { Stays path.now.table.shared.table_id path.now.size member
        result.0 }
    ensures holds { HasBoth (shows_of K.holds) table.0 result.0.seat.me }
    ensures tables { seat_table (part_of result.0) table.0
        ≡ seat_table (part_of member) table.0 }
    ensures reading { (hands_of result.0).reading ≡ (hands_of member).reading }
    ensures opened { (hands_of result.0).lasting.at_open ≡ path.now.size.at_open }
    ensures lasts { MakesLasting member.number table.0 bound.0 (view_of member) result.1
        (view_of result.0) }
{
    let mut member = member;
    let _end = path.look_log(&mut member);
    let synced = path.look_synced(&mut member);
    if bound.0 <= key_behind(path.size().capacity, synced) {
        return (member, None);
    }
    make_lasting(path, rt, alloc, member, table, bound)
}
