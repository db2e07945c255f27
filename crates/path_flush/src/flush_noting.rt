//! What the path tells of the keeper on the desk as memtables go to files: that it has stopped, or
//! runs still. Then the seat knows what it shows. And the segments that files hold go.
ghost use Rattle.std.specs.Prelude.{◌≡◌, ◌^◌, ◌<◌, true, Some};
ghost use Rattle.path_core.specs.declared.event.Cursor.TheVariants.{Stopped};
ghost use Rattle.path_core.specs.declared.event.Place.TheVariants.{CursorWord};
ghost use Rattle.path_core.specs.Keeper.{HasRisen};
ghost use Rattle.path_core.specs.Next.{has_filed};
ghost use Rattle.path_rule.specs.FilingTold.{CarriesNoted, TurnSynced};
ghost use Rattle.path_rule.specs.Finds.{Finds};
ghost use Rattle.path_rule.specs.Lasts.{shows_of};
ghost use Rattle.path_rule.specs.Turns.{FoundRunning};
ghost use Rattle.path_table.specs.Members.{view_of, part_of, hands_of, IsOf};
ghost use Rattle.path_flush.specs.FlushFilings.{FilingSteps, HasBoth, HasTurns, IsFault, MayStop};
ghost use Rattle.path_flush.specs.FlushFilings.{Refused, TellsFault, stopped_after, unless_memory};
ghost use Rattle.path_flush.specs.Seats.{Stays};

use crate::flush_answer::Flush;
use clog_base::{Key, Table};
use path_core::{Keeper, KeeperFault};
use path_table::{Member, PathTable};
use std::alloc::Allocator;

// What is answered where segments were not dropped: nothing where the keeper wants memory.
fn unless_memory(answer: Flush) -> Option<Flush>
    ensures { result ≡ unless_memory answer }
{
    match answer {
        Flush::Flushed { .. } => Some(answer),
        Flush::Empty(_) => Some(answer),
        Flush::Busy(_) => Some(answer),
        Flush::Stopped { .. } => Some(answer),
        Flush::OutOfMemory => None,
    }
}

// The path tells that the keeper on the desk has stopped, with its count of faults.
fn stop_log<K: Keeper, A: Allocator>(
    path: &PathTable<K, A>,
    member: Member<K>,
    table: Table,
    now: u64,
) -> Member<K>
    requires table { IsOf path.now.table.shared.table_id path.now.size member }
    requires files { path.now.size.files ≡ true }
    requires turns { HasTurns table.0 member.seat.me × FoundRunning (part_of member) }
    requires desk { CarriesNoted (shows_of K.holds) (Some now) member.seat.me }
    requires risen { HasRisen (hands_of member).lasting.at_open now }
    ensures same { Stays path.now.table.shared.table_id path.now.size member
        result }
    ensures holds { HasBoth (shows_of K.holds) table.0 result.seat.me }
    ensures reading { (hands_of result).reading ≡ (hands_of member).reading }
    ensures told { (s : FilingSteps member.number table.0 0 (view_of member) (view_of result))
        × Finds (CursorWord Stopped) now s.made.made.steps }
{
    let _ = table;
    let mut member = member;
    path.stop_filing(&mut member, now);
    member
}

// The path tells that the keeper on the desk runs still, whatever it did.
fn note_desk<K: Keeper, A: Allocator>(
    path: &PathTable<K, A>,
    member: Member<K>,
    table: Table,
) -> Member<K>
    requires table { IsOf path.now.table.shared.table_id path.now.size member }
    requires files { path.now.size.files ≡ true }
    requires turns { HasTurns table.0 member.seat.me × FoundRunning (part_of member) }
    requires desk { CarriesNoted (shows_of K.holds) (hands_of member).lasting.stopped
        member.seat.me }
    ensures same { Stays path.now.table.shared.table_id path.now.size member
        result }
    ensures holds { HasBoth (shows_of K.holds) table.0 result.seat.me }
    ensures reading { (hands_of result).reading ≡ (hands_of member).reading }
    ensures steps { FilingSteps member.number table.0 0 (view_of member) (view_of result) }
{
    let _ = table;
    let mut member = member;
    let _count = path.note_filing(&mut member);
    member
}

// The path tells what the keeper on the desk did as it refused a file, or a drop.
pub(crate) fn note_fault<K: Keeper, A: Allocator>(
    path: &PathTable<K, A>,
    member: Member<K>,
    table: Table,
    fault: KeeperFault,
) -> (Member<K>, Flush)
    requires table { IsOf path.now.table.shared.table_id path.now.size member }
    requires files { path.now.size.files ≡ true }
    requires turns { HasTurns table.0 member.seat.me × FoundRunning (part_of member) }
    requires desk { CarriesNoted (shows_of K.holds)
        (stopped_after (hands_of member).lasting.stopped fault) member.seat.me }
    requires counts { TellsFault (hands_of member).lasting.at_open fault
        × ((hands_of member).lasting.at_open ≡ (view_of member).size.at_open) }
    ensures same { Stays path.now.table.shared.table_id path.now.size member
        result.0 }
    ensures holds { HasBoth (shows_of K.holds) table.0 result.0.seat.me }
    ensures reading { (hands_of result.0).reading ≡ (hands_of member).reading }
    ensures refused { Refused member.number table.0 0 (view_of member) result.1
        (view_of result.0) }
    ensures fault { IsFault result.1 }
{
    match fault {
        KeeperFault::Stopped { at_open, now } => (
            stop_log(path, member, table, now),
            Flush::Stopped { at_open, now },
        ),
        KeeperFault::OutOfMemory => (note_desk(path, member, table), Flush::OutOfMemory),
    }
}

// Drops the segments that may go, behind a memtable that was retired with a file. Where the
// keeper wants memory for that, they wait for the next flush.
pub(crate) fn drop_behind<K: Keeper, A: Allocator>(
    path: &PathTable<K, A>,
    member: Member<K>,
    table: Table,
    synced: u64,
) -> (Member<K>, Option<Flush>)
    requires table { IsOf path.now.table.shared.table_id path.now.size member }
    requires files { path.now.size.files ≡ true }
    requires holds { HasBoth (shows_of K.holds) table.0 member.seat.me }
    requires turn { TurnSynced (part_of member) synced × (has_filed (part_of member) ≡ true) }
    requires small { synced < 2 ^ 62 }
    requires opened { (hands_of member).lasting.at_open ≡ (view_of member).size.at_open }
    ensures same { Stays path.now.table.shared.table_id path.now.size member
        result.0 }
    ensures holds { HasBoth (shows_of K.holds) table.0 result.0.seat.me }
    ensures reading { (hands_of result.0).reading ≡ (hands_of member).reading }
    ensures stopped { MayStop member.number table.0 (view_of member) result.1
        (view_of result.0) }
{
    let (member, done) = path.drop_due(member, Key(synced));
    match done {
        Ok(_count) => (note_desk(path, member, table), None),
        Err(fault) => {
            let (member, answer) = note_fault(path, member, table, fault);
            (member, unless_memory(answer))
        }
    }
}
