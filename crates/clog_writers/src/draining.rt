//! What a run still does with a store once its lines are logged. A drain puts a table file for each
//! table with an entry that lies in none yet, from where the table's last one ends; then, also
//! where writers have flushed, the segments go for which table files stand. Where the entries stand
//! is told by the path alone, so the memory for a drain's cells is asked for behind them.
ghost use Rattle.std.specs.Prelude.{◌≡◌, ◌⊎◌, ◌≤◌, ℕ, [], IfOk, None, OnOk, Some, false, length};
ghost use Rattle.std.specs.Prelude.{true};
ghost use Rattle.clog_io.specs.Causes.{Rose};
ghost use Rattle.clog_layout.specs.Ends.{synced_to};
ghost use Rattle.clog_closing.specs.Beside.{HasGoodDeeds};
ghost use Rattle.clog_closing.specs.Drained.{EndsAs, HasBegun, HasNoDeeds, KeepsLog};
ghost use Rattle.clog_spec.specs.Sizes.{most_tables};
ghost use Rattle.path_core.specs.History.{IsHistory};
ghost use Rattle.path_core.specs.Keeper.{upper_from};
ghost use Rattle.path_rule.specs.Limits.{most_memtables};
ghost use Rattle.clog_memtable.specs.Filling.{AreWhole};
ghost use Rattle.clog_memtable.specs.Touched.{AreMemtablesOf};
ghost use Rattle.clog_segments.specs.NoteLog.{IsNoteLog};
ghost use Rattle.clog_segments.specs.StoreState.{holding_of};
ghost use Rattle.clog_shares.specs.declared.fault.WriteFault.TheVariants.{Spent, Stopped};
ghost use Rattle.clog_writers.specs.Settled.{Settles};
ghost use Rattle.clog_writers.specs.Written.{refused_as};

use clog_base::{Key, OutOfMemory};
use clog_disk::Disk;
use clog_memtable::{Memtable, memtables_of};
use clog_shares::WriteFault;
use clog_store::Store;
use path_core::{EntryNote, KeeperFault};
use std::alloc::Global;

// The key at which the last of notes ends, 0 where there is none.
fn end_of(notes: &[EntryNote]) -> Key
    ensures { result.0 ≡ synced_to notes.now }
{
    if notes.is_empty() {
        return Key(0);
    }
    notes[notes.len() - 1].end
}

// What is to be put yet: nothing where the store is not drained.
fn left_to_put<D: Disk>(
    alloc: Global,
    store: &Store<D>,
    drain: bool,
) -> Result<Vec<Memtable>, OutOfMemory>
    requires whole { AreWhole store.now.notes.logged }
    ensures none { drain ≡ false → IfOk result (λ ms. ms.items ≡ []) }
    ensures all { drain ≡ true → IfOk result (λ ms. AreMemtablesOf store.now.notes.logged
        (λ (t : ℕ). upper_from t 0 store.now.files) (synced_to store.now.notes.logged) most_tables
        ms.items) }
{
    if !drain {
        return Ok(Vec::new(alloc));
    }
    let lowers = store.filed_to();
    memtables_of(alloc, store.logged(), &lowers, end_of(store.logged()))
}

// Drains a store that runs, up to the end of its last entry, or drops alone what may go.
fn settle<D: Disk>(alloc: Global, store: &mut Store<D>, drain: bool) -> Result<(), KeeperFault>
    requires runs { store.old.notes.log.is_stopped ≡ false }
    requires noted { IsNoteLog store.old.notes }
    requires tables { store.old.notes.sizes.tables ≡ most_tables }
    requires in_log { (capacity : ℕ) × IsHistory capacity store.old.notes.logged }
    requires good { HasGoodDeeds
        (holding_of D.files D.changes D.moment D.faults D.row.coded.code store.old) }
    requires few { length store.old.files ≤ most_memtables }
    ensures settles { OnOk result (Settles drain
        (holding_of D.files D.changes D.moment D.faults D.row.coded.code store.old)
        (holding_of D.files D.changes D.moment D.faults D.row.coded.code store.new)) }
    ensures begun { HasNoDeeds
        (holding_of D.files D.changes D.moment D.faults D.row.coded.code store.old)
        → HasBegun
        (holding_of D.files D.changes D.moment D.faults D.row.coded.code store.new)
        (synced_to store.old.notes.logged) }
    ensures good { HasGoodDeeds
        (holding_of D.files D.changes D.moment D.faults D.row.coded.code store.new) }
    ensures keeps { KeepsLog
        (holding_of D.files D.changes D.moment D.faults D.row.coded.code store.old)
        (holding_of D.files D.changes D.moment D.faults D.row.coded.code store.new) }
    ensures ends { EndsAs
        (holding_of D.files D.changes D.moment D.faults D.row.coded.code store.new) result }
    ensures first { store.new.first ≡ store.old.first }
{
    match left_to_put(alloc, store, drain) {
        Ok(memtables) => clog_closing::drain(store, memtables.as_slice()),
        Err(OutOfMemory) => Err(KeeperFault::OutOfMemory),
    }
}

// Why a drain was refused, as a fault of the lines.
fn refused_as(fault: KeeperFault) -> WriteFault
    ensures { result ≡ refused_as fault }
{
    match fault {
        KeeperFault::Stopped { at_open, now } => WriteFault::Stopped { at_open, now },
        KeeperFault::OutOfMemory => WriteFault::OutOfMemory,
    }
}

/// Ends what a run does with a store whose lines were to be logged, where they were: `fault` is why
/// not all of them are, and then the store stays; `at_open` is the disk's count of faults at the
/// opening. With `drain` it puts what lies in no table file yet; with it, or where writers were
/// `flushing`, all segments go that may. It gives back why not all was done.
pub(crate) fn settle_asked<D: Disk>(
    alloc: Global,
    store: &mut Store<D>,
    at_open: u64,
    flushing: bool,
    drain: bool,
    fault: Option<WriteFault>,
) -> Option<WriteFault>
    requires opened { at_open ≡ D.faults store.old.first }
    requires tables { store.old.notes.sizes.tables ≡ most_tables }
    requires in_log { fault ≡ None → (capacity : ℕ) × IsHistory capacity store.old.notes.logged }
    requires good { HasGoodDeeds
        (holding_of D.files D.changes D.moment D.faults D.row.coded.code store.old) }
    requires alone { flushing ≡ false → HasNoDeeds
        (holding_of D.files D.changes D.moment D.faults D.row.coded.code store.old) }
    requires few { length store.old.files ≤ most_memtables }
    requires stopped { (a n : ℕ) → fault ≡ Some (Stopped a n)
        → store.old.notes.log.is_stopped ≡ true }
    ensures ok { result ≡ None → (fault ≡ None) × Settles drain
        (holding_of D.files D.changes D.moment D.faults D.row.coded.code store.old)
        (holding_of D.files D.changes D.moment D.faults D.row.coded.code store.new) }
    ensures spent { result ≡ Some Spent → fault ≡ Some Spent }
    ensures begun { flushing ≡ false → HasNoDeeds
        (holding_of D.files D.changes D.moment D.faults D.row.coded.code store.new)
        ⊎ ((drain ≡ true) × (fault ≡ None) × HasBegun
        (holding_of D.files D.changes D.moment D.faults D.row.coded.code store.new)
        (synced_to store.old.notes.logged)) }
    ensures keeps { KeepsLog
        (holding_of D.files D.changes D.moment D.faults D.row.coded.code store.old)
        (holding_of D.files D.changes D.moment D.faults D.row.coded.code store.new) }
    ensures good { HasGoodDeeds
        (holding_of D.files D.changes D.moment D.faults D.row.coded.code store.new) }
    ensures stays { (store.new ≡ store.old) ⊎ (fault ≡ None) }
    ensures first { store.new.first ≡ store.old.first }
    ensures stopped { (a n : ℕ) → result ≡ Some (Stopped a n)
        → (store.new.notes.log.is_stopped ≡ true)
        ⊎ Rose at_open (D.faults store.new.notes.log.disk) }
{
    let wanted = drain || flushing;
    let now = store.fault_count();
    if fault.is_some() {
        return fault;
    }
    if !wanted {
        return None;
    }
    if now != at_open || now == u64::MAX {
        return Some(WriteFault::Stopped { at_open, now });
    }
    match settle(alloc, store, drain) {
        Ok(()) => None,
        Err(refusal) => Some(refused_as(refusal)),
    }
}
