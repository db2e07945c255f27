//! The lines of a plan are logged by writers over a store that was just opened, which gives its
//! disk back.
ghost use Rattle.std.specs.Prelude.{◌≡◌, ◌+◌, ◌-◌, ◌*◌, ◌<◌, ◌≤◌, ◌^◌, ℕ, List, None, Some, false};
ghost use Rattle.std.specs.Prelude.{is_some, length, Err, Ok, option_map, IfOk};
ghost use Rattle.clog_spec.specs.Sizes.{most_tables};
ghost use Rattle.clog_disk.specs.declared.change.Change.{Change};
ghost use Rattle.clog_disk.specs.Files.{Files, SameTold, bytes_at};
ghost use Rattle.clog_disk.specs.Images.{IsLater};
ghost use Rattle.clog_io.specs.Causes.{Rose};
ghost use Rattle.clog_mutation.specs.declared.mutation.Mutation.{Mutation as MutationOf};
ghost use Rattle.clog_words.specs.declared.request.ApplyOptions.{ApplyOptions};
ghost use Rattle.clog_segments.specs.StoreFailed.{AllStay};
ghost use Rattle.clog_segments.specs.StoreState.{store_over};
ghost use Rattle.clog_shares.specs.declared.fault.WriteFault.TheVariants.{Spent, Stopped};
ghost use Rattle.clog_writers.specs.Left.{LeavesShares, WritesShares, least_of};
ghost use Rattle.clog_shares.specs.Planned.{IsPlanFor};
ghost use Rattle.clog_writers.specs.Written.{HasReceipts, HasShareCause, AsksFor};
ghost use Rattle.clog_writers.specs.Written.{TellsWrittenShares};

use crate::draining::settle_asked;
use crate::logging::log_shares;
use crate::placing::place_receipts;
use clog_base::Sizes;
use clog_closing::stores_are_left;
use clog_disk::Disk;
use clog_io::{Clock, Gate};
use clog_shares::{Plan, Syncing, WriteFault};
use clog_store::Store;
use std::alloc::Global;
use std::sync::Wait;
use std::thread::Threads;
use write_path::Receipt;

// How lines were written, by the disk's counts of faults before and now: with their receipts, where
// nothing was refused and no fault was counted.
fn ended(
    at_open: u64,
    now: u64,
    fault: Option<WriteFault>,
    receipts: Vec<Receipt>,
) -> Result<Vec<Receipt>, WriteFault>
    requires later { at_open ≤ now }
    requires stopped { (a n : ℕ) → fault ≡ Some (Stopped a n) → Rose at_open now }
    ensures ok { IfOk result (λ r. (r ≡ receipts) × (fault ≡ None) × (Rose at_open now → ⊥)) }
    ensures cause { HasShareCause at_open now result }
    ensures spent { result ≡ Err Spent → fault ≡ Some Spent }
    ensures done { fault ≡ None → now ≡ at_open → now < 2 ^ 64 - 1 → result ≡ Ok receipts }
{
    if now != at_open || now == u64::MAX {
        return Err(WriteFault::Stopped { at_open, now });
    }
    match fault {
        None => Ok(receipts),
        Some(fault) => Err(fault),
    }
}

// A disk tells its changes where it tells its files. The law is for contracts alone.
fn disks_tell_both<D: Disk>(_store: &Store<D>)
    ensures { (d : D) → is_some (D.changes d) ≡ is_some (D.files d) }
{}

// A disk's names read at the moment as its files do. The law is for contracts alone.
fn disks_read_now<D: Disk>(_store: &Store<D>)
    ensures { (d : D) → D.read_at d (D.moment d) ≡ option_map bytes_at (D.files d) }
{}

/// Logs the lines of a plan over a store that was just opened, by as many writers as the store's
/// sizes say, each in a thread of its own where one can be started, and gives the disk back. Line
/// `n`, from 1, is written by the writer of number `n` modulo their count, each writer's lines in
/// order, and each writer has the log synced at the end; in batch mode behind each of its lines,
/// before its next one, and in periodic mode behind each one at which the clock, in milliseconds,
/// tells that the period has passed since its last sync.
///
/// With `flush_at` each writer flushes a table once it has logged so many updates of it since its
/// last flush, behind the sync that is due then; table files come and segments go meanwhile, and
/// all that may have gone at the end. With `drain` a table file is put then for each table with a
/// line that lies in none, and all segments go. Each that goes gets its archive name first where
/// the store archives. The receipts are in the order of the lines. The gate is told how far each
/// commit is. The first fault of a disk, a limit or want of memory that a writer is answered ends
/// the run: each other writer stops behind its commit in hand (no clause says so).
///
/// Whatever is answered, the appends among the disk's further changes have brought segments, and no
/// other names have come than those of these, their archive names and table files. Without
/// `flush_at` the changes are appends alone; with `drain` perhaps table files and removals behind
/// them, once all lines are logged. With `flush_at` table files and removals stand among the
/// appends. Each comes in its turn: a table file, which is true and holds an entry, behind the
/// entries of its table up to its end; a removal behind all bytes of its segment and files that
/// were put that hold it. Where the disk tells its files, the table files are there. Where all
/// lasted before, each image of a crash since then restores what the folder restored, and lines of
/// the plan, of each writer the first of its share; at `Ok`, and without `flush_at` once the
/// changes go beyond appends, each image of now restores all lines. Each file that was there stands
/// as it was.
///
/// `OutOfMemory`: memory was refused for the path, by a sync or a flush, or for the drain's table
/// files;
/// `Spent`: the log has no further segment, so it may have at most two segments for each line;
/// `Stopped`: the disk has failed, with its fault counts at the opening and now.
pub fn write_plan<R: Threads + Wait + Sync, D: Disk + Send + Drop, G: Gate + Sync, C: Clock + Sync>(
    rt: &R,
    alloc: Global,
    store: Store<D>,
    sizes: Sizes,
    syncing: Syncing,
    gate: &G,
    clock: &C,
    plan: Plan<Store<D>>,
    flush_at: Option<u32>,
    drain: bool,
) -> (D, Result<Vec<Receipt>, WriteFault>)
    requires fresh { store ≡ store_over store.notes.log store.notes.sizes store.archives }
    requires runs { store.notes.log.is_stopped ≡ false }
    requires sizes { sizes ≡ store.notes.sizes }
    requires tables { sizes.tables ≡ most_tables }
    requires plan { (mutations : List MutationOf) × IsPlanFor sizes flush_at mutations plan }
    requires some { (most : ℕ) → flush_at ≡ Some most → 1 ≤ most }
    ensures written { (mutations : List MutationOf) (options : ApplyOptions) (opened : Files)
        (made : List Change) → IsPlanFor sizes flush_at mutations plan
        → AsksFor options store.notes.sizes syncing.mode flush_at store.archives drain
        → D.files store.notes.log.disk ≡ Some opened → D.changes store.notes.log.disk ≡ Some made
        → IfOk result.1 (λ receipts. TellsWrittenShares options store.notes.base opened made
        (D.files result.0) (D.changes result.0) mutations receipts.items) }
    ensures receipts { (mutations : List MutationOf) → IsPlanFor sizes flush_at mutations plan
        → IfOk result.1 (λ r. HasReceipts sizes store.notes.base mutations r.items) }
    ensures shown { (mutations : List MutationOf) (opened : Files)
        → IsPlanFor sizes flush_at mutations plan → D.files store.notes.log.disk ≡ Some opened
        → D.lasted_at store.notes.log.disk (D.moment store.notes.log.disk)
        → LeavesShares D.files D.changes D.moment D.since D.leaves store.notes.log.disk
        result.0 (bytes_at opened) store.notes.base (is_some flush_at) store.archives drain
        sizes.writers mutations (least_of result.1 mutations) }
    ensures spent { (mutations : List MutationOf) → IsPlanFor sizes flush_at mutations plan
        → result.1 ≡ Err Spent → sizes.ordinals ≤ 1 + (2 * length mutations - 1) }
    ensures wrote { (mutations : List MutationOf) → IsPlanFor sizes flush_at mutations plan
        → WritesShares D.files D.changes store.notes.log.disk result.0 store.notes.base
        (is_some flush_at) store.archives drain sizes.writers mutations }
    ensures stay { (opened now : Files) → D.files store.notes.log.disk ≡ Some opened
        → D.files result.0 ≡ Some now → AllStay opened now }
    ensures told { SameTold (D.files store.notes.log.disk) (D.files result.0) }
    ensures later { IsLater D.moment D.read_at D.lasted_at store.notes.log.disk result.0 }
    ensures cause { HasShareCause (D.faults store.notes.log.disk) (D.faults result.0) result.1 }
{
    disks_tell_both(&store);
    disks_read_now(&store);
    // The law of what a store leaves, for the contract alone.
    stores_are_left();
    let at_open = store.fault_count();
    let base = store.base();
    let Plan {
        workers,
        room,
        receipts,
    } = plan;
    let mut receipts = receipts;
    let (store, fault) = log_shares(
        rt, alloc, store, sizes, syncing, flush_at, gate, clock, base, workers, room,
    );
    let mut store = store;
    place_receipts(base, store.logged(), receipts.as_mut_slice());
    let flushing = flush_at.is_some();
    let fault = settle_asked(alloc, &mut store, at_open, flushing, drain, fault);
    let outcome = ended(at_open, store.fault_count(), fault, receipts);
    (store.into_disk(rt), outcome)
}
