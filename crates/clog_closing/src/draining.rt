//! A store is drained: a table file is put for each memtable, behind those that were put before,
//! and all segments go for which table files stand (Cassandra's `ColumnFamilyStore.forceFlush` of
//! each table, and then `CommitLog.discardCompletedSegments`, as `nodetool drain` does). The log of
//! notes stays as it is.
ghost use Rattle.std.specs.Prelude.{◌≡◌, ℕ, [], Contains, OnOk, false};
ghost use Rattle.clog_spec.specs.Sizes.{most_segments};
ghost use Rattle.clog_memtable.specs.declared.flushing.Memtable.{Memtable as memtable_type};
ghost use Rattle.clog_memtable.specs.Flushing.{FlushesAll, MayFlush, file_of};
ghost use Rattle.path_core.specs.Keeper.{Drops};
ghost use Rattle.clog_closing.specs.Beside.{HasGoodDeeds, HoldsNote};
ghost use Rattle.clog_closing.specs.Drained.{Drains, HasGoneOn, held_in};

use clog_base::MOST_SEGMENTS;
use clog_disk::Disk;
use clog_memtable::{Interval, Memtable};
use clog_store::Store;
use path_core::KeeperFault;

// Puts a table file for each memtable, in their order, up to the first that is refused.
fn flush_each<D: Disk>(store: &mut Store<D>, memtables: &[Memtable]) -> Result<(), KeeperFault>
    requires runs { store.old.notes.log.is_stopped ≡ false }
    requires may { MayFlush (held_in D.Disk D.row.coded.code store.old) memtables.now }
    ensures flushes { OnOk result (FlushesAll (held_in D.Disk D.row.coded.code store.old)
        (held_in D.Disk D.row.coded.code store.new) memtables.now) }
    ensures on { HasGoneOn D.Disk D.row.coded.code store.old store.new memtables.now result }
{
    for memtable in memtables {
        let Interval {
            table,
            lower,
            upper,
        } = memtable.interval;
        // A match in place of `?`, since the exit tells what was kept.
        match store.put_table(table, lower, upper, &memtable.cells) {
            Ok(()) => {}
            Err(fault) => return Err(fault),
        }
    }
    Ok(())
}

// Drops all segments that may go; each of them is closed.
fn drop_all<D: Disk>(store: &mut Store<D>) -> Result<(), KeeperFault>
    requires runs { store.old.notes.log.is_stopped ≡ false }
    ensures drops { OnOk result ((count : ℕ) × Drops (held_in D.Disk D.row.coded.code store.old)
        (held_in D.Disk D.row.coded.code store.new) most_segments count) }
    ensures on { HasGoneOn D.Disk D.row.coded.code store.old store.new [] result }
{
    // A match in place of `?`, since the exit tells what was kept.
    match store.drop_due(MOST_SEGMENTS) {
        Ok(_) => Ok(()),
        Err(fault) => Err(fault),
    }
}

/// Puts the table files, in their order, behind those that were put before, and drops what may go
/// then; with no memtable it only drops. The store runs, and what it has done beside its log is
/// good. Each memtable's file holds an entry. Where something is refused, what was done before it
/// stands.
pub fn drain<D: Disk>(store: &mut Store<D>, memtables: &[Memtable]) -> Result<(), KeeperFault>
    requires runs { store.old.notes.log.is_stopped ≡ false }
    requires may { MayFlush (held_in D.Disk D.row.coded.code store.old) memtables.now }
    requires holds_some { (m : memtable_type) → Contains memtables.now m
        → HoldsNote (held_in D.Disk D.row.coded.code store.old) (file_of m) }
    requires good { HasGoodDeeds (held_in D.Disk D.row.coded.code store.old) }
    ensures drains { OnOk result (Drains (held_in D.Disk D.row.coded.code store.old)
        (held_in D.Disk D.row.coded.code store.new) memtables.now) }
    ensures on { HasGoneOn D.Disk D.row.coded.code store.old store.new memtables.now result }
{
    // A match in place of `?`, since the exit tells what was kept.
    match flush_each(store, memtables) {
        Ok(()) => drop_all(store),
        Err(fault) => Err(fault),
    }
}
