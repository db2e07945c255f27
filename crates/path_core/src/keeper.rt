//! What makes a path's log lasting: the trait of the keeper that a path is lent.
//!
//! A keeper writes entries of the log in sections, each up to a marker, puts table files, and drops
//! segments whose entries table files hold. What it holds is one record, so that a path can say of
//! it what it must show.
ghost use Rattle.std.specs.Prelude.{◌≡◌, IfOk, OnOk, OnErr};
ghost use Rattle.path_core.specs.Keeper.{
  Holding,
  MaySync,
  Syncs,
  SyncRefused,
  MayPublish,
  Publishes,
  PublishRefused,
  Drops,
  DropRefused,
  HasKeeperCause,
};

use crate::note::EntryNote;
use clog_base::{Key, OutOfMemory, Table};
use clog_cells::CellMap;
use std::alloc::{AllocError, AllocFailed};

/// Why a call of a keeper did nothing, or not all.
#[derive(Clone, Copy, Debug, PartialEq, Eq)]
pub enum KeeperFault {
    /// Its disk has failed, and it does nothing more.
    Stopped {
        /// The disk's count of faults when the keeper was opened.
        at_open: u64,
        /// The count now, which is greater, unless the first one was the greatest `u64`.
        now: u64,
    },
    /// Memory was refused.
    OutOfMemory,
}

impl From<AllocError> for KeeperFault {
    ghost use Rattle.path_core.specs.declared.keeper.KeeperFault.TheVariants.{
      OutOfMemory as no_memory,
    };

    ghost from_gives = { λ _ e. e ≡ no_memory };

    fn from(_: AllocError) -> Self {
        KeeperFault::OutOfMemory
    }
}

impl From<OutOfMemory> for KeeperFault {
    ghost use Rattle.path_core.specs.declared.keeper.KeeperFault.TheVariants.{
      OutOfMemory as no_memory,
    };

    ghost from_gives = { λ _ e. e ≡ no_memory };

    fn from(_: OutOfMemory) -> Self {
        KeeperFault::OutOfMemory
    }
}

impl<T: Drop> From<AllocFailed<T>> for KeeperFault {
    ghost use Rattle.path_core.specs.declared.keeper.KeeperFault.TheVariants.{
      OutOfMemory as no_memory,
    };

    ghost from_gives = { λ _ e. e ≡ no_memory };

    fn from(_: AllocFailed<T>) -> Self {
        KeeperFault::OutOfMemory
    }
}

/// A keeper of a log, its table files and its segments. After `Stopped` each call answers so; after
/// `OutOfMemory` the call may be made again. No call changes its base, sizes and opening.
pub trait Keeper {
    /// What it holds.
    ghost holds: { Self → Holding };

    /// Makes all pending entries up to `upto` lasting, and keeps the others pending. Up to `upto`,
    /// where a marker starts, the entries stand behind the synced key without a gap but for markers
    /// and the ends of segments, and each is whole. After a refusal all are pending; sections that
    /// its disk took stay, and the next call goes on behind them.
    fn sync(&mut self, pending: &mut Vec<EntryNote>, upto: Key) -> Result<(), KeeperFault>
        requires { MaySync (holds self.old) upto.0 pending.old.items }
        ensures syncs { OnOk result (Syncs (holds self.old) (holds self.new) upto.0
            pending.old.items pending.new.items) }
        ensures refused { OnErr result (SyncRefused (holds self.old) (holds self.new) upto.0
            pending.old.items pending.new.items) }
        ensures cause { HasKeeperCause (holds self.old) (holds self.new) result };

    /// Puts a table file for the entries of the table that end above `lower` and not above `upper`.
    /// The log is lasting up to `upper`, and `lower` is the upper key of the table's last file, 0
    /// where it has none.
    fn publish(
        &mut self,
        table: Table,
        lower: Key,
        upper: Key,
        cells: &CellMap,
    ) -> Result<(), KeeperFault>
        requires { MayPublish (holds self.old) (record {
          table = table.0;
          lower = lower.0;
          upper = upper.0;
          cells = cells.now;
        }) }
        ensures publishes { OnOk result (Publishes (holds self.old) (holds self.new) (record {
          table = table.0;
          lower = lower.0;
          upper = upper.0;
          cells = cells.now;
        })) }
        ensures refused { OnErr result (PublishRefused (holds self.old) (holds self.new) (record {
          table = table.0;
          lower = lower.0;
          upper = upper.0;
          cells = cells.now;
        })) }
        ensures cause { HasKeeperCause (holds self.old) (holds self.new) result };

    /// Drops the droppable segments of ordinals below `closed` that were not dropped before, in the
    /// order of their ids, and answers how many. After a refusal the first of them were dropped.
    /// A segment is droppable here whose entries that are lasting lie in table files and of which
    /// none is kept, so `closed` is to be at most the ordinal of the synced key, or one more than
    /// the last one of the log once all of it is lasting.
    fn discard(&mut self, closed: u32) -> Result<u32, KeeperFault>
        ensures drops { IfOk result (Drops (holds self.old) (holds self.new) closed) }
        ensures refused { OnErr result (DropRefused (holds self.old) (holds self.new) closed) }
        ensures cause { HasKeeperCause (holds self.old) (holds self.new) result };

    /// Its disk's count of faults when it was opened.
    fn at_open(&self) -> u64
        ensures { result ≡ (holds self.now).at_open };
}
