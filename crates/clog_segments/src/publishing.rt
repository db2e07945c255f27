//! A table file is put for an interval of the log up to which the log lasts. Its bytes are made
//! first; then one call of the disk puts it in place. A crash meanwhile leaves a folder that
//! restores the same.
ghost use Rattle.std.specs.Prelude.{◌≡◌, ◌≢◌, ℕ, List, Some, None, Err, OnOk, OnErr};
ghost use Rattle.std.specs.FinMap as finmap;
ghost use Rattle.clog_spec.specs.Names.{table_name_of};
ghost use Rattle.clog_disk.specs.Causes.{HasDiskCause};
ghost use Rattle.clog_disk.specs.Files.{Files, SameTold};
ghost use Rattle.clog_disk.specs.Images.{Elapses, IsLater, LeavesOnly, Unchanged};
ghost use Rattle.clog_disk.specs.declared.disk.DiskFault.TheVariants.{
  Failed as failed,
  NoSuchFile as no_file,
};
ghost use Rattle.clog_scan.specs.Cut.{Section};
ghost use Rattle.clog_crash.specs.Changes.{IsTrueOf};
ghost use Rattle.clog_crash.specs.Log.{Write};
ghost use Rattle.clog_crash.specs.Readings.{Reading};
ghost use Rattle.path_core.specs.Keeper.{Holding, MayPublish, PutFile};
ghost use Rattle.clog_segments.specs.AtMost.{AddsOnly, IsFileAt};
ghost use Rattle.clog_segments.specs.Beside.{ImagesButOne, StayButOne};
ghost use Rattle.clog_segments.specs.NamesLast.{EachLasts};
ghost use Rattle.clog_segments.specs.OnDisk.{IsAllOnDisk, file_on};
ghost use Rattle.clog_segments.specs.Publishes.{
  HasCome,
  IsNumbered,
  MayHaveCome,
  MayPut,
  file_at,
};
ghost use Rattle.clog_segments.specs.Resting.{RestsAt, ShowsBehind};

use crate::changing::put_table;
use clog_base::{Key, Table};
use clog_cells::CellMap;
use clog_disk::{Disk, DiskFault};
use clog_table::encode_parts;
use std::alloc::Global;

/// A table file that was put: it stands for the entries of its table that end above the one key
/// and not above the other.
#[derive(Clone, Copy, Debug, PartialEq, Eq)]
pub struct Published {
    /// The table.
    pub table: Table,
    /// The key that is not in its interval.
    pub lower: Key,
    /// The last key that is.
    pub upper: Key,
}

/// Puts the file of an interval with these cells. The segment of ordinal 0 has the id `base`, and
/// the sequence is that of the file's name, which is free.
pub fn publish_file<D: Disk>(
    alloc: Global,
    disk: &mut D,
    base: u64,
    sequence: u64,
    file: Published,
    cells: &CellMap,
) -> Result<(), DiskFault>
    requires { IsNumbered base sequence file cells.now }
    ensures told { SameTold (D.files disk.old) (D.files disk.new) }
    ensures later { IsLater D.moment D.read_at D.lasted_at disk.old disk.new }
    ensures cause { HasDiskCause (D.faults disk.old) (D.faults disk.new) result }
    ensures found { result ≢ Err no_file }
    ensures comes { OnOk result (HasCome (D.files disk.old) (D.files disk.new)
        (D.changes disk.old) (D.changes disk.new) (file_at base file cells.now) sequence) }
    ensures quiet { OnErr result (D.changes disk.new ≡ D.changes disk.old) }
    ensures others { StayButOne (table_name_of file.table.0 sequence) (D.files disk.old)
        (D.files disk.new) }
    ensures maybe { OnErr result (MayHaveCome (D.files disk.old) (D.files disk.new)
        (file_at base file cells.now) sequence) }
    ensures elsewhere { ImagesButOne (table_name_of file.table.0 sequence) (D.leaves disk.old)
        (D.leaves disk.new) }
    ensures names_last { result ≢ Err failed → EachLasts (D.files disk.old) (D.leaves disk.old)
        (D.files disk.new) (D.leaves disk.new) }
    ensures same { result ≢ Err failed → OnErr result (Unchanged (D.files disk.old)
        (D.files disk.new) (D.leaves disk.old) (D.leaves disk.new)) }
    ensures rests { (r : Reading) (past : List Write) (id : ℕ) (old kept : List Section)
        → MayPut (D.files disk.old) (D.leaves disk.old) r past id old kept
        (file_at base file cells.now) sequence
        → OnOk result (RestsAt (D.files disk.new) (D.leaves disk.new) r past id old kept) }
    ensures refused { result ≢ Err failed → (r : Reading) (past : List Write) (id : ℕ)
        (old kept : List Section)
        → RestsAt (D.files disk.old) (D.leaves disk.old) r past id old kept
        → OnErr result (RestsAt (D.files disk.new) (D.leaves disk.new) r past id old kept) }
    ensures any_moment { (r : Reading) (past : List Write) (id : ℕ) (old kept : List Section)
        → MayPut (D.files disk.old) (D.leaves disk.old) r past id old kept
        (file_at base file cells.now) sequence
        → LeavesOnly D.moment D.since disk.old disk.new (ShowsBehind r past id old kept) }
    ensures time { Elapses D.moment D.since D.leaves D.read_at D.lasted_at disk.old disk.new }
    ensures adds_only { (f : Files) → D.files disk.old ≡ Some f
        → finmap.get f (table_name_of file.table.0 sequence) ≡ None
        → AddsOnly D.files D.moment D.since D.leaves disk.old disk.new
        (IsFileAt (table_name_of file.table.0 sequence) (file_at base file cells.now)) }
{
    let lower = file.lower.position(base);
    let upper = file.upper.position(base);
    let Ok(bytes) = encode_parts(alloc, file.table, lower, upper, cells) else {
        return Err(DiskFault::OutOfMemory);
    };
    put_table(disk, file.table, sequence, &bytes)
}

/// What a keeper may put is true of the folder, where that holds what the keeper has in mind: so
/// the folder restores the same with it.
pub fn what_may_be_published_is_true()
    ensures { (h : Holding) (f : PutFile) (r : Reading) → IsAllOnDisk h r → MayPublish h f
        → IsTrueOf r (file_on h.base f) }
{}
