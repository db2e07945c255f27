//! A table file comes and a segment goes while further sections are kept that do not last yet. The
//! folder restores the same.
ghost use Rattle.std.specs.Prelude.{
  ◌≡◌,
  ◌≢◌,
  ◌<◌,
  ◌^◌,
  ℕ,
  List,
  Some,
  None,
  OnOk,
  OnErr,
  Err,
};
ghost use Rattle.clog_spec.specs.Names.{segment_name_of, table_name_of};
ghost use Rattle.clog_disk.specs.Causes.{Finds, HasDiskCause};
ghost use Rattle.clog_disk.specs.Changes.{Adds};
ghost use Rattle.clog_disk.specs.Files.{MayPutAt, PutsAt, SameTold};
ghost use Rattle.clog_disk.specs.Images.{IsLater, LeavesOnly, Unchanged, Elapses, TurnsTo};
ghost use Rattle.clog_disk.specs.declared.change.Change.TheVariants as change;
ghost use Rattle.clog_disk.specs.declared.disk.DiskFault.TheVariants.{
  Failed as failed,
  NoSuchFile as no_file,
};
ghost use Rattle.clog_scan.specs.Cut.{Section};
ghost use Rattle.clog_table.specs.declared.table_file.TableFile.{TableFile};
ghost use Rattle.clog_crash.specs.Log.{Write};
ghost use Rattle.clog_crash.specs.Readings.{Reading};
ghost use Rattle.clog_segments.specs.Beside.{ImagesButOne, StayButOne};
ghost use Rattle.clog_segments.specs.Coming.{MayCome, MayGo};
ghost use Rattle.clog_segments.specs.NamesLast.{EachLasts};
ghost use Rattle.clog_segments.specs.Resting.{RestsAt, ShowsBehind};

use clog_base::{Table, segment_name, table_name};
use clog_disk::{Disk, DiskFault};

/// Puts a new table file in place that is true of what lasts.
pub fn put_table<D: Disk>(
    disk: &mut D,
    table: Table,
    sequence: u64,
    bytes: &[u8],
) -> Result<(), DiskFault>
    requires starts { 0 < sequence }
    requires fits { sequence < 2 ^ 63 }
    ensures told { SameTold (D.files disk.old) (D.files disk.new) }
    ensures puts { OnOk result (PutsAt (D.files disk.old) (D.files disk.new)
        (table_name_of table.0 sequence) (Some bytes.now)) }
    ensures others { StayButOne (table_name_of table.0 sequence) (D.files disk.old)
        (D.files disk.new) }
    ensures maybe { OnErr result (MayPutAt (D.files disk.old) (D.files disk.new)
        (table_name_of table.0 sequence) (Some bytes.now)) }
    ensures elsewhere { ImagesButOne (table_name_of table.0 sequence) (D.leaves disk.old)
        (D.leaves disk.new) }
    ensures names_last { result ≢ Err failed → EachLasts (D.files disk.old) (D.leaves disk.old)
        (D.files disk.new) (D.leaves disk.new) }
    ensures adds { Adds (change.Publish (table_name_of table.0 sequence) bytes.now)
        (D.changes disk.old) (D.changes disk.new) result }
    ensures later { IsLater D.moment D.read_at D.lasted_at disk.old disk.new }
    ensures found { result ≢ Err no_file }
    ensures same { result ≢ Err failed → OnErr result (Unchanged (D.files disk.old)
        (D.files disk.new) (D.leaves disk.old) (D.leaves disk.new)) }
    ensures cause { HasDiskCause (D.faults disk.old) (D.faults disk.new) result }
    ensures comes { (r : Reading) (past : List Write) (id : ℕ) (old kept : List Section)
        (file : TableFile) → file.table ≡ table
        → MayCome (D.files disk.old) (D.leaves disk.old) r past id old kept file sequence
        bytes.now
        → OnOk result (RestsAt (D.files disk.new) (D.leaves disk.new) r past id old kept) }
    ensures refused { result ≢ Err failed → (r : Reading) (past : List Write) (id : ℕ)
        (old kept : List Section)
        → RestsAt (D.files disk.old) (D.leaves disk.old) r past id old kept
        → OnErr result (RestsAt (D.files disk.new) (D.leaves disk.new) r past id old kept) }
    ensures any_moment { (r : Reading) (past : List Write) (id : ℕ) (old kept : List Section)
        (file : TableFile) → file.table ≡ table
        → MayCome (D.files disk.old) (D.leaves disk.old) r past id old kept file sequence
        bytes.now
        → LeavesOnly D.moment D.since disk.old disk.new (ShowsBehind r past id old kept) }
    ensures time { Elapses D.moment D.since D.leaves D.read_at D.lasted_at disk.old disk.new }
    ensures crash { TurnsTo (D.leaves disk.old) (D.leaves disk.new)
        (table_name_of table.0 sequence) (Some bytes.now) }
{
    disk.publish(&table_name(table, sequence), bytes)
}

/// Takes an older segment away for all of whose cells table files stand.
pub fn take_away<D: Disk>(disk: &mut D, segment: u64) -> Result<(), DiskFault>
    ensures told { SameTold (D.files disk.old) (D.files disk.new) }
    ensures puts { OnOk result (PutsAt (D.files disk.old) (D.files disk.new)
        (segment_name_of 6 segment) None) }
    ensures others { StayButOne (segment_name_of 6 segment) (D.files disk.old)
        (D.files disk.new) }
    ensures maybe { OnErr result (MayPutAt (D.files disk.old) (D.files disk.new)
        (segment_name_of 6 segment) None) }
    ensures elsewhere { ImagesButOne (segment_name_of 6 segment) (D.leaves disk.old)
        (D.leaves disk.new) }
    ensures names_last { result ≢ Err failed → EachLasts (D.files disk.old) (D.leaves disk.old)
        (D.files disk.new) (D.leaves disk.new) }
    ensures adds { Adds (change.Remove (segment_name_of 6 segment)) (D.changes disk.old)
        (D.changes disk.new) result }
    ensures later { IsLater D.moment D.read_at D.lasted_at disk.old disk.new }
    ensures finds { Finds (D.files disk.old) (segment_name_of 6 segment) result }
    ensures same { result ≢ Err failed → OnErr result (Unchanged (D.files disk.old)
        (D.files disk.new) (D.leaves disk.old) (D.leaves disk.new)) }
    ensures cause { HasDiskCause (D.faults disk.old) (D.faults disk.new) result }
    ensures goes { (r : Reading) (past : List Write) (id : ℕ) (old kept : List Section)
        → MayGo (D.files disk.old) (D.leaves disk.old) r past id old kept segment
        → OnOk result (RestsAt (D.files disk.new) (D.leaves disk.new) r past id old kept) }
    ensures refused { result ≢ Err failed → (r : Reading) (past : List Write) (id : ℕ)
        (old kept : List Section)
        → RestsAt (D.files disk.old) (D.leaves disk.old) r past id old kept
        → OnErr result (RestsAt (D.files disk.new) (D.leaves disk.new) r past id old kept) }
    ensures any_moment { (r : Reading) (past : List Write) (id : ℕ) (old kept : List Section)
        → MayGo (D.files disk.old) (D.leaves disk.old) r past id old kept segment
        → LeavesOnly D.moment D.since disk.old disk.new (ShowsBehind r past id old kept) }
    ensures time { Elapses D.moment D.since D.leaves D.read_at D.lasted_at disk.old disk.new }
    ensures crash { TurnsTo (D.leaves disk.old) (D.leaves disk.new) (segment_name_of 6 segment)
        None }
{
    disk.remove(&segment_name(segment))
}
