//! A folder in which everything lasts is recovered: table files come, and then segments go. After
//! each change, and in each image of a crash, it restores the same.
ghost use Rattle.std.specs.Prelude.{
  ◌≡◌,
  ◌≢◌,
  ◌<◌,
  ◌^◌,
  [],
  ◌∷◌,
  ℕ,
  List,
  Some,
  None,
  Err,
  IfSome,
  OnErr,
  OnOk,
};
ghost use Rattle.clog_spec.specs.Names.{segment_name_of, table_name_of};
ghost use Rattle.clog_disk.specs.Causes.{HasDiskCause};
ghost use Rattle.clog_disk.specs.Changes.{Adds};
ghost use Rattle.clog_disk.specs.Files.{Files, MayPutAt, PutsAt, SameTold, Told};
ghost use Rattle.clog_disk.specs.Images.{IsLater, LeavesOnly};
ghost use Rattle.clog_disk.specs.declared.change.Change.TheVariants as change;
ghost use Rattle.clog_disk.specs.declared.disk.DiskFault.TheVariants.{NoSuchFile as no_file};
ghost use Rattle.clog_table.specs.declared.table_file.TableFile.{TableFile};
ghost use Rattle.clog_crash.specs.Flush.{IsSameFolder};
ghost use Rattle.clog_crash.specs.Folder.{IsHeld};
ghost use Rattle.clog_segments.specs.Beside.{StayButOne, StayButSegments};
ghost use Rattle.clog_segments.specs.Coming.{
  AreGone,
  AreThere,
  IsRecovering,
  MayComeHere,
  MayComeTo,
  Recovers,
  RemovesFirst,
};
ghost use Rattle.clog_segments.specs.Filing.{IsRecoveryPut, LeavesFrom, StaysFrom};

use clog_base::{Table, segment_name, table_name};
use clog_disk::{Disk, DiskFault};

/// Puts a new table file in place that is true of the folder.
pub fn put_recovered<D: Disk>(
    disk: &mut D,
    table: Table,
    sequence: u64,
    bytes: &[u8],
) -> Result<(), DiskFault>
    requires starts { 0 < sequence }
    requires fits { sequence < 2 ^ 63 }
    ensures told { SameTold (D.files disk.old) (D.files disk.new) }
    ensures puts { OnOk result (PutsAt (D.files disk.old) (D.files disk.new)
        (table_name_of table.0 sequence) (Some bytes.now)) }
    ensures others { StayButOne (table_name_of table.0 sequence) (D.files disk.old)
        (D.files disk.new) }
    ensures maybe { OnErr result (MayPutAt (D.files disk.old) (D.files disk.new)
        (table_name_of table.0 sequence) (Some bytes.now)) }
    ensures adds { Adds (change.Publish (table_name_of table.0 sequence) bytes.now)
        (D.changes disk.old) (D.changes disk.new) result }
    ensures later { IsLater D.moment D.read_at D.lasted_at disk.old disk.new }
    ensures cause { HasDiskCause (D.faults disk.old) (D.faults disk.new) result }
    ensures found { result ≢ Err no_file }
    ensures comes { (first : Files) (file : TableFile) → file.table ≡ table
        → MayComeHere first (D.files disk.old) (D.leaves disk.old) file sequence bytes.now
        → OnOk result (IsRecovering first (D.files disk.new) (D.leaves disk.new) []) }
    ensures files { (first : Files) (file : TableFile) → file.table ≡ table
        → MayComeTo first (D.files disk.old) file sequence bytes.now
        → Told (D.files disk.new) (IsSameFolder first) }
    ensures any_moment { (first : Files) (file : TableFile) → file.table ≡ table
        → MayComeHere first (D.files disk.old) (D.leaves disk.old) file sequence bytes.now
        → LeavesOnly D.moment D.since disk.old disk.new (IsSameFolder first) }
    ensures from { (first : Files)
        → IsRecoveryPut first (table_name_of table.0 sequence) bytes.now
        → LeavesFrom first (D.leaves disk.old)
        → StaysFrom D.moment D.since D.leaves first disk.old disk.new }
{
    disk.publish(&table_name(table, sequence), bytes)
}

/// Takes a segment away for all of whose cells table files stand. For others they then still do.
pub fn take_recovered<D: Disk>(disk: &mut D, segment: u64) -> Result<(), DiskFault>
    requires there { IfSome (D.files disk.old) (λ f. IsHeld f (segment_name_of 6 segment)) }
    ensures told { SameTold (D.files disk.old) (D.files disk.new) }
    ensures puts { OnOk result (PutsAt (D.files disk.old) (D.files disk.new)
        (segment_name_of 6 segment) None) }
    ensures others { StayButOne (segment_name_of 6 segment) (D.files disk.old)
        (D.files disk.new) }
    ensures adds { Adds (change.Remove (segment_name_of 6 segment)) (D.changes disk.old)
        (D.changes disk.new) result }
    ensures later { IsLater D.moment D.read_at D.lasted_at disk.old disk.new }
    ensures cause { HasDiskCause (D.faults disk.old) (D.faults disk.new) result }
    ensures found { result ≢ Err no_file }
    ensures goes { (first : Files) (others : List ℕ)
        → IsRecovering first (D.files disk.old) (D.leaves disk.old) (segment ∷ others)
        → OnOk result (IsRecovering first (D.files disk.new) (D.leaves disk.new) others) }
    ensures files { (first : Files) (others : List ℕ)
        → Recovers first (D.files disk.old) (segment ∷ others)
        → Recovers first (D.files disk.new) others }
    ensures any_moment { (first : Files) (others : List ℕ)
        → IsRecovering first (D.files disk.old) (D.leaves disk.old) (segment ∷ others)
        → LeavesOnly D.moment D.since disk.old disk.new (IsSameFolder first) }
    ensures from { (first : Files) → LeavesFrom first (D.leaves disk.old)
        → StaysFrom D.moment D.since D.leaves first disk.old disk.new }
{
    disk.remove(&segment_name(segment))
}

/// Takes segments away, in the order in which they are given, for all of whose cells table files
/// stand. It goes on until one is refused.
pub fn take_all_recovered<D: Disk>(disk: &mut D, segments: &[u64]) -> Result<(), DiskFault>
    requires there { IfSome (D.files disk.old) (λ f. AreThere f segments.now) }
    ensures told { SameTold (D.files disk.old) (D.files disk.new) }
    ensures later { IsLater D.moment D.read_at D.lasted_at disk.old disk.new }
    ensures cause { HasDiskCause (D.faults disk.old) (D.faults disk.new) result }
    ensures found { result ≢ Err no_file }
    ensures others { StayButSegments segments.now (D.files disk.old) (D.files disk.new) }
    ensures removes { RemovesFirst segments.now (D.changes disk.old) (D.changes disk.new) result }
    ensures files { (first : Files) → Recovers first (D.files disk.old) segments.now
        → Told (D.files disk.new) (IsSameFolder first) }
    ensures go { (first : Files)
        → IsRecovering first (D.files disk.old) (D.leaves disk.old) segments.now
        → OnOk result (IsRecovering first (D.files disk.new) (D.leaves disk.new) []) }
    ensures gone { OnOk result (AreGone (D.files disk.old) (D.files disk.new) segments.now) }
    ensures any_moment { (first : Files)
        → IsRecovering first (D.files disk.old) (D.leaves disk.old) segments.now
        → LeavesOnly D.moment D.since disk.old disk.new (IsSameFolder first) }
    ensures from { (first : Files) → LeavesFrom first (D.leaves disk.old)
        → StaysFrom D.moment D.since D.leaves first disk.old disk.new }
{
    for segment in segments {
        take_recovered(disk, *segment)?;
    }
    Ok(())
}
