//! The steps by which sections come to last: their bytes are kept behind those of the segment, and
//! then made to last. A store changes its own numbers between the two.
ghost use Rattle.std.specs.Prelude.{
  ◌≡◌,
  ◌≢◌,
  ◌+◌,
  ◌++◌,
  [],
  ℕ,
  List,
  length,
  OnOk,
  OnErr,
  Err,
  Some,
};
ghost use Rattle.clog_spec.specs.Names.{segment_name_of};
ghost use Rattle.clog_disk.specs.Causes.{Finds, HasDiskCause};
ghost use Rattle.clog_disk.specs.Changes.{Adds};
ghost use Rattle.clog_disk.specs.Files.{AppendsTo, Files, IsEnd, MayAppend, SameTold};
ghost use Rattle.clog_disk.specs.Images.{
  IsLater,
  Lasts,
  LeavesOnly,
  SameImages,
  Within,
  Elapses,
};
ghost use Rattle.clog_disk.specs.declared.change.Change.TheVariants as change;
ghost use Rattle.clog_disk.specs.declared.disk.DiskFault.TheVariants.{
  Failed as failed,
  NoSuchFile as no_file,
};
ghost use Rattle.clog_scan.specs.Cut.{Section};
ghost use Rattle.clog_crash.specs.Log.{Write};
ghost use Rattle.clog_crash.specs.Readings.{Reading};
ghost use Rattle.clog_crash.specs.Sections.{Brings};
ghost use Rattle.clog_segments.specs.AtMost.{AddsOnly, IsUpToAt};
ghost use Rattle.clog_segments.specs.Beside.{ImagesButOne, StayButOne};
ghost use Rattle.clog_segments.specs.Resting.{RestsAt, ShowsBehind};

use clog_base::segment_name;
use clog_disk::{Disk, DiskFault};

/// Puts the bytes of further sections behind those of a segment, whose file has this size. They are
/// kept, and do not last yet. Where it is refused for memory nothing has changed.
pub fn keep_sections<D: Disk>(
    disk: &mut D,
    id: u64,
    size: u64,
    bytes: &[u8],
) -> Result<(), DiskFault>
    requires end { IsEnd (D.files disk.old) (segment_name_of 6 id) size }
    ensures told { SameTold (D.files disk.old) (D.files disk.new) }
    ensures appends { OnOk result (AppendsTo (D.files disk.old) (D.files disk.new)
        (segment_name_of 6 id) bytes.now) }
    ensures adds { Adds (change.Append (segment_name_of 6 id) bytes.now) (D.changes disk.old)
        (D.changes disk.new) result }
    ensures later { IsLater D.moment D.read_at D.lasted_at disk.old disk.new }
    ensures cause { HasDiskCause (D.faults disk.old) (D.faults disk.new) result }
    ensures found { result ≢ Err no_file }
    ensures others { StayButOne (segment_name_of 6 id) (D.files disk.old) (D.files disk.new) }
    ensures maybe { OnErr result (MayAppend (D.files disk.old) (D.files disk.new)
        (segment_name_of 6 id) (length bytes.now)) }
    ensures elsewhere { (f : Files) → D.files disk.old ≡ Some f
        → ImagesButOne (segment_name_of 6 id) (D.leaves disk.old) (D.leaves disk.new) }
    ensures kept { (r : Reading) (past : List Write) (old kept new : List Section)
        → Brings id old kept new bytes.now
        → RestsAt (D.files disk.old) (D.leaves disk.old) r past id old kept
        → OnOk result
        (RestsAt (D.files disk.new) (D.leaves disk.new) r past id old (kept ++ new)) }
    ensures same { result ≢ Err failed → OnErr result (D.files disk.new ≡ D.files disk.old) }
    ensures images { result ≢ Err failed
        → OnErr result (SameImages (D.leaves disk.old) (D.leaves disk.new)) }
    ensures refused { result ≢ Err failed → (r : Reading) (past : List Write) (at : ℕ)
        (old kept : List Section)
        → RestsAt (D.files disk.old) (D.leaves disk.old) r past at old kept
        → OnErr result (RestsAt (D.files disk.new) (D.leaves disk.new) r past at old kept
        × LeavesOnly D.moment D.since disk.old disk.new (ShowsBehind r past at old kept)) }
    ensures any_moment { (r : Reading) (past : List Write) (old kept new : List Section)
        → Brings id old kept new bytes.now
        → RestsAt (D.files disk.old) (D.leaves disk.old) r past id old kept
        → LeavesOnly D.moment D.since disk.old disk.new
        (ShowsBehind r past id old (kept ++ new)) }
    ensures time { Elapses D.moment D.since D.leaves D.read_at D.lasted_at disk.old disk.new }
    ensures adds_only { (f : Files) → D.files disk.old ≡ Some f
        → AddsOnly D.files D.moment D.since D.leaves disk.old disk.new
        (IsUpToAt (segment_name_of 6 id) (size + length bytes.now)) }
{
    disk.append_at(&segment_name(id), size, bytes)
}

/// Makes the sections last that are kept. Where it is refused, for whatever cause, nothing has
/// changed.
pub fn settle_sections<D: Disk>(disk: &mut D, id: u64) -> Result<(), DiskFault>
    ensures same { D.files disk.new ≡ D.files disk.old }
    ensures quiet { D.changes disk.new ≡ D.changes disk.old }
    ensures later { IsLater D.moment D.read_at D.lasted_at disk.old disk.new }
    ensures cause { HasDiskCause (D.faults disk.old) (D.faults disk.new) result }
    ensures finds { Finds (D.files disk.old) (segment_name_of 6 id) result }
    ensures here { OnOk result (Lasts (D.files disk.old) (D.leaves disk.new)
        (segment_name_of 6 id)) }
    ensures fewer { Within (D.leaves disk.old) (D.leaves disk.new) }
    ensures lasts { (r : Reading) (past : List Write) (old kept : List Section)
        → RestsAt (D.files disk.old) (D.leaves disk.old) r past id old kept
        → OnOk result
        (RestsAt (D.files disk.new) (D.leaves disk.new) r past id (old ++ kept) []) }
    ensures refused { (r : Reading) (past : List Write) (old kept : List Section)
        → RestsAt (D.files disk.old) (D.leaves disk.old) r past id old kept
        → OnErr result (RestsAt (D.files disk.new) (D.leaves disk.new) r past id old kept) }
    ensures any_moment { (r : Reading) (past : List Write) (old kept : List Section)
        → RestsAt (D.files disk.old) (D.leaves disk.old) r past id old kept
        → LeavesOnly D.moment D.since disk.old disk.new (ShowsBehind r past id old kept) }
    ensures time { Elapses D.moment D.since D.leaves D.read_at D.lasted_at disk.old disk.new }
{
    disk.sync(&segment_name(id))
}
