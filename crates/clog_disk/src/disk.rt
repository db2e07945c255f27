//! What a disk does, what a crash may leave of it, and when it fails.
//!
//! A crash leaves an image: each name is gone or has bytes that are possible for it. The files as
//! they read now are always one of the images of now. Time counts in moments, and the images since
//! a moment are those of each moment from it on, within the calls too.
//!
//! The changes are the calls that answered Ok and may have changed a file. They are told for those
//! who want to know in which order files came and went.
ghost use Rattle.std.specs.Prelude.{
  ◌≡◌,
  ◌≢◌,
  ◌≤◌,
  ◌↔◌,
  ℕ,
  List,
  length,
  Option,
  Some,
  None,
  is_some,
  option_map,
  Err,
  IfOk,
  IfSome,
  OnOk,
  OnErr,
};
ghost use Rattle.clog_disk.specs.Files.{
  Files,
  bytes_at,
  at_name,
  IsEnd,
  AppendsTo,
  MayAppend,
  Lists,
  IsLength,
  Reads,
  SameTold,
  PutsAt,
  MayPutAt,
};
ghost use Rattle.clog_disk.specs.Images.{
  LastsAll,
  IsImage,
  Within,
  SameImages,
  Unchanged,
  Lasts,
  LastsAs,
  LastsLike,
  Tears,
  TurnsTo,
  TurnsLike,
  Elapses,
};
ghost use Rattle.clog_disk.specs.Changes.{Adds, count_of};
ghost use Rattle.clog_disk.specs.declared.change.Change.{Change as change_type};
ghost use Rattle.clog_disk.specs.declared.change.Change.TheVariants as change;
ghost use Rattle.clog_disk.specs.Causes.{HasDiskCause, Finds, StaysReliable};
ghost use Rattle.clog_disk.specs.declared.disk.DiskFault.TheVariants.{
  Failed as failed,
  NoSuchFile as no_file,
};

use clog_base::{Name, Rows};
use std::alloc::{AllocError, AllocFailed};

/// Why a call of a disk did nothing, or not all.
#[derive(Clone, Copy, Debug, PartialEq, Eq)]
pub enum DiskFault {
    /// The disk has failed, and has counted it.
    Failed,
    /// The disk tells its files, and has none of this name. It is no failure and is not counted.
    NoSuchFile,
    /// Memory was refused.
    OutOfMemory,
}

impl From<AllocError> for DiskFault {
    ghost use Rattle.clog_disk.specs.declared.disk.DiskFault.TheVariants.{
      OutOfMemory as no_memory,
    };

    ghost from_gives = { λ _ e. e ≡ no_memory };

    fn from(_: AllocError) -> Self {
        DiskFault::OutOfMemory
    }
}

impl<T: Drop> From<AllocFailed<T>> for DiskFault {
    ghost use Rattle.clog_disk.specs.declared.disk.DiskFault.TheVariants.{
      OutOfMemory as no_memory,
    };

    ghost from_gives = { λ _ e. e ≡ no_memory };

    fn from(_: AllocFailed<T>) -> Self {
        DiskFault::OutOfMemory
    }
}

/// Files by name. After `OutOfMemory` and `NoSuchFile` no file and no image has changed.
pub trait Disk {
    /// The files as they read now, where the disk tells them.
    ghost files: { Self → Option Files };

    /// The calls that answered Ok and may have changed a file, in order, where the disk tells them.
    ghost changes: { Self → Option (List change_type) };

    /// What a crash now may leave of a name: nothing there, or these bytes. An image is one such
    /// for each name.
    ghost leaves: { Self → List ℕ → Option (List ℕ) → Type 0 };

    /// The moment, as a number that does not fall.
    ghost moment: { Self → ℕ };

    /// The images since a moment: what a crash at some moment from that one on might have left.
    ghost since: { Self → ℕ → Files → Type 0 };

    /// How each name read at a moment, where the disk tells its files.
    ghost read_at: { Self → ℕ → Option (List ℕ → List ℕ) };

    /// That at a moment all lasted: a crash then left just what was read.
    ghost lasted_at: { Self → ℕ → Type 0 };

    /// How often it has failed.
    ghost faults: { Self → ℕ };

    /// That no call from now on answers `Failed`, where it knows this.
    ghost reliable: { Self → Type 0 } = { λ _. ⊥ };

    /// All names of files that are a `Name`, ascending by their bytes.
    fn list(&mut self) -> Result<Rows<Name>, DiskFault>
        ensures names { IfOk result (λ names. Lists (files self.old) names) }
        ensures same { Unchanged (files self.old) (files self.new) (leaves self.old)
            (leaves self.new) }
        ensures quiet { changes self.new ≡ changes self.old }
        ensures time { Elapses moment since leaves read_at lasted_at self.old
            self.new }
        ensures found { result ≢ Err no_file }
        ensures cause { HasDiskCause (faults self.old) (faults self.new) result }
        ensures reliable { reliable self.old → StaysReliable (reliable self.new) result };

    /// The length of a file, in bytes.
    fn len(&mut self, name: &Name) -> Result<u64, DiskFault>
        ensures length { IfOk result (IsLength (files self.old) name.now) }
        ensures same { Unchanged (files self.old) (files self.new) (leaves self.old)
            (leaves self.new) }
        ensures quiet { changes self.new ≡ changes self.old }
        ensures time { Elapses moment since leaves read_at lasted_at self.old
            self.new }
        ensures finds { Finds (files self.old) name.now result }
        ensures cause { HasDiskCause (faults self.old) (faults self.new) result }
        ensures reliable { reliable self.old → StaysReliable (reliable self.new) result };

    /// The bytes of a file from `at` on: `count` of them, or fewer where the file ends before.
    fn read(&mut self, name: &Name, at: u64, count: u32) -> Result<Vec<u8>, DiskFault>
        ensures bytes { IfOk result (λ bytes.
            Reads (files self.old) name.now at count bytes.items) }
        ensures few { IfOk result (λ bytes. length bytes.items ≤ count) }
        ensures same { Unchanged (files self.old) (files self.new) (leaves self.old)
            (leaves self.new) }
        ensures quiet { changes self.new ≡ changes self.old }
        ensures time { Elapses moment since leaves read_at lasted_at self.old
            self.new }
        ensures finds { Finds (files self.old) name.now result }
        ensures cause { HasDiskCause (faults self.old) (faults self.new) result }
        ensures reliable { reliable self.old → StaysReliable (reliable self.new) result };

    /// Puts bytes at the end of a file, which is made where it is absent. `at` is its length, 0
    /// where it is absent. Until the file is synced, a crash may leave any bytes from the old end
    /// on, or fewer; after `Failed` the files too may hold any bytes there, up to as many.
    fn append_at(&mut self, name: &Name, at: u64, bytes: &[u8]) -> Result<(), DiskFault>
        requires { IsEnd (files self.old) name.now at }
        ensures told { SameTold (files self.old) (files self.new) }
        ensures appends { OnOk result (AppendsTo (files self.old) (files self.new) name.now
            bytes.now) }
        ensures maybe { OnErr result (MayAppend (files self.old) (files self.new) name.now
            (length bytes.now)) }
        ensures adds { Adds (change.Append name.now bytes.now) (changes self.old)
            (changes self.new) result }
        ensures crash { Tears (files self.old) (leaves self.old) (leaves self.new) name.now
            (length bytes.now) }
        ensures refused { result ≢ Err failed → OnErr result (Unchanged (files self.old)
            (files self.new) (leaves self.old) (leaves self.new)) }
        ensures time { Elapses moment since leaves read_at lasted_at self.old
            self.new }
        ensures found { result ≢ Err no_file }
        ensures cause { HasDiskCause (faults self.old) (faults self.new) result }
        ensures reliable { reliable self.old → StaysReliable (reliable self.new) result };

    /// Makes a file's bytes lasting, and its name. After a refusal the images are as before.
    fn sync(&mut self, name: &Name) -> Result<(), DiskFault>
        ensures lasts { OnOk result (Lasts (files self.old) (leaves self.new) name.now) }
        ensures same { files self.new ≡ files self.old }
        ensures quiet { changes self.new ≡ changes self.old }
        ensures crash { Within (leaves self.old) (leaves self.new) }
        ensures refused { OnErr result (SameImages (leaves self.old) (leaves self.new)) }
        ensures time { Elapses moment since leaves read_at lasted_at self.old
            self.new }
        ensures finds { Finds (files self.old) name.now result }
        ensures cause { HasDiskCause (faults self.old) (faults self.new) result }
        ensures reliable { reliable self.old → StaysReliable (reliable self.new) result };

    /// Makes all files lasting, and their names: a crash then leaves just what is read. After a
    /// refusal some may last that did not.
    fn settle(&mut self) -> Result<(), DiskFault>
        ensures lasts { OnOk result (IfSome (files self.old) (λ f. LastsAll f
            (leaves self.new))) }
        ensures same { files self.new ≡ files self.old }
        ensures quiet { changes self.new ≡ changes self.old }
        ensures crash { Within (leaves self.old) (leaves self.new) }
        ensures refused { result ≢ Err failed → OnErr result (SameImages (leaves self.old)
            (leaves self.new)) }
        ensures time { Elapses moment since leaves read_at lasted_at self.old
            self.new }
        ensures found { result ≢ Err no_file }
        ensures cause { HasDiskCause (faults self.old) (faults self.new) result }
        ensures reliable { reliable self.old → StaysReliable (reliable self.new) result };

    /// Puts a file in place with these bytes, lasting, over what stands there. A crash meanwhile,
    /// and `Failed`, leave the name as it was or with all of the bytes.
    fn publish(&mut self, name: &Name, bytes: &[u8]) -> Result<(), DiskFault>
        ensures told { SameTold (files self.old) (files self.new) }
        ensures puts { OnOk result (PutsAt (files self.old) (files self.new) name.now
            (Some bytes.now)) }
        ensures maybe { OnErr result (MayPutAt (files self.old) (files self.new) name.now
            (Some bytes.now)) }
        ensures adds { Adds (change.Publish name.now bytes.now) (changes self.old)
            (changes self.new) result }
        ensures lasts { OnOk result (LastsAs (leaves self.new) name.now (Some bytes.now)) }
        ensures crash { TurnsTo (leaves self.old) (leaves self.new) name.now (Some bytes.now) }
        ensures refused { result ≢ Err failed → OnErr result (Unchanged (files self.old)
            (files self.new) (leaves self.old) (leaves self.new)) }
        ensures time { Elapses moment since leaves read_at lasted_at self.old
            self.new }
        ensures found { result ≢ Err no_file }
        ensures cause { HasDiskCause (faults self.old) (faults self.new) result }
        ensures reliable { reliable self.old → StaysReliable (reliable self.new) result };

    /// Removes a file, so that it stays gone. A crash meanwhile, and `Failed`, leave it as it was
    /// or gone.
    fn remove(&mut self, name: &Name) -> Result<(), DiskFault>
        ensures told { SameTold (files self.old) (files self.new) }
        ensures puts { OnOk result (PutsAt (files self.old) (files self.new) name.now None) }
        ensures maybe { OnErr result (MayPutAt (files self.old) (files self.new) name.now None) }
        ensures adds { Adds (change.Remove name.now) (changes self.old) (changes self.new)
            result }
        ensures lasts { OnOk result (LastsAs (leaves self.new) name.now None) }
        ensures crash { TurnsTo (leaves self.old) (leaves self.new) name.now None }
        ensures refused { result ≢ Err failed → OnErr result (Unchanged (files self.old)
            (files self.new) (leaves self.old) (leaves self.new)) }
        ensures time { Elapses moment since leaves read_at lasted_at self.old
            self.new }
        ensures finds { Finds (files self.old) name.now result }
        ensures cause { HasDiskCause (faults self.old) (faults self.new) result }
        ensures reliable { reliable self.old → StaysReliable (reliable self.new) result };

    /// Gives what a file holds to a second name too, lasting there, over what stands there. A crash
    /// meanwhile, and `Failed`, leave the second name as it was or with all of the bytes.
    fn link(&mut self, name: &Name, second: &Name) -> Result<(), DiskFault>
        ensures told { SameTold (files self.old) (files self.new) }
        ensures puts { OnOk result (PutsAt (files self.old) (files self.new) second.now
            (at_name (files self.old) name.now)) }
        ensures maybe { OnErr result (MayPutAt (files self.old) (files self.new) second.now
            (at_name (files self.old) name.now)) }
        ensures adds { Adds (change.Link name.now second.now) (changes self.old)
            (changes self.new) result }
        ensures lasts { OnOk result (LastsLike (files self.old) (leaves self.new) name.now
            second.now) }
        ensures crash { TurnsLike (files self.old) (leaves self.old) (leaves self.new) name.now
            second.now }
        ensures refused { result ≢ Err failed → OnErr result (Unchanged (files self.old)
            (files self.new) (leaves self.old) (leaves self.new)) }
        ensures time { Elapses moment since leaves read_at lasted_at self.old
            self.new }
        ensures finds { Finds (files self.old) name.now result }
        ensures cause { HasDiskCause (faults self.old) (faults self.new) result }
        ensures reliable { reliable self.old → StaysReliable (reliable self.new) result };

    /// How often it has failed. The count stands still at the greatest `u64`.
    fn fault_count(&self) -> u64
        ensures { result ≡ faults self.now };

    /// The moment, for those who want to speak of it later.
    fn moment_count(&self) -> u64
        ensures { result ≡ moment self.now };

    /// How many changes there are, and 0 where they are not told.
    fn change_count(&self) -> u64
        ensures { result ≡ count_of (changes self.now) };

    /// The disk tells its changes exactly where it tells its files.
    ghost tells_both: { (d : Self) → is_some (changes d) ≡ is_some (files d) };

    /// Now each name reads as the files do.
    ghost reads_now: { (d : Self) → read_at d (moment d) ≡ option_map bytes_at (files d) };

    /// Whether all lasts now is told of this moment from now on.
    ghost lasts_now: { (d : Self) → IfSome (files d) (λ f. lasted_at d (moment d)
        ↔ LastsAll f (leaves d)) };

    /// The files as they read now are one of the images of now.
    ghost reads_an_image: { (d : Self) → IfSome (files d) (IsImage (leaves d)) };

    /// This moment is one of those since an earlier one.
    ghost counts_now: { (d : Self) (t : ℕ) (image : Files) → t ≤ moment d
        → IsImage (leaves d) image → since d t image };

    /// Since this moment there is no other.
    ghost only_now: { (d : Self) (image : Files) → since d (moment d) image
        → IsImage (leaves d) image };
}
