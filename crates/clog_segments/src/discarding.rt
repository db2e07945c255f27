//! Segments go that are no longer needed: each gets its archive name first, where it is to have
//! one, and then loses its own, one after another. A crash meanwhile leaves a folder that restores
//! the same.
ghost use Rattle.std.specs.Prelude.{
  ◌≡◌,
  ◌≢◌,
  ◌<◌,
  ◌+◌,
  ◌^◌,
  [],
  ◌∷◌,
  drop,
  ℕ,
  List,
  Err,
  IfErr,
  IfSome,
  OnOk,
  OnErr,
  true,
  option_map,
};
ghost use Rattle.clog_spec.specs.Names.{archive_name_of, segment_name_of};
ghost use Rattle.clog_disk.specs.Causes.{HasDiskCause};
ghost use Rattle.clog_disk.specs.Files.{Files, SameTold};
ghost use Rattle.clog_disk.specs.Images.{IsLater, LeavesOnly};
ghost use Rattle.clog_disk.specs.declared.disk.DiskFault.TheVariants.{
  Failed as failed,
  NoSuchFile as no_file,
};
ghost use Rattle.clog_scan.specs.Cut.{Section};
ghost use Rattle.clog_crash.specs.Folder.{IsHeld};
ghost use Rattle.clog_crash.specs.Log.{Write};
ghost use Rattle.clog_crash.specs.Readings.{Reading};
ghost use Rattle.clog_segments.specs.AtMost.{AddsOnly, IsArchiveAmong, IsArchiveOf};
ghost use Rattle.clog_segments.specs.Beside.{
  ImagesBut,
  ImagesButOne,
  IsEitherName,
  IsOfGone,
  MayBeGoing,
  StandsAs,
  StayButOne,
};
ghost use Rattle.clog_segments.specs.Discards.{
  AllGoBy,
  AreDroppable,
  GoesBy,
  LeftButOne,
  MayAllGo,
  NamesBy,
  NamesNext,
  NamesOnly,
  NextLeftButOne,
  all_gone_at,
  first_gone_at,
  gone_at,
  halted_by,
  named_at,
  refused_by,
};
ghost use Rattle.clog_segments.specs.NamesLast.{EachLasts};
ghost use Rattle.clog_segments.specs.Resting.{ShowsBehind};

use crate::changing::take_away;
use clog_base::{archive_name, segment_name};
use clog_disk::{Disk, DiskFault};

/// Why a segment did not go.
#[derive(Clone, Copy)]
struct Refusal {
    /// It has got its archive name.
    is_named: bool,
    fault: DiskFault,
}

/// How far segments went until a disk refused a call.
#[derive(Clone, Copy, Debug, PartialEq, Eq)]
pub struct Halt {
    /// How many have gone, the first ones.
    pub dropped: usize,
    /// The next one has got its archive name.
    pub is_named: bool,
    /// What the disk answered.
    pub fault: DiskFault,
}

/// Gives a segment its archive name too, where it is to have one.
fn name_archive<D: Disk>(disk: &mut D, id: u64, archives: bool) -> Result<(), DiskFault>
    requires fits { id < 2 ^ 63 }
    requires there { IfSome (D.files disk.old) (λ f. IsHeld f (segment_name_of 6 id)) }
    ensures told { SameTold (D.files disk.old) (D.files disk.new) }
    ensures later { IsLater D.moment D.read_at D.lasted_at disk.old disk.new }
    ensures cause { HasDiskCause (D.faults disk.old) (D.faults disk.new) result }
    ensures found { result ≢ Err no_file }
    ensures files { OnOk result (D.files disk.new
        ≡ option_map (named_at archives id) (D.files disk.old)) }
    ensures same { result ≢ Err failed → OnErr result (D.files disk.new ≡ D.files disk.old) }
    ensures others { StayButOne (archive_name_of id) (D.files disk.old) (D.files disk.new) }
    ensures stands { OnErr result (StandsAs (archive_name_of id)
        (MayBeGoing id (archive_name_of id)) (D.files disk.old) (D.files disk.new)) }
    ensures elsewhere { ImagesButOne (archive_name_of id) (D.leaves disk.old) (D.leaves disk.new) }
    ensures names_last { result ≢ Err failed → EachLasts (D.files disk.old) (D.leaves disk.old)
        (D.files disk.new) (D.leaves disk.new) }
    ensures linked { OnErr result (archives ≡ true) }
    ensures changes { NamesBy archives id (D.changes disk.old) (D.changes disk.new) result }
    ensures stays { (r : Reading) (past : List Write) (last : ℕ) (old kept : List Section)
        (base : ℕ) (ordinals : List ℕ)
        → MayAllGo (D.files disk.old) (D.leaves disk.old) r past last old kept base ordinals
        → OnOk result (MayAllGo (D.files disk.new) (D.leaves disk.new) r past last old kept base
        ordinals) }
    ensures refused { result ≢ Err failed → (r : Reading) (past : List Write) (last : ℕ)
        (old kept : List Section) (base : ℕ) (ordinals : List ℕ)
        → MayAllGo (D.files disk.old) (D.leaves disk.old) r past last old kept base ordinals
        → OnErr result (MayAllGo (D.files disk.new) (D.leaves disk.new) r past last old kept base
        ordinals) }
    ensures any_moment { (r : Reading) (past : List Write) (last : ℕ) (old kept : List Section)
        (base : ℕ) (ordinals : List ℕ)
        → MayAllGo (D.files disk.old) (D.leaves disk.old) r past last old kept base ordinals
        → LeavesOnly D.moment D.since disk.old disk.new (ShowsBehind r past last old kept) }
    ensures adds_only { (f : Files) → D.files disk.old ≡ Some f
        → AddsOnly D.files D.moment D.since D.leaves disk.old disk.new
        (IsArchiveOf (D.leaves disk.old) id) }
{
    if archives {
        return disk.link(&segment_name(id), &archive_name(id));
    }
    Ok(())
}

/// A segment goes.
fn drop_segment<D: Disk>(
    disk: &mut D,
    base: u64,
    ordinal: u64,
    archives: bool,
) -> Result<(), Refusal>
    requires fits { base + ordinal < 2 ^ 63 }
    requires there { IfSome (D.files disk.old)
        (λ f. IsHeld f (segment_name_of 6 (base + ordinal))) }
    ensures told { SameTold (D.files disk.old) (D.files disk.new) }
    ensures later { IsLater D.moment D.read_at D.lasted_at disk.old disk.new }
    ensures cause { HasDiskCause (D.faults disk.old) (D.faults disk.new) (refused_by result) }
    ensures found { refused_by result ≢ Err no_file }
    ensures named { NamesOnly archives result }
    ensures files { OnOk result (D.files disk.new
        ≡ option_map (gone_at archives (base + ordinal)) (D.files disk.old)) }
    ensures left { refused_by result ≢ Err failed → IfErr result (λ refusal. D.files disk.new
        ≡ option_map (named_at refusal.is_named (base + ordinal)) (D.files disk.old)) }
    ensures others { LeftButOne archives (base + ordinal) (D.files disk.old) (D.files disk.new)
        result }
    ensures elsewhere { ImagesBut (IsEitherName (base + ordinal)) (D.leaves disk.old)
        (D.leaves disk.new) }
    ensures names_last { refused_by result ≢ Err failed → EachLasts (D.files disk.old)
        (D.leaves disk.old) (D.files disk.new) (D.leaves disk.new) }
    ensures changes { GoesBy archives (base + ordinal) (D.changes disk.old) (D.changes disk.new)
        result }
    ensures goes { (r : Reading) (past : List Write) (last : ℕ) (old kept : List Section)
        (others : List ℕ)
        → MayAllGo (D.files disk.old) (D.leaves disk.old) r past last old kept base
        (ordinal ∷ others)
        → OnOk result (MayAllGo (D.files disk.new) (D.leaves disk.new) r past last old kept base
        others) }
    ensures refused { refused_by result ≢ Err failed → (r : Reading) (past : List Write)
        (last : ℕ) (old kept : List Section) (others : List ℕ)
        → MayAllGo (D.files disk.old) (D.leaves disk.old) r past last old kept base
        (ordinal ∷ others)
        → OnErr result (MayAllGo (D.files disk.new) (D.leaves disk.new) r past last old kept base
        (ordinal ∷ others)) }
    ensures any_moment { (r : Reading) (past : List Write) (last : ℕ) (old kept : List Section)
        (others : List ℕ)
        → MayAllGo (D.files disk.old) (D.leaves disk.old) r past last old kept base
        (ordinal ∷ others)
        → LeavesOnly D.moment D.since disk.old disk.new (ShowsBehind r past last old kept) }
    ensures adds_only { (f : Files) → D.files disk.old ≡ Some f
        → AddsOnly D.files D.moment D.since D.leaves disk.old disk.new
        (IsArchiveOf (D.leaves disk.old) (base + ordinal)) }
{
    let id = base + ordinal;
    if let Err(fault) = name_archive(disk, id, archives) {
        return Err(Refusal {
            is_named: false,
            fault,
        });
    }
    match take_away(disk, id) {
        Ok(()) => Ok(()),
        Err(fault) => Err(Refusal {
            is_named: archives,
            fault,
        }),
    }
}

/// Segments go, of these ordinals from a base on, in their order, until the disk refuses a call.
/// Where table files stand for all their cells, each image of a crash meanwhile restores what the
/// folder did, also while sections are kept that do not last.
pub fn drop_segments<D: Disk>(
    disk: &mut D,
    base: u64,
    archives: bool,
    ordinals: &[u64],
) -> Result<(), Halt>
    requires { AreDroppable (D.files disk.old) base ordinals.now }
    ensures told { SameTold (D.files disk.old) (D.files disk.new) }
    ensures later { IsLater D.moment D.read_at D.lasted_at disk.old disk.new }
    ensures cause { HasDiskCause (D.faults disk.old) (D.faults disk.new) (halted_by result) }
    ensures found { halted_by result ≢ Err no_file }
    ensures named { NamesNext archives result }
    ensures files { OnOk result (D.files disk.new
        ≡ option_map (all_gone_at archives base ordinals.now) (D.files disk.old)) }
    ensures left { halted_by result ≢ Err failed → IfErr result (λ halt. D.files disk.new
        ≡ option_map (first_gone_at archives base ordinals.now halt.dropped halt.is_named)
        (D.files disk.old)) }
    ensures others { NextLeftButOne archives base ordinals.now (D.files disk.old)
        (D.files disk.new) result }
    ensures elsewhere { ImagesBut (IsOfGone base ordinals.now) (D.leaves disk.old)
        (D.leaves disk.new) }
    ensures names_last { halted_by result ≢ Err failed → EachLasts (D.files disk.old)
        (D.leaves disk.old) (D.files disk.new) (D.leaves disk.new) }
    ensures changes { AllGoBy archives base ordinals.now (D.changes disk.old) (D.changes disk.new)
        result }
    ensures goes { (r : Reading) (past : List Write) (last : ℕ) (old kept : List Section)
        → MayAllGo (D.files disk.old) (D.leaves disk.old) r past last old kept base ordinals.now
        → OnOk result (MayAllGo (D.files disk.new) (D.leaves disk.new) r past last old kept base
        []) }
    ensures refused { halted_by result ≢ Err failed → (r : Reading) (past : List Write)
        (last : ℕ) (old kept : List Section)
        → MayAllGo (D.files disk.old) (D.leaves disk.old) r past last old kept base ordinals.now
        → IfErr result (λ halt. MayAllGo (D.files disk.new) (D.leaves disk.new) r past last old
        kept base (drop halt.dropped ordinals.now)) }
    ensures any_moment { (r : Reading) (past : List Write) (last : ℕ) (old kept : List Section)
        → MayAllGo (D.files disk.old) (D.leaves disk.old) r past last old kept base ordinals.now
        → LeavesOnly D.moment D.since disk.old disk.new (ShowsBehind r past last old kept) }
    ensures adds_only { (f : Files) → D.files disk.old ≡ Some f
        → AddsOnly D.files D.moment D.since D.leaves disk.old disk.new
        (IsArchiveAmong (D.leaves disk.old) base ordinals.now) }
{
    for done in 0..ordinals.len() {
        match drop_segment(disk, base, ordinals[done], archives) {
            Ok(()) => {}
            Err(refusal) => {
                return Err(Halt {
                    dropped: done,
                    is_named: refusal.is_named,
                    fault: refusal.fault,
                });
            }
        }
    }
    Ok(())
}
