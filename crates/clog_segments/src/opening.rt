//! A folder is opened: it is read, up to what is refused, and recovered. Its log then goes on at a
//! base above all that it named.
ghost use Rattle.std.specs.Prelude.{◌≡◌, ◌≤◌, ◌<◌, ◌^◌, ℕ, List, [], Some, IfOk, OnOk};
ghost use Rattle.std.specs.List.{Any};
ghost use Rattle.clog_disk.specs.Files.{Files, Lists, SameTold, Told};
ghost use Rattle.clog_disk.specs.Images.{IsLater, LastsAll, LeavesOnly};
ghost use Rattle.clog_crash.specs.Flush.{IsSameFolder, IsSettled};
ghost use Rattle.clog_crash.specs.Recovery.{NamesAny};
ghost use Rattle.clog_crash.specs.Rest.{IsAtRest};
ghost use Rattle.clog_folder.specs.declared.tables.TableHeld.{TableHeld as table_held};
ghost use Rattle.clog_folder.specs.Passing.{IsUntouched, TellsEach};
ghost use Rattle.clog_segments.specs.Filing.{AreRecoveryPuts, ComesFrom, LeavesFrom, StaysFrom};
ghost use Rattle.clog_segments.specs.Filing.{StepCause};
ghost use Rattle.clog_segments.specs.Live.{IsLogOf};
ghost use Rattle.clog_segments.specs.Named.{IsLateTable};
ghost use Rattle.clog_segments.specs.Opened.{HasRows, IsRecovered, KeepsFolder, LeavesAlone, Looks};
ghost use Rattle.clog_segments.specs.Opened.{Opens, OthersStay, RecoversAll, RecoversFirst};
ghost use Rattle.clog_segments.specs.Opened.{RecoversOnly, WasLeftOr};

use crate::naming::{SEQUENCE_LIMIT, base_of, has_late_table, segment_ids};
use crate::reading::read_both;
use crate::recovering::take_all_recovered;
use crate::recovery_files::put_tables;
use clog_base::{Name, Position, Quantity, Rows};
use clog_cells::CellMap;
use clog_disk::Disk;
use clog_folder::{OpenFault, fault_of};
use std::alloc::Global;

/// Recovers a folder of these names, whose log restores these cells and reaches so far.
fn recover_settled<D: Disk>(
    alloc: Global,
    disk: &mut D,
    names: &[Name],
    cells: CellMap,
    top: Position,
) -> Result<(), OpenFault>
    requires log { (tables : List table_held) × IsLogOf (D.files disk.old) tables cells top }
    requires lists { Lists (D.files disk.old) names.now }
    requires few { ¬ Any IsLateTable names.now }
    ensures told { SameTold (D.files disk.old) (D.files disk.new) }
    ensures later { IsLater D.moment D.read_at D.lasted_at disk.old disk.new }
    ensures no_fewer { D.faults disk.old ≤ D.faults disk.new }
    ensures cause { StepCause (D.faults disk.old) (D.faults disk.new) result }
    ensures changes { (first : Files) → D.files disk.old ≡ Some first
        → RecoversFirst first (D.changes disk.old) (D.changes disk.new) }
    ensures recovers { (first : Files) → D.files disk.old ≡ Some first
        → OnOk result (RecoversAll first (D.changes disk.old) (D.changes disk.new)) }
    ensures others { (first : Files) → D.files disk.old ≡ Some first
        → Told (D.files disk.new) (RecoversOnly first) }
    ensures same { (first : Files) → D.files disk.old ≡ Some first
        → Told (D.files disk.new) (IsSameFolder first) }
    ensures files { (first : Files) → D.files disk.old ≡ Some first → (base : ℕ)
        → ((n : ℕ) → NamesAny first n → n < base)
        → OnOk result (Told (D.files disk.new) (IsRecovered first base)) }
    ensures settles { (first : Files) → D.files disk.old ≡ Some first
        → IsSettled first (D.leaves disk.old)
        → OnOk result (Told (D.files disk.new) (λ now. IsSettled now (D.leaves disk.new))) }
    ensures any_moment { (first : Files) → D.files disk.old ≡ Some first
        → IsSettled first (D.leaves disk.old)
        → LeavesOnly D.moment D.since disk.old disk.new (IsSameFolder first) }
    ensures from { (first : Files) → D.files disk.old ≡ Some first
        → LeavesFrom first (D.leaves disk.old)
        → StaysFrom D.moment D.since D.leaves first disk.old disk.new }
{
    let ids = segment_ids(alloc, names)?;
    // Matches in place of `?`, since the exits speak of the folder.
    match put_tables(alloc, disk, names, cells, top) {
        Ok(()) => {}
        Err(fault) => return Err(fault),
    }
    match take_all_recovered(disk, &ids) {
        Ok(()) => Ok(()),
        Err(fault) => Err(fault_of(fault)),
    }
}

/// Makes a folder of these names last as it was read, and recovers it. So a file that recovery puts
/// stands on no byte and on no name that a crash takes back.
fn recover_folder<D: Disk>(
    alloc: Global,
    disk: &mut D,
    names: &[Name],
    cells: CellMap,
    top: Position,
) -> Result<(), OpenFault>
    requires log { (tables : List table_held) × IsLogOf (D.files disk.old) tables cells top }
    requires lists { Lists (D.files disk.old) names.now }
    requires few { ¬ Any IsLateTable names.now }
    ensures told { SameTold (D.files disk.old) (D.files disk.new) }
    ensures later { IsLater D.moment D.read_at D.lasted_at disk.old disk.new }
    ensures no_fewer { D.faults disk.old ≤ D.faults disk.new }
    ensures cause { StepCause (D.faults disk.old) (D.faults disk.new) result }
    ensures changes { (first : Files) → D.files disk.old ≡ Some first
        → RecoversFirst first (D.changes disk.old) (D.changes disk.new) }
    ensures recovers { (first : Files) → D.files disk.old ≡ Some first
        → OnOk result (RecoversAll first (D.changes disk.old) (D.changes disk.new)) }
    ensures others { (first : Files) → D.files disk.old ≡ Some first
        → Told (D.files disk.new) (RecoversOnly first) }
    ensures same { (first : Files) → D.files disk.old ≡ Some first
        → Told (D.files disk.new) (IsSameFolder first) }
    ensures files { (first : Files) → D.files disk.old ≡ Some first → (base : ℕ)
        → ((n : ℕ) → NamesAny first n → n < base)
        → OnOk result (Told (D.files disk.new) (IsRecovered first base)) }
    ensures settles { (first : Files) → D.files disk.old ≡ Some first
        → OnOk result (Told (D.files disk.new) (λ now. IsSettled now (D.leaves disk.new))) }
    ensures any_moment { (first : Files) → D.files disk.old ≡ Some first
        → LeavesOnly D.moment D.since disk.old disk.new
        (WasLeftOr (D.leaves disk.old) (KeepsFolder first)) }
    ensures from { (first : Files) → D.files disk.old ≡ Some first
        → LeavesOnly D.moment D.since disk.old disk.new
        (WasLeftOr (D.leaves disk.old) (ComesFrom first)) }
{
    // Matches in place of `?`, since the exits speak of the folder.
    match disk.settle() {
        Ok(()) => {}
        Err(fault) => return Err(fault_of(fault)),
    }
    match recover_settled(alloc, disk, names, cells, top) {
        Ok(()) => Ok(()),
        Err(fault) => Err(fault),
    }
}

/// What is known of a folder that can be opened.
#[derive(Drop)]
struct Known {
    cells: CellMap,
    top: Position,
    names: Rows<Name>,
    base: u64,
}

/// Reads a folder, and sees whether it can be opened. The moment is one in milliseconds.
fn look<D: Disk>(alloc: Global, disk: &mut D, moment: u64) -> Result<Known, OpenFault>
    ensures looks { Looks (D.files disk.old) (D.faults disk.old) (D.faults disk.new) moment result }
    ensures cause { TellsEach (D.faults disk.old) (D.faults disk.new) result }
    ensures keeps { IsUntouched D.files D.changes D.leaves D.moment D.since D.read_at D.lasted_at
        D.faults disk.old disk.new }
{
    // Matches in place of `?`, since the exits speak of what was read.
    let names = match disk.list() {
        Ok(names) => names,
        Err(fault) => return Err(fault_of(fault)),
    };
    let (tables, log) = match read_both(alloc, disk, names.as_slice()) {
        Ok(both) => both,
        Err(fault) => return Err(fault),
    };
    if has_late_table(names.as_slice()) {
        return Err(OpenFault::Limit(Quantity::TableFiles, SEQUENCE_LIMIT));
    }
    match base_of(names.as_slice(), tables.as_slice(), moment) {
        Ok(base) => Ok(Known {
            cells: log.cells,
            top: log.top,
            names,
            base,
        }),
        Err(fault) => Err(fault),
    }
}

/// Opens a folder: reads it, and recovers it, so that no segment is left. The answer is the id at
/// which its log goes on: the moment, or one more than the greatest id that the folder named. The
/// moment is one in milliseconds.
///
/// Table files are read first, up to the first that is bad, and then segments in pieces of at most
/// 64 KiB, up to the first that is torn or too long. Where refusals of segments stand together, the
/// first of these is answered: a fault of the disk; want of memory; the first refused payload by
/// position; the place at which reading stopped. Then the limits on sequences and on ids are looked
/// at.
///
/// Behind all that is looked at, and before anything is changed, the folder is made to last as it
/// was read: a program that was killed may have left bytes and names that did not last.
///
/// Recovery puts files of new names, each with the newest cells of one table that the log restores,
/// one for each table that has such cells, in the order of tables; then it removes the segments in
/// the order of their ids. It changes nothing else.
///
/// - `Disk`: only where the disk's count of faults has risen in this call. Else it stays.
/// - `BadTable`, `Damaged`, `Limit`: exactly where the folder is so. The disk is then as it was.
/// - `OutOfMemory`: memory was refused.
///
/// Whatever is answered, each file whose name is no segment's stands as it was, what came are files
/// that recovery puts, and the folder restores the same. Each image of a crash meanwhile is one that
/// the disk might have left before, or restores the same and has no other files either. At `Ok` all
/// lasts.
pub fn recover<D: Disk>(alloc: Global, disk: &mut D, moment: u64) -> Result<u64, OpenFault>
    requires moment { moment < 2 ^ 62 }
    ensures told { SameTold (D.files disk.old) (D.files disk.new) }
    ensures later { IsLater D.moment D.read_at D.lasted_at disk.old disk.new }
    ensures no_fewer { D.faults disk.old ≤ D.faults disk.new }
    ensures cause { TellsEach (D.faults disk.old) (D.faults disk.new) result }
    ensures opens { Opens (D.files disk.old) (D.files disk.new) (D.faults disk.old)
        (D.faults disk.new) moment result }
    ensures fits { IfOk result (λ base. base < 2 ^ 63) }
    ensures low { IfOk result (λ base. base < 2 ^ 62) }
    ensures alone { LeavesAlone (IsUntouched D.files D.changes D.leaves D.moment D.since D.read_at
        D.lasted_at
        D.faults disk.old disk.new) result }
    ensures changes { (first : Files) → D.files disk.old ≡ Some first
        → RecoversFirst first (D.changes disk.old) (D.changes disk.new) }
    ensures recovers { (first : Files) → D.files disk.old ≡ Some first
        → OnOk result (RecoversAll first (D.changes disk.old) (D.changes disk.new)) }
    ensures others { (first : Files) → D.files disk.old ≡ Some first
        → Told (D.files disk.new) (OthersStay first) }
    ensures came { (first : Files) → D.files disk.old ≡ Some first
        → Told (D.files disk.new) (AreRecoveryPuts first) }
    ensures keeps { (first : Files) → D.files disk.old ≡ Some first
        → Told (D.files disk.new) (KeepsFolder first) }
    ensures restored { (first : Files) → D.files disk.old ≡ Some first
        → OnOk result (HasRows first) }
    ensures lasts { (first : Files) → D.files disk.old ≡ Some first
        → OnOk result (Told (D.files disk.new) (λ now. LastsAll now (D.leaves disk.new))) }
    ensures rests { (first : Files) → D.files disk.old ≡ Some first
        → IfOk result (λ base. Told (D.files disk.new)
        (λ now. IsAtRest now (D.leaves disk.new) base [] [])) }
    ensures any_moment { (first : Files) → D.files disk.old ≡ Some first
        → LeavesOnly D.moment D.since disk.old disk.new
        (WasLeftOr (D.leaves disk.old) (KeepsFolder first)) }
    ensures images { (first : Files) → D.files disk.old ≡ Some first
        → LeavesOnly D.moment D.since disk.old disk.new
        (WasLeftOr (D.leaves disk.old) (ComesFrom first)) }
{
    // Matches in place of `?`, since the exits speak of the folder.
    let known = match look(alloc, disk, moment) {
        Ok(known) => known,
        Err(fault) => return Err(fault),
    };
    let Known {
        cells,
        top,
        names,
        base,
    } = known;
    match recover_folder(alloc, disk, names.as_slice(), cells, top) {
        Ok(()) => Ok(base),
        Err(fault) => Err(fault),
    }
}
