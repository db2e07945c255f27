//! Table files are read from the disk, in their order, up to the first that is none.
ghost use Rattle.std.specs.Prelude.{IfSome};
ghost use Rattle.clog_disk.specs.Files.{IsThere};
ghost use Rattle.clog_crash.specs.Folder.{IsHeld, IsNameOf, place_cmp};
ghost use Rattle.clog_folder.specs.Listing.{AreRows};
ghost use Rattle.clog_folder.specs.Passing.{IsUntouched, TellsEach};
ghost use Rattle.clog_folder.specs.Tables.{ReadsTable, ReadsTables};

use crate::fault::{OpenFault, fault_of};
use crate::listing::TableNames;
use crate::whole::read_whole;
use clog_base::{Name, Table};
use clog_disk::Disk;
use clog_table::{TableFault, TableFile, decode};
use std::alloc::Global;

/// A table file as it was read.
#[derive(Drop)]
pub struct TableHeld {
    /// The sequence in its name.
    pub sequence: u64,
    /// What it says.
    pub file: TableFile,
}

/// The table file of a place, which is there under its name.
fn read_table<D: Disk>(
    alloc: Global,
    disk: &mut D,
    place: (Table, u64),
    name: &Name,
) -> Result<TableFile, OpenFault>
    requires { IsThere (D.files disk.old) name.now }
    ensures reads { ReadsTable (D.files disk.old) (D.faults disk.old) (D.faults disk.new) place
        name.now result }
    ensures keeps { IsUntouched D.files D.changes D.leaves D.moment D.since D.read_at D.lasted_at
        D.faults disk.old disk.new }
    ensures quiet { TellsEach (D.faults disk.old) (D.faults disk.new) result }
{
    let bytes = match read_whole(alloc, disk, name) {
        Ok(bytes) => bytes,
        Err(fault) => return Err(fault_of(fault)),
    };
    match decode(alloc, &bytes, place.0) {
        Ok(file) => Ok(file),
        Err(TableFault::OutOfMemory) => Err(OpenFault::OutOfMemory),
        Err(fault) => Err(OpenFault::BadTable(*name, fault)),
    }
}

/// The table files of these names, of which each is there, in their order.
///
/// - `Disk`: the disk's count of faults has risen in this call.
/// - `BadTable`: the first file that is none.
/// - `OutOfMemory`: memory was refused.
pub fn read_tables<D: Disk>(
    alloc: Global,
    disk: &mut D,
    names: TableNames,
) -> Result<Vec<TableHeld>, OpenFault>
    requires { IfSome (D.files disk.old) (λ held.
        AreRows place_cmp IsNameOf (IsHeld held) names.entries) }
    ensures reads { ReadsTables (D.files disk.old) (D.faults disk.old) (D.faults disk.new)
        names.entries result }
    ensures keeps { IsUntouched D.files D.changes D.leaves D.moment D.since D.read_at D.lasted_at
        D.faults disk.old disk.new }
    ensures quiet { TellsEach (D.faults disk.old) (D.faults disk.new) result }
{
    let mut tables = Vec::new(alloc);
    for (place, name) in names {
        // A match in place of `?`, since the exit speaks of what was read.
        match read_table(alloc, disk, place, &name) {
            Ok(file) => tables.push(TableHeld {
                sequence: place.1,
                file,
            })?,
            Err(fault) => return Err(fault),
        }
    }
    Ok(tables)
}
