//! What a mutation deposits: the bytes of its entry, and the set of its tables.
ghost use Rattle.std.specs.Prelude.{◌≡◌, ◌≤◌, ◌^◌, IfOk};
ghost use Rattle.std.specs.List.{AllByRecursion};
ghost use Rattle.clog_mutation.specs.Limits.{IsWithinLimits, UpdateIsWithinLimits};
ghost use Rattle.clog_mutation.specs.Stored.{IsStored};
ghost use Rattle.clog_notes.specs.Entries.{
  GivesSize,
  HoldsTables,
  IsNoteOf,
  entry_of,
  entry_size,
  with_tables,
};

use clog_base::{Bytes, FRAME_SIZE, Key, OutOfMemory, Writer};
use clog_entry::{begin_entry, end_entry};
use clog_mutation::{Mutation, Update, payload_size, put_mutation};
use path_core::EntryNote;
use std::alloc::Global;

/// An entry that is larger than half a segment's capacity.
#[derive(Clone, Copy, Debug, PartialEq, Eq)]
pub struct LargeEntry {
    /// Its size in bytes, or the greatest `u32` where that is less.
    pub size: u32,
    /// The most bytes that an entry may have.
    pub max: u32,
}

/// The bytes of the entry of a mutation, computed before any is made: the payload's and 12. It may
/// not be above half the capacity.
pub fn entry_size(mutation: &Mutation, capacity: u32) -> Result<u32, LargeEntry>
    requires { IsWithinLimits mutation.now }
    ensures { GivesSize capacity mutation.now result }
{
    let max = capacity / 2;
    let size = payload_size(mutation).saturating_add(FRAME_SIZE as u128);
    if size > u128::from(max) {
        let size = u32::try_from(size).unwrap_or(u32::MAX);
        return Err(LargeEntry { size, max });
    }
    Ok(size as u32)
}

// The entry of a mutation, in one piece of memory that is taken at the start.
#[tactic(auto, unfolding(crate::specs::Entries::entry_of))]
fn entry_bytes(alloc: Global, mutation: &Mutation, size: u32) -> Result<Vec<u8>, OutOfMemory>
    requires within { IsWithinLimits mutation.now }
    requires size { (size ≡ entry_size mutation.now) × (size ≤ 2 ^ 30) }
    ensures bytes { IfOk result (λ v. v.items ≡ entry_of mutation.now) }
    // Its payload can be read back.
    ensures stored { IfOk result (λ v. IsStored mutation.now) }
{
    let mut out = Vec::with_capacity(alloc, size as usize)?;
    begin_entry(&mut out, size - FRAME_SIZE as u32)?;
    put_mutation(&mut out, mutation)?;
    end_entry(&mut out, 0)?;
    Ok(out)
}

fn joined_tables(updates: &[Update]) -> u16
    requires { AllByRecursion UpdateIsWithinLimits updates.now }
    ensures { result ≡ with_tables 0 updates.now }
{
    let mut tables = 0;
    for update in updates {
        tables |= 1 << update.table.0;
    }
    tables
}

// The set of the tables of a mutation, bit `t` for table `t`.
fn tables_of(mutation: &Mutation) -> u16
    requires { IsWithinLimits mutation.now }
    ensures { HoldsTables mutation.now result }
{
    joined_tables(mutation.updates.as_slice())
}

/// The note of a mutation of a line that is not claimed yet, in one piece of memory.
pub fn note_of(
    alloc: Global,
    line: u32,
    mutation: &Mutation,
    size: u32,
) -> Result<EntryNote, OutOfMemory>
    requires within { IsWithinLimits mutation.now }
    requires size { (size ≡ entry_size mutation.now) × (size ≤ 2 ^ 30) }
    ensures { IfOk result (λ n. IsNoteOf line mutation.now n) }
{
    Ok(EntryNote {
        start: Key(0),
        end: Key(u64::from(size)),
        tables: tables_of(mutation),
        line,
        writer: Writer(0),
        bytes: Bytes::new(entry_bytes(alloc, mutation, size)?),
    })
}
