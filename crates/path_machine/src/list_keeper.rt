//! A keeper over lists in memory, for trying what stands on a keeper. It has no disk: nothing
//! outlives it, and it never stops.
ghost use Rattle.std.specs.Prelude.{◌≤◌, ◌<◌, ℕ, length, get_or, vec_len, IfOk, OnErr};
ghost use Rattle.std.specs.List.Sorted.{IsPermutation, IsNonDecreasingBy};
ghost use Rattle.path_core.specs.declared.note.EntryNote.{EntryNote};
ghost use Rattle.path_core.specs.Keeper.{IsParted, IsFresh};
ghost use Rattle.path_machine.specs.ListKept.{listed};

use clog_base::{Key, Rows, Sizes, Table};
use clog_cells::CellMap;
use path_core::{EntryNote, Keeper, KeeperFault};
use std::alloc::{AllocError, Global};
use std::mem;

/// A table file that was put.
#[derive(Drop)]
pub struct ListFile {
    table: Table,
    lower: Key,
    upper: Key,
    cells: CellMap,
}

/// A keeper that keeps what it is given. It drops no segment: `discard` answers as for want of
/// memory.
#[derive(Drop)]
pub struct ListKeeper {
    base: u64,
    sizes: Sizes,
    synced: u64,
    logged: Rows<EntryNote>,
    files: Rows<ListFile>,
}

impl ListKeeper {
    /// A keeper of these sizes that was just opened. `base` is the id of its first segment.
    pub fn new(alloc: Global, sizes: Sizes, base: u64) -> ListKeeper
        ensures { IsFresh base sizes (⟦<ListKeeper as Keeper>⟧.holds result) }
    {
        ListKeeper {
            base,
            sizes,
            synced: 0,
            logged: Rows::new(Vec::new(alloc)),
            files: Rows::new(Vec::new(alloc)),
        }
    }
}

// How many notes, in the order of their ends, end at or below a key.
fn count_up_to(notes: &[EntryNote], upto: u64) -> usize
    requires { IsNonDecreasingBy (λ (n : EntryNote). n.end.0) notes.now }
    ensures within { result ≤ length notes.now }
    ensures low { (k : ℕ) (d : EntryNote) → k < result → (get_or notes.now k d).end.0 ≤ upto }
    ensures high { (k : ℕ) (d : EntryNote) → result ≤ k → k < length notes.now
        → upto < (get_or notes.now k d).end.0 }
{
    let mut count = 0;
    while count < notes.len() && notes[count].end.0 <= upto {
        count += 1;
    }
    count
}

// Takes the notes that end at or below a key, in the order of their ends.
fn take_up_to(pending: &mut Vec<EntryNote>, upto: u64) -> Result<Vec<EntryNote>, AllocError>
    ensures taken { IfOk result (λ run.
        IsParted upto pending.old.items run.items pending.new.items) }
    ensures few { IfOk result (λ run. vec_len run ≤ vec_len pending.old) }
    ensures refused { OnErr result (IsPermutation pending.old.items pending.new.items) }
{
    pending.sort_unstable_by_key(|note| note.end.0);
    let count = count_up_to(pending, upto);
    let left = pending.split_off(count)?;
    Ok(mem::replace(pending, left))
}

impl Keeper for ListKeeper {
    ghost holds = { λ k. listed k.base k.sizes k.synced k.logged k.files };

    fn sync(&mut self, pending: &mut Vec<EntryNote>, upto: Key) -> Result<(), KeeperFault> {
        let logged = &mut self.logged;
        logged.items.reserve(pending.len())?;
        let mut run = take_up_to(pending, upto.0)?;
        logged.items.append(&mut run)?;
        self.synced = upto.0;
        Ok(())
    }

    fn publish(
        &mut self,
        table: Table,
        lower: Key,
        upper: Key,
        cells: &CellMap,
    ) -> Result<(), KeeperFault> {
        let file = ListFile {
            table,
            lower,
            upper,
            cells: cells.copy()?,
        };
        let files = &mut self.files;
        files.items.push(file)?;
        Ok(())
    }

    fn discard(&mut self, _: u32) -> Result<u32, KeeperFault> {
        Err(KeeperFault::OutOfMemory)
    }

    fn at_open(&self) -> u64 {
        0
    }
}
