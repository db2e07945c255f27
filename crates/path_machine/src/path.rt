//! The write path as a value: a state that allowed steps alone change.
ghost use Rattle.std.specs.Prelude.{◌≡◌, ◌<◌, IfOk, replicate};
ghost use Rattle.path_core.specs.declared.state.PathState.{PathState};
ghost use Rattle.path_core.specs.Parts.{fresh_table, fresh_seat};
ghost use Rattle.path_core.specs.Runs.{opening, first_group};
ghost use Rattle.path_machine.specs.Steps.{IsWithin, StepsTo};

use crate::keys::FIRST_OFFSET;
use crate::making::make;
use crate::step_allowed::allows;
use crate::table_changes::FRESH;
use clog_base::{OutOfMemory, Rows, Sizes};
use op_core::Tally;
use path_core::{Event, Found, FoundGroups, OrderGroups, PathState, Seat, SeatTable, TableState};
use std::alloc::Global;
use std::marker::Model;

const NOTHING_FOUND: FoundGroups = FoundGroups {
    current: None,
    oldest: None,
    finished: None,
};

const FRESH_SEAT: Seat = Seat {
    write: None,
    append: None,
    claim: None,
    note: None,
    tables: [SeatTable {
        trying: None,
        place: None,
        bound: None,
        flush: None,
    }; 16],
    sync: None,
    marker_waits: false,
    found: Found {
        write: NOTHING_FOUND,
        append: NOTHING_FOUND,
        log: None,
        synced: None,
        stopped: None,
    },
};

/// Why a step was not made.
#[derive(Clone, Copy, Debug, PartialEq, Eq)]
pub enum StepFault {
    /// No row of the path allows it.
    NotAllowed,
    /// It is allowed, and there was no memory for it. Only a step that makes a list of the state
    /// longer is answered so: the close of an operation, a new group, a claim, a new memtable, the
    /// Sync turn given back, the synced key, and a memtable retired. To register takes none: that
    /// is answered so only where the count of the group is at its type's end.
    OutOfMemory,
}

/// A write path. Contracts see its state.
#[derive(Drop)]
pub struct Path {
    alloc: Global,
    state: PathState,
    ghost within: { IsWithin state },
}

impl Model for Path {
    ghost Value = { PathState };

    ghost view = { λ p. p.state };
}

// Group 0, open and empty.
fn first_group(alloc: Global) -> Result<OrderGroups, OutOfMemory>
    ensures { IfOk result (λ g. g ≡ first_group) }
{
    let mut tallies = Vec::new(alloc);
    tallies.push(Tally::Open(0))?;
    Ok(OrderGroups {
        tallies: Rows::new(tallies),
        current: 0,
        oldest: 0,
    })
}

fn fresh_table(alloc: Global) -> Result<TableState, OutOfMemory>
    ensures { IfOk result (λ t. t ≡ fresh_table) }
{
    let mut memtables = Vec::new(alloc);
    memtables.push(FRESH)?;
    Ok(TableState {
        newest: 0,
        oldest_live: 0,
        memtables: Rows::new(memtables),
    })
}

fn fresh_tables(alloc: Global, count: u8) -> Result<Vec<TableState>, OutOfMemory>
    ensures { IfOk result (λ v. v.items ≡ replicate count fresh_table) }
{
    let mut tables = Vec::new(alloc);
    for i in 0..count {
        tables.push(fresh_table(alloc)?)?;
    }
    Ok(tables)
}

fn fresh_seats(alloc: Global, count: u8) -> Result<Vec<Seat>, OutOfMemory>
    ensures { IfOk result (λ v. v.items ≡ replicate count fresh_seat) }
{
    Ok(vec![in alloc; FRESH_SEAT; count as usize]?)
}

impl Path {
    /// A path that has not begun. `base` is the id of its first segment; no bound is asked of it.
    /// `OutOfMemory`: memory was refused.
    pub fn new(alloc: Global, sizes: Sizes, base: u64) -> Result<Path, OutOfMemory>
        ensures { IfOk result (λ p. p ≡ opening sizes.tables sizes.writers sizes.capacity
            sizes.ordinals base) }
    {
        Ok(Path {
            alloc,
            state: PathState {
                base,
                capacity: sizes.capacity,
                ordinals: sizes.ordinals,
                log: FIRST_OFFSET,
                claims: Rows::new(Vec::new(alloc)),
                notes: Rows::new(Vec::new(alloc)),
                write: first_group(alloc)?,
                append: first_group(alloc)?,
                tables: Rows::new(fresh_tables(alloc, sizes.tables)?),
                placed: Rows::new(Vec::new(alloc)),
                seats: Rows::new(fresh_seats(alloc, sizes.writers)?),
                synced: 0,
                stopped: 0,
                logged: Rows::new(Vec::new(alloc)),
                files: Rows::new(Vec::new(alloc)),
                dropped: Rows::new(Vec::new(alloc)),
            },
        })
    }

    /// The state as it is now.
    pub fn state(&self) -> &PathState
        ensures { result.now ≡ self.now }
    {
        &self.state
    }

    /// Makes a step, exactly where it is allowed. After a refusal nothing has changed.
    ///
    /// The rows are `specs/Allowed.antt`. They are narrower in two places: the holder of a Flush
    /// turn raises a bound only to the last log key that it found since the Mark, not to an earlier
    /// one; and after its own Finalise it neither raises nor finalises that memtable again.
    pub fn step(&mut self, event: &Event) -> Result<(), StepFault>
        ensures { StepsTo result self.old event.now self.new }
    {
        if !allows(&self.state, event) {
            return Err(StepFault::NotAllowed);
        }
        match make(&mut self.state, self.alloc, event) {
            Ok(()) => Ok(()),
            Err(_) => Err(StepFault::OutOfMemory),
        }
    }
}
