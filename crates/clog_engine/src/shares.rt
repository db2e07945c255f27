//! The lines of a mutation file, planned for their writers before the folder is called. All
//! memory for their writes is taken here. No line is too large for a segment.
ghost use Rattle.std.specs.Prelude.{◌≡◌, ◌≤◌, length, IfOk};
ghost use Rattle.std.specs.List.{AllByRecursion};
ghost use Rattle.clog_mutation.specs.Limits.{IsWithinLimits};
ghost use Rattle.clog_spec.specs.Sizes.{most_tables};
ghost use Rattle.clog_text.specs.FileLines.{line_limit};
ghost use Rattle.clog_engine.specs.Planning.{IsCellsOf, PlansLines, ReadsPlan};

use crate::copies::copies_of;
use crate::input::{bytes_of, mutations_of};
use crate::status::Status;
use clog_base::{OutOfMemory, Sizes};
use clog_cells::CellMap;
use clog_disk::Disk;
use clog_io::Source;
use clog_mutation::{Mutation, Mutations};
use clog_store::Store;
use clog_writers::{Plan, PlanFault, make_plan};
use std::alloc::Global;
use std::thread::Threads;

/// Lines with a plan of their writers, and the cells that they merge to where a dump asks for them.
#[derive(Drop)]
pub(crate) struct PlannedLines<D: Disk> {
    pub(crate) plan: Plan<Store<D>>,
    pub(crate) cells: CellMap,
}

// The cells of mutations, where a dump asks for them; else none.
fn cells_of(alloc: Global, mutations: &[Mutation], dump: bool) -> Result<CellMap, OutOfMemory>
    ensures { IfOk result (IsCellsOf dump mutations.now) }
{
    if !dump {
        return Ok(CellMap::new(alloc));
    }
    copies_of(alloc, mutations)
}

/// Plans lines for as many writers as the sizes say, which flush at so many updates of a table, or
/// never.
pub(crate) fn plan_lines<T: Threads + Sync, D: Disk + Drop>(
    rt: &T,
    alloc: Global,
    sizes: Sizes,
    flush_at: Option<u32>,
    mutations: Mutations,
    dump: bool,
) -> Result<PlannedLines<D>, Status>
    requires within { AllByRecursion IsWithinLimits mutations }
    requires few { length mutations ≤ line_limit }
    requires tables { sizes.tables ≡ most_tables }
    ensures { PlansLines dump sizes flush_at mutations result }
{
    let cells = cells_of(alloc, mutations.as_slice(), dump)?;
    match make_plan(rt, alloc, sizes, flush_at, mutations.into_vec()) {
        Ok(plan) => Ok(PlannedLines { plan, cells }),
        Err(PlanFault::TooLarge { line, size, most }) => Err(Status::TooLarge(line, size, most)),
        Err(PlanFault::OutOfMemory) => Err(Status::OutOfMemory),
    }
}

/// The lines of the source, planned.
pub(crate) fn read_plan<T: Threads + Sync, S: Source, D: Disk + Drop>(
    rt: &T,
    alloc: Global,
    sizes: Sizes,
    flush_at: Option<u32>,
    source: &mut S,
    dump: bool,
) -> Result<PlannedLines<D>, Status>
    requires tables { sizes.tables ≡ most_tables }
    ensures { ReadsPlan dump sizes flush_at (S.left source.old) (S.left source.new)
        (S.faults source.old) (S.faults source.new) result }
{
    let bytes = bytes_of(alloc, source)?;
    let mutations = mutations_of(rt, alloc, &bytes)?;
    // The file goes here: the memory of the lines' writes, and of a dump's cells, is taken next.
    drop(bytes);
    plan_lines(rt, alloc, sizes, flush_at, mutations, dump)
}
