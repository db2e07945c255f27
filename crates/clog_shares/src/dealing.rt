//! The lines of a file are dealt out to workers: line `n`, from 1, goes to the worker of number `n`
//! modulo their count. Their writes were prepared side by side, and come in order.
ghost use Rattle.std.specs.Prelude.{
  ◌≡◌,
  ℕ,
  ◌+◌,
  ◌<◌,
  ◌^◌,
  ◌++◌,
  List,
  [],
  ◌∷◌,
  length,
  IfOk,
  OnOk,
  Option,
};
ghost use Rattle.std.specs.List.{AllByRecursion};
ghost use Rattle.clog_mutation.specs.declared.mutation.Mutation.{Mutation as MutationOf};
ghost use Rattle.clog_mutation.specs.Limits.{IsWithinLimits};
ghost use Rattle.clog_spec.specs.Sizes.{most_tables};
ghost use Rattle.clog_shares.specs.Crews.{AreDealt};
ghost use Rattle.clog_shares.specs.Planned.{DealsAll};
ghost use Rattle.clog_shares.specs.Tallied.{IsCountedFor, with_counts};
ghost use Rattle.write_path.specs.Writes.{IsPrepared};

use crate::fault::PlanFault;
use crate::preparing::{LineWrite, prepare_lines};
use crate::tally::LineCounts;
use crate::worker::Worker;
use clog_base::Sizes;
use clog_mutation::Mutation;
use path_core::Keeper;
use std::alloc::{AllocError, Global};
use std::thread::Threads;
use write_path::Prepared;

// A worker that has no lines, with room for so many, and for so many lines' counts.
fn idle_worker<K>(alloc: Global, lines: usize, counts: usize) -> Result<Worker<K>, AllocError>
    ensures { IfOk result (λ w. (w.writes.items ≡ []) × (w.counts.items ≡ [])) }
{
    Ok(Worker {
        seat: None,
        writes: Vec::with_capacity(alloc, lines)?,
        counts: Vec::with_capacity(alloc, counts)?,
        fault: None,
    })
}

// Workers that have no lines, each with room for its share of so many.
fn idle_crew<K: Keeper + Drop>(
    alloc: Global,
    sizes: Sizes,
    flush_at: Option<u32>,
    lines: usize,
) -> Result<Vec<Worker<K>>, AllocError>
    ensures { IfOk result (λ v. (flush : Option ℕ) → AreDealt sizes flush [] v.items) }
{
    let most = lines.div_ceil(usize::from(sizes.writers));
    let counts = if flush_at.is_some() { most } else { 0 };
    let mut workers = Vec::new(alloc);
    for _ in 0..sizes.writers {
        let worker = idle_worker(alloc, most, counts)?;
        workers.push(worker)?;
    }
    Ok(workers)
}

// A worker gets a further write, and its counts where they were taken.
fn add<K: Keeper + Drop>(
    worker: &mut Worker<K>,
    write: Prepared,
    counts: Option<LineCounts>,
) -> Result<(), AllocError>
    ensures { OnOk result ((worker.new.writes.items ≡ worker.old.writes.items ++ write ∷ [])
        × (worker.new.counts.items ≡ with_counts worker.old.counts.items counts)) }
{
    worker.writes.push(write)?;
    match counts {
        Some(counts) => Ok(worker.counts.push(counts)?),
        None => Ok(()),
    }
}

// Gives the next line's write to the worker that it belongs to.
fn give<K: Keeper + Drop>(
    workers: &mut [Worker<K>],
    sizes: Sizes,
    line: u32,
    write: Prepared,
    counts: Option<LineCounts>,
) -> Result<(), AllocError>
    requires { length workers.old ≡ sizes.writers }
    ensures { OnOk result ((flush : Option ℕ) (lines : List MutationOf) (m : MutationOf)
        → AreDealt sizes flush lines workers.old → line ≡ length lines + 1
        → IsPrepared sizes line m write → IsCountedFor flush m counts
        → AreDealt sizes flush (lines ++ m ∷ []) workers.new) }
{
    let number = (line % u32::from(sizes.writers)) as usize;
    // Ok and `?`, since what `add` did is known where it was not refused.
    Ok(add(&mut workers[number], write, counts)?)
}

/// Deals the lines of a file out to workers that have no seats yet. `TooLarge`: of all lines this
/// is the first whose entry is larger than half a segment's capacity (`CommitLog.add`). With
/// `flush_at` the updates of each line are counted. Several threads prepare their writes.
pub fn deal<T: Threads + Sync, K: Keeper + Drop>(
    rt: &T,
    alloc: Global,
    sizes: Sizes,
    flush_at: Option<u32>,
    mutations: Vec<Mutation>,
) -> Result<Vec<Worker<K>>, PlanFault>
    requires few { length mutations.items < 2 ^ 32 }
    requires within { AllByRecursion IsWithinLimits mutations.items }
    requires tables { sizes.tables ≡ most_tables }
    ensures { DealsAll sizes flush_at mutations.items result }
{
    let line_writes = prepare_lines(rt, alloc, sizes, flush_at, mutations)?;
    let mut workers = idle_crew(alloc, sizes, flush_at, line_writes.len())?;
    let mut line: u32 = 0;
    for line_write in line_writes {
        line += 1;
        // A match, since the exit speaks of the lines that were dealt out.
        match line_write {
            LineWrite::Made(write, counts) => {
                give(workers.as_mut_slice(), sizes, line, write, counts)?
            }
            LineWrite::Refused(fault) => return Err(fault),
            LineWrite::Waiting(_) => unreachable!(),
        }
    }
    Ok(workers)
}
