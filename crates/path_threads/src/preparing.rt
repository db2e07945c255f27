//! The writes of a writer's lines take all of their memory before the first of them commits.
ghost use Rattle.std.specs.Prelude.{◌≡◌, IfOk};
ghost use Rattle.path_threads.specs.Crews.{AreWrites, IsWrite};

use crate::plan::{Payload, Plan, line_of};
use crate::worker::Worker;
use anyhow::{Result, bail};
use clog_base::Sizes;
use clog_mutation::decode;
use std::alloc::Global;
use write_path::Prepared;

// The write of a line, with all of its memory.
fn prepare(alloc: Global, sizes: Sizes, payload: Payload, line: u32) -> Result<Prepared>
    requires { sizes.tables ≡ 16 }
    ensures { IfOk result (IsWrite sizes) }
{
    let mutation = match decode(alloc, payload.bytes()) {
        Ok(mutation) => mutation,
        Err(_) => bail!("no mutation"),
    };
    match Prepared::make(alloc, sizes, line, mutation) {
        Ok(prepared) => Ok(prepared),
        Err(_) => bail!("no write"),
    }
}

// The writes of all lines of the writer of a number, in order.
fn writes_of(alloc: Global, sizes: Sizes, plan: Plan, number: u32) -> Result<Vec<Prepared>>
    requires { sizes.tables ≡ 16 }
    ensures { IfOk result (λ v. AreWrites sizes v.items) }
{
    let mut writes = Vec::new(alloc);
    for place in 0..plan.lines {
        let line = line_of(place, number, sizes.writers);
        let write = prepare(alloc, sizes, plan.payload, line)?;
        writes.push(write)?;
    }
    Ok(writes)
}

// The same, or none where there is not the memory for all.
fn all_or_none(alloc: Global, sizes: Sizes, plan: Plan, number: u32) -> Vec<Prepared>
    requires { sizes.tables ≡ 16 }
    ensures { AreWrites sizes result.items }
{
    match writes_of(alloc, sizes, plan, number) {
        Ok(writes) => writes,
        Err(_) => Vec::new(alloc),
    }
}

/// Prepares the writes of all lines of the writer of a number, and room for their receipts. Where
/// there is not the memory for all it has no write.
pub fn prepare_share<K>(
    alloc: Global,
    sizes: Sizes,
    plan: Plan,
    number: u32,
    worker: &mut Worker<K>,
)
    requires { sizes.tables ≡ 16 }
    ensures seat { worker.new.seat ≡ worker.old.seat }
    ensures writes { AreWrites sizes worker.new.writes.items }
{
    let _has_room = worker.receipts.reserve(plan.lines as usize);
    worker.writes = all_or_none(alloc, sizes, plan, number);
}
