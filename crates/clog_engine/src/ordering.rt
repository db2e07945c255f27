//! The command `orders`: an owner publishes values while readers read them, and the run is told in
//! numbers. The disk and the source are not called.
ghost use Rattle.std.specs.Prelude.{◌≡◌, ◌≤◌, ◌∷◌, ◌++◌, decimal, IfOk, OnOk, codes};
ghost use Rattle.clog_applied.specs.Printed.{line};
ghost use Rattle.clog_engine.specs.Orders.{RunsOrders, totals_report};

use crate::printing::Report;
use crate::replaying::put_count;
use crate::status::Status;
use clog_base::OutOfMemory;
use itoa::Buffer;
use order_run::{Totals, run_orders};
use std::alloc::{AllocError, Global};
use std::sync::Wait;
use std::thread::Threads;

// Puts the last sequence and its value.
fn put_last(out: &mut Vec<u8>, sequence: u64, value: u64) -> Result<(), AllocError>
    ensures { OnOk result (out.new.items ≡ out.old.items
        ++ line (codes "last" ++ 32 ∷ decimal sequence ++ 32 ∷ decimal value)) }
{
    let mut buffer = Buffer::new();
    out.extend_from_slice("last ".as_bytes())?;
    out.extend_from_slice(buffer.format(sequence).as_bytes())?;
    out.push(b' ')?;
    out.extend_from_slice(buffer.format(value).as_bytes())?;
    Ok(out.push(b'\n')?)
}

// The numbers of a run, one a line but the last value's.
fn report_of(alloc: Global, totals: Totals) -> Result<Report, OutOfMemory>
    ensures { IfOk result (λ text.
        text ≡ totals_report totals.published totals.last totals.reads totals.freed) }
{
    let mut out = Vec::new(alloc);
    put_count(&mut out, "published", totals.published)?;
    put_last(&mut out, totals.published, totals.last)?;
    put_count(&mut out, "reads", totals.reads)?;
    put_count(&mut out, "freed", totals.freed)?;
    Ok(Report::whole(alloc, out))
}

/// Runs an owner and so many readers over so many rounds, and tells it in numbers. No clause says
/// that it returns.
pub(crate) fn orders<T: Threads + Wait + Sync>(
    rt: &T,
    alloc: Global,
    readers: u8,
    rounds: u32,
) -> Result<Report, Status>
    requires readers { (1 ≤ readers) × (readers ≤ 63) }
    requires rounds { rounds ≤ 100000 }
    ensures { RunsOrders readers rounds result }
{
    let totals = run_orders(rt, alloc, readers, rounds)?;
    Ok(report_of(alloc, totals)?)
}
