//! What the readers do.
ghost use Rattle.std.specs.Prelude.{◌≡◌, ◌+◌, ◌*◌, ◌≤◌, suc, IfOk, length};
ghost use Rattle.std.specs.List.{All};
ghost use Rattle.order_run.specs.Rounds.{HasMade, HasRead, HaveRead, IsFresh, moves_of};

use crate::products::Products;
use clog_base::OutOfMemory;
use op_order::{OpOrder, Reader, Running};
use std::alloc::{AllocError, Global};
use std::sync::Wait;
use std::thread;
use std::thread::{Threads, yield_now};

/// A reader, and how many operations it has made.
#[derive(Drop)]
pub(crate) struct Reads {
    /// It runs no operation.
    reader: Reader,
    /// Of each is known that it started and ended.
    reads: u64,
}

// Starts an operation. Refused, it gives way before it tries again: a try takes the word's cache
// line from the readers that would change it. No clause says that it returns.
fn start<R: Wait>(rt: &R, order: &OpOrder<Products>, reader: Reader) -> Running
    requires { reader.seat.table_id ≡ order.now.table.shared.table_id }
    ensures { (result.seat.table_id ≡ order.now.table.shared.table_id)
        × (moves_of result.seat ≡ suc (moves_of reader.seat)) }
{
    let mut reader = reader;
    for _ in rt.forever() {
        match order.start(reader) {
            Ok(op) => return op,
            Err((refused, _seen)) => reader = refused,
        }
        yield_now();
    }
    unreachable!()
}

// One operation: it looks at the root, and reads the value there. No clause says that it returns.
fn read_once<R: Wait>(rt: &R, order: &OpOrder<Products>, reader: Reader) -> (Reader, u64)
    requires { reader.seat.table_id ≡ order.now.table.shared.table_id }
    ensures { (result.0.seat.table_id ≡ order.now.table.shared.table_id)
        × (moves_of result.0.seat ≡ 2 + moves_of reader.seat) }
{
    let mut op = start(rt, order, reader);
    order.look(&mut op);
    let value = order.value(&mut op);
    (order.end(op), value)
}

// So many operations, one after another.
fn read_rounds<R: Wait>(rt: &R, order: &OpOrder<Products>, reader: Reader, rounds: u32) -> Reads
    requires { IsFresh order.now.table.shared.table_id reader }
    ensures { HasRead order.now.table.shared.table_id rounds result }
{
    let mut reader = reader;
    let mut reads = 0;
    for _ in 0..rounds {
        let (next, _value) = read_once(rt, order, reader);
        reader = next;
        reads += 1;
    }
    Reads { reader, reads }
}

// Each reader makes so many operations, in a thread of its own where one can be started.
fn read_each<R: Threads + Wait + Sync>(
    rt: &R,
    order: &OpOrder<Products>,
    readers: Vec<Reader>,
    rounds: u32,
) -> Result<Vec<Reads>, AllocError>
    requires { All (IsFresh order.now.table.shared.table_id) readers.items }
    ensures { IfOk result (λ done. HaveRead order.now.table.shared.table_id
        (length readers.items) rounds done.items) }
{
    thread::map_vec(
        rt,
        readers,
        &|reader: Reader|
            requires { IsFresh order.now.table.shared.table_id reader }
            ensures { HasRead order.entry.now.table.shared.table_id rounds result }
        { read_rounds(rt, order, reader, rounds) },
    )
}

/// Each reader makes so many operations, in a thread of its own where one can be started. Returns
/// the readers, and how many operations they made together.
pub fn read_all<R: Threads + Wait + Sync>(
    rt: &R,
    alloc: Global,
    order: &OpOrder<Products>,
    readers: Vec<Reader>,
    rounds: u32,
) -> Result<(Vec<Reader>, u64), OutOfMemory>
    requires readers { All (IsFresh order.now.table.shared.table_id) readers.items }
    requires few { (length readers.items ≤ 63) × (rounds ≤ 1000000) }
    ensures { IfOk result (λ r. All (HasMade order.now.table.shared.table_id rounds) r.0.items
        × (r.1 ≡ length readers.items * rounds)) }
{
    let mut back = Vec::with_capacity(alloc, readers.len())?;
    let mut reads = 0;
    for part in read_each(rt, order, readers, rounds)? {
        reads += part.reads;
        back.push_reserved(part.reader);
    }
    Ok((back, reads))
}
