//! What an operation of a reader takes, beside a mutex and a read-write lock around the same value,
//! what a publication takes, and what both take beside one another.
ghost use Rattle.std.specs.Prelude.{◌≤◌};

use anyhow::{Result, bail};
use op_order::OpOrder;
use order_run::{PLACES, Products, publish_all, read_all, run_orders};
use std::alloc::Global;
use std::rt::Clock;
use std::sync::{Mutex, RwLock, Wait};
use std::thread;
use std::thread::Threads;
use std::time::{Duration, Instant};

// How often each thread does it.
const ROUNDS: u32 = 1_000_000;

// The nanoseconds of one of so many.
fn each(took: Duration) -> u128 {
    took.as_nanos() / u128::from(ROUNDS)
}

fn by_order<R: Threads + Wait + Clock + Sync>(rt: &R, alloc: Global, readers: u8) -> Result<u128>
    requires { (1 ≤ readers) × (readers ≤ 63) }
{
    let Ok((order, _owner, seats)) = OpOrder::<Products>::open(alloc, readers, PLACES, 0) else {
        bail!("out of memory");
    };
    let begin = Instant::now(rt)?;
    if read_all(rt, alloc, &order, seats, ROUNDS).is_err() {
        bail!("out of memory");
    }
    Ok(each(begin.elapsed(rt)?))
}

fn read_mutex<R: Wait>(rt: &R, lock: &Mutex<u64>) -> u64 {
    let mut sum = 0_u64;
    for _ in 0..ROUNDS {
        sum = sum.wrapping_add(*lock.lock(rt));
    }
    sum
}

fn read_lock<R: Wait>(rt: &R, lock: &RwLock<u64>) -> u64 {
    let mut sum = 0_u64;
    for _ in 0..ROUNDS {
        sum = sum.wrapping_add(*lock.read(rt));
    }
    sum
}

fn by_mutex<R: Threads + Wait + Clock + Sync>(rt: &R, alloc: Global, threads: u8) -> Result<u128> {
    let lock = Mutex::new(1_u64);
    let mut sums = Vec::from_elem(alloc, 0_u64, usize::from(threads))?;
    let begin = Instant::now(rt)?;
    thread::for_each_mut(
        rt,
        sums.as_mut_slice(),
        4,
        &|_, sum| {
            *sum = read_mutex(rt, &lock);
        },
    );
    Ok(each(begin.elapsed(rt)?))
}

fn by_lock<R: Threads + Wait + Clock + Sync>(rt: &R, alloc: Global, threads: u8) -> Result<u128> {
    let lock = RwLock::new(1_u64);
    let mut sums = Vec::from_elem(alloc, 0_u64, usize::from(threads))?;
    let begin = Instant::now(rt)?;
    thread::for_each_mut(
        rt,
        sums.as_mut_slice(),
        4,
        &|_, sum| {
            *sum = read_lock(rt, &lock);
        },
    );
    Ok(each(begin.elapsed(rt)?))
}

fn by_owner<R: Wait + Clock>(rt: &R, alloc: Global) -> Result<u128> {
    let Ok((order, owner, _seats)) = OpOrder::<Products>::open(alloc, 1, PLACES, 0) else {
        bail!("out of memory");
    };
    let begin = Instant::now(rt)?;
    let _done = publish_all(rt, &order, owner, ROUNDS);
    Ok(each(begin.elapsed(rt)?))
}

// Readers beside the owner, each with as many rounds: what one round of them all takes.
fn beside_owner<R: Threads + Wait + Clock + Sync>(
    rt: &R,
    alloc: Global,
    readers: u8,
) -> Result<u128>
    requires { (1 ≤ readers) × (readers ≤ 63) }
{
    let begin = Instant::now(rt)?;
    if run_orders(rt, alloc, readers, ROUNDS).is_err() {
        bail!("out of memory");
    }
    Ok(each(begin.elapsed(rt)?))
}

fn write_lock<R: Wait>(rt: &R, lock: &RwLock<u64>) {
    for round in 0..ROUNDS {
        *lock.write(rt) = u64::from(round);
    }
}

// The same of a lock that one thread writes.
fn beside_writer<R: Threads + Wait + Clock + Sync>(
    rt: &R,
    alloc: Global,
    readers: u8,
) -> Result<u128> {
    let lock = RwLock::new(1_u64);
    let mut sums = Vec::from_elem(alloc, 0_u64, usize::from(readers))?;
    let begin = Instant::now(rt)?;
    thread::join(
        rt,
        || write_lock(rt, &lock),
        || {
            thread::for_each_mut(
                rt,
                sums.as_mut_slice(),
                4,
                &|_, sum| {
                    *sum = read_lock(rt, &lock);
                },
            );
        },
    );
    Ok(each(begin.elapsed(rt)?))
}

/// Prints the figures, in nanoseconds.
pub(crate) fn measure<R: Threads + Wait + Clock + Print + Sync>(
    rt: &R,
    alloc: Global,
) -> Result<()> {
    for threads in 1..=4 {
        let order = by_order(rt, alloc, threads)?;
        let mutex = by_mutex(rt, alloc, threads)?;
        let lock = by_lock(rt, alloc, threads)?;
        println!(rt;
            "{threads} threads: an operation {order} ns, mutex {mutex} ns, lock {lock} ns"
        )?;
    }
    println!(rt;
        "a publication, with what it takes back: {} ns",
        by_owner(rt, alloc)?
    )?;
    for readers in 1..=3 {
        let owner = beside_owner(rt, alloc, readers)?;
        let writer = beside_writer(rt, alloc, readers)?;
        println!(rt;
            "{readers} readers beside an owner: {owner} ns; beside a lock's writer {writer}"
        )?;
    }
    Ok(())
}
