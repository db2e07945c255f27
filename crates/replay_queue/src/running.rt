//! Workers are started in a scope, and the thread that starts them pushes. The closure of a worker
//! for which no thread can be started comes back, and is called behind the last push.
ghost use Rattle.std.specs.Prelude.{◌≡◌, ◌<◌, ◌≤◌, [], IfSome, IsPermutation, List};
ghost use Rattle.crossbeam_queue.specs.Passes.{view, IsPassOf};
ghost use Rattle.replay_queue.specs.GivenBack.{HasGiven, HasWorked};
ghost use Rattle.replay_queue.specs.Fair.{hand};

use crate::done::Done;
use crate::pushing::put_all;
use crate::queue::Queue;
use crate::rule::{Bench, Cut, Hold};
use crate::work::{Source, Work};
use crate::working::{drain, join_done, work};
use std::marker::{PhantomData, Send, Sync};
use std::sync::Wait;
use std::thread;
use std::thread::{Promise, Scope, Threads};

/// What a worker gives back is of this queue and this work.
#[derive(Drop)]
struct Worked<'a, T, S, W> {
    bench: &'a Bench<T>,
    task: &'a W,
    of: PhantomData<S>,
}

impl<'a, T, S, W: Work<T, S>> Promise<Done<T, S>> for Worked<'a, T, S, W> {
    ghost kept_by = { λ p r. HasWorked p.bench.now (W.done p.task.now) r };
}

/// Starts so many workers, one in each call, and pushes behind the last start.
fn run_from<'s, E, R, T, S, O, W, F>(
    scope: &'s Scope<'s, E>,
    rt: &'s R,
    bench: &'s Bench<T>,
    task: &'s W,
    source: F,
    workers: u8,
    left: u8,
    mut pass: Hold<T>,
) -> (O, Done<T, S>)
where
    R: Threads + Wait + Sync,
    T: Send + Drop + 's,
    S: Send + Drop + 's,
    W: Work<T, S> + Sync,
    F: Source<T, O> + Drop,
    requires queue { IsPassOf bench.now pass × (left < (view pass).parts) }
    requires source { F.can_give source }
    requires none { view pass ≡ hand (view pass).parts [] [] }
    ensures { HasGiven bench.now (W.done task.now) (view pass).parts (F.gives source) result }
{
    if left == 0 {
        return put_all(rt, bench, task, source, workers, pass);
    }
    let worker = left - 1;
    let theirs = bench.another::<Cut>(&mut pass);
    let promise: Worked<'s, T, S, W> = Worked {
        bench,
        task,
        of: PhantomData,
    };
    let started = scope.spawn_with(
        promise,
        move || -> Done<T, S>
            requires { IsPassOf bench.now theirs × (view theirs ≡ hand 1 [] []) }
            ensures { HasWorked bench.entry.now (W.done task.entry.now) result }
        { work(rt, bench, task, worker, theirs) },
    );
    let (answer, mine) = run_from(scope, rt, bench, task, source, workers, worker, pass);
    let others = match started {
        Ok(handle) => handle.join(rt),
        Err(refused) => (refused.value)(),
    };
    (answer, join_done(bench, task, mine, others))
}

/// Starts the workers in a scope, pushes, and waits for the end of all.
fn run_in_scope<'a, R, T, S, O, W, F>(
    rt: &'a R,
    bench: &'a Bench<T>,
    task: &'a W,
    source: F,
    workers: u8,
    pass: Hold<T>,
) -> (O, Done<T, S>)
where
    R: Threads + Wait + Sync,
    T: Send + Drop,
    S: Send + Drop,
    W: Work<T, S> + Sync,
    F: Source<T, O> + Drop,
    requires queue { IsPassOf bench.now pass × (workers ≤ 64) }
    requires source { F.can_give source }
    requires all { view pass ≡ hand 1024 [] [] }
    ensures { HasGiven bench.now (W.done task.now) 1024 (F.gives source) result }
{
    thread::scope(
        thread::scope_env(),
        rt,
        move |scope| -> (O, Done<T, S>)
            requires { IsPassOf bench.now pass × (workers ≤ 64) × (view pass ≡ hand 1024 [] [])
                × F.can_give source }
            ensures { HasGiven bench.entry.now (W.done task.entry.now) 1024 (F.gives source)
                result }
        { run_from(scope, rt, bench, task, source, workers, workers, pass) },
    )
}

/// Does the work on all items of a source, by 0 to 64 workers and by the caller: each item is taken
/// once, in whatever order. Besides the source's answer there is the state of all of them, or None
/// where memory was refused to a thread. Nothing is answered before all workers have ended.
///
/// Workers are told to the work by their numbers, from 0. One for which no thread can be started is
/// run by the caller, behind the last push.
pub fn run<R, T, S, O, W, F>(
    rt: &R,
    queue: Queue<T>,
    task: &W,
    source: F,
    workers: u8,
) -> (O, Option<S>)
where
    R: Threads + Wait + Sync,
    T: Send + Drop,
    S: Send + Drop,
    W: Work<T, S> + Sync,
    F: Source<T, O> + Drop,
    requires workers { workers ≤ 64 }
    requires source { F.can_give source }
    ensures { (items taken : List T) × F.gives source result.0 items × IsPermutation taken items
        × IfSome result.1 (λ s. W.done task.now s taken) }
{
    let Queue { bench, pass } = queue;
    let (answer, done) = run_in_scope(rt, &bench, task, source, workers, pass);
    let own = drain(rt, &bench, task, done);
    if own.failed {
        return (answer, None);
    }
    (answer, Some(own.state))
}
