//! A worker takes items until it takes an end mark; and what is left at the end is taken.
ghost use Rattle.std.specs.Prelude.{◌≡◌, ◌+◌, [], List, IsPermutation};
ghost use Rattle.crossbeam_queue.specs.Passes.{view, IsPassOf};
ghost use Rattle.replay_queue.specs.GivenBack.{HasPut, HasWorked};
ghost use Rattle.replay_queue.specs.Fair.{hand};
ghost use Rattle.replay_queue.specs.Has.{Has};

use crate::done::Done;
use crate::rule::{Bench, Cut, Hold, Job, Takes};
use crate::work::{Own, Work, begin, join_own, take_own};
use crossbeam_utils::Backoff;
use std::sync::Wait;

/// Takes items until it takes an end mark, whichever it is. Where the queue is empty it waits.
pub(crate) fn work<R: Wait, T: Drop, S: Drop, W: Work<T, S>>(
    rt: &R,
    bench: &Bench<T>,
    task: &W,
    worker: u8,
    mut pass: Hold<T>,
) -> Done<T, S>
    requires { IsPassOf bench.now pass × (view pass ≡ hand 1 [] []) }
    ensures { HasWorked bench.now (W.done task.now) result }
{
    let mut own = begin(task);
    task.started(worker);
    let backoff = Backoff::new();
    for _ in rt.forever() {
        match bench.try_pop_as::<Takes>(&mut pass) {
            Some(Job::Item(item)) => {
                take_own(task, &mut own, Some(worker), item);
                backoff.reset();
            }
            Some(Job::End) => break,
            None => backoff.snooze(),
        }
    }
    task.returned(worker);
    Done { own, pass }
}

/// Joins what a worker gave back.
pub(crate) fn join_done<T, S: Drop, W: Work<T, S>>(
    bench: &Bench<T>,
    task: &W,
    mine: Done<T, S>,
    theirs: Done<T, S>,
) -> Done<T, S>
    requires mine { IsPassOf bench.now mine.pass
        × Has (W.done task.now) mine.own (view mine.pass).taken }
    requires theirs { HasWorked bench.now (W.done task.now) theirs }
    ensures { HasPut bench.now (W.done task.now) ((view mine.pass).parts + 1) (view mine.pass).put
        result }
{
    let Done { mut own, mut pass } = mine;
    let Done {
        own: other,
        pass: others,
    } = theirs;
    join_own(task, &mut own, other);
    bench.absorb::<Cut>(&mut pass, others);
    Done { own, pass }
}

/// Takes what is left, once no other thread has a pass.
pub(crate) fn drain<R: Wait, T: Drop, S: Drop, W: Work<T, S>>(
    rt: &R,
    bench: &Bench<T>,
    task: &W,
    done: Done<T, S>,
) -> Own<S>
    requires queue { IsPassOf bench.now done.pass }
    requires all { (view done.pass).parts ≡ 1024 }
    requires own { Has (W.done task.now) done.own (view done.pass).taken }
    ensures { (taken : List T) × IsPermutation taken (view done.pass).put
        × Has (W.done task.now) result taken }
{
    let Done { mut own, mut pass } = done;
    for _ in rt.forever() {
        match bench.pop_as::<Takes, R>(rt, &mut pass) {
            Some(Job::Item(item)) => take_own(task, &mut own, None, item),
            Some(Job::End) => {}
            None => return own,
        }
    }
    unreachable!()
}
