//! The thread that pushes. Where the queue is full, it takes an item and does it itself, so that it
//! does not depend on a worker's start.
ghost use Rattle.std.specs.Prelude.{◌≡◌, ◌<◌, [], ◌++◌, List};
ghost use Rattle.crossbeam_queue.specs.Passes.{view, IsPassOf, IsSamePass};
ghost use Rattle.replay_queue.specs.GivenBack.{HasGiven, PutsOn};
ghost use Rattle.replay_queue.specs.Fair.{hand, item_of};
ghost use Rattle.replay_queue.specs.Has.{Has};

use crate::done::Done;
use crate::pusher::Pusher;
use crate::rule::{Bench, Hold, Job, Puts, Takes};
use crate::work::{Own, Source, Work, begin, take_own};
use crossbeam_utils::Backoff;
use std::sync::Wait;

/// Puts a job. Where the queue is full, a job is taken from it: an item is done here, and of end
/// marks the number is answered, since they are to be put again.
pub(crate) fn put<R: Wait, T: Drop, S, W: Work<T, S>>(
    rt: &R,
    bench: &Bench<T>,
    task: &W,
    pass: &mut Hold<T>,
    own: &mut Own<S>,
    mut job: Job<T>,
) -> u64
    requires { IsPassOf bench.now pass.old × (0 < (view pass.old).parts) }
    ensures queue { IsSamePass pass.old pass.new }
    ensures parts { (view pass.new).parts ≡ (view pass.old).parts }
    ensures put { (view pass.new).put ≡ (view pass.old).put ++ item_of job }
    ensures own { Has (W.done task.now) own.old (view pass.old).taken
        → Has (W.done task.now) own.new (view pass.new).taken }
{
    let mut ends = 0u64;
    let backoff = Backoff::new();
    for _ in rt.forever() {
        match bench.push_as::<Puts, R>(rt, pass, job) {
            Ok(()) => return ends,
            Err(back) => job = back,
        }
        match bench.try_pop_as::<Takes>(pass) {
            Some(Job::Item(item)) => take_own(task, own, None, item),
            Some(Job::End) => ends = ends.saturating_add(1),
            None => backoff.snooze(),
        }
    }
    unreachable!()
}

/// Puts as many end marks. One that is taken meanwhile is put again.
fn put_ends<R: Wait, T: Drop, S, W: Work<T, S>>(
    rt: &R,
    bench: &Bench<T>,
    task: &W,
    pass: &mut Hold<T>,
    own: &mut Own<S>,
    ends: u8,
)
    requires { IsPassOf bench.now pass.old × (0 < (view pass.old).parts) }
    ensures queue { IsSamePass pass.old pass.new }
    ensures parts { (view pass.new).parts ≡ (view pass.old).parts }
    ensures put { (view pass.new).put ≡ (view pass.old).put }
    ensures own { Has (W.done task.now) own.old (view pass.old).taken
        → Has (W.done task.now) own.new (view pass.new).taken }
{
    let mut left = u64::from(ends);
    for _ in rt.forever() {
        if left == 0 {
            break;
        }
        let again = put(rt, bench, task, pass, own, Job::End);
        left = (left - 1).saturating_add(again);
    }
}

/// Takes all items of a source.
fn put_source<R: Wait, T: Drop, S, O, W: Work<T, S>, F: Source<T, O>>(
    rt: &R,
    bench: &Bench<T>,
    task: &W,
    source: F,
    own: Own<S>,
    pass: Hold<T>,
) -> (O, Own<S>, Hold<T>)
    requires queue { IsPassOf bench.now pass × (0 < (view pass).parts) }
    requires source { F.can_give source }
    ensures { (items : List T) × F.gives source result.0 items
        × PutsOn (W.done task.now) own pass items result.1 result.2 }
{
    let mut to = Pusher {
        rt,
        bench,
        task,
        own,
        pass,
    };
    let answer = source.give(&mut to);
    let Pusher {
        rt: _,
        bench: _,
        task: _,
        own,
        pass,
    } = to;
    (answer, own, pass)
}

/// Takes all items of a source, and then puts as many end marks.
pub(crate) fn put_all<R: Wait, T: Drop, S: Drop, O, W: Work<T, S>, F: Source<T, O>>(
    rt: &R,
    bench: &Bench<T>,
    task: &W,
    source: F,
    ends: u8,
    pass: Hold<T>,
) -> (O, Done<T, S>)
    requires queue { IsPassOf bench.now pass × (0 < (view pass).parts) }
    requires source { F.can_give source }
    requires none { view pass ≡ hand (view pass).parts [] [] }
    ensures { HasGiven bench.now (W.done task.now) (view pass).parts (F.gives source) result }
{
    let own = begin(task);
    let (answer, mut own, mut pass) = put_source(rt, bench, task, source, own, pass);
    put_ends(rt, bench, task, &mut pass, &mut own, ends);
    (answer, Done { own, pass })
}
