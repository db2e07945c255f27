//! The sink of the thread that pushes. It may wait, since its type holds what may.
ghost use Rattle.std.specs.Prelude.{◌≡◌, ◌<◌, List};
ghost use Rattle.crossbeam_queue.specs.Passes.{view, IsPassOf};
ghost use Rattle.replay_queue.specs.GivenBack.{PutsOn};

use crate::pushing::put;
use crate::rule::{Bench, Hold, Job};
use crate::work::{Own, Sink, Work};
use std::sync::Wait;

/// Puts items into the queue, and takes items where it is full.
pub(crate) struct Pusher<'a, R: Wait, T, S, W> {
    pub(crate) rt: &'a R,
    pub(crate) bench: &'a Bench<T>,
    pub(crate) task: &'a W,
    pub(crate) own: Own<S>,
    pub(crate) pass: Hold<T>,
}

impl<'a, R: Wait, T: Drop, S, W: Work<T, S>> Sink<T> for Pusher<'a, R, T, S, W> {
    ghost use Rattle.std.specs.Prelude.{◌≡◌, ◌<◌};
    ghost use Rattle.crossbeam_queue.specs.Passes.{view, IsPassOf};
    ghost use Rattle.replay_queue.specs.GivenBack.{PutsOn};
    ghost use Rattle.replay_queue.specs.Puts.{puts_none, puts_more};

    ghost can_put = { λ p. IsPassOf p.bench.now p.pass × (0 < (view p.pass).parts) };

    ghost goes_on = { λ p items q. (q.task.now ≡ p.task.now)
        × PutsOn (W.done p.task.now) p.own p.pass items q.own q.pass };

    ghost put_none = { λ s. puts_none (W.done s.task.now) s.own s.pass s.task.now };

    ghost put_more = { λ a b c items more one two. puts_more W.done a.task.now b.task.now
        c.task.now a.own a.pass items b.own b.pass more c.own c.pass one two };

    fn push(&mut self, item: T) {
        put(
            self.rt,
            self.bench,
            self.task,
            &mut self.pass,
            &mut self.own,
            Job::Item(item),
        );
    }
}
