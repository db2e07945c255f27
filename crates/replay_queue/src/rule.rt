//! The queue's rule: what was put is what was taken and what the queue holds, each item as often.
//! End marks count for nothing.
ghost use Rattle.std.specs.Prelude.{◌≡◌, ◌+◌, ◌-◌, ◌++◌, [], IsPermutation, ⊤};
ghost use Rattle.std.specs.List.{flat_map};
ghost use Rattle.replay_queue.specs.Fair.{Balanced, hand, item_of};

use crossbeam_queue::protocol::{Join, Lesson, Outcome, Protocol, Split};
use crossbeam_queue::{Pass, RuledArrayQueue};
use std::collections::LinkedList;

/// What stands in the queue: an item, or a mark at which a worker ends.
#[derive(Drop)]
pub enum Job<T> {
    /// An item.
    Item(T),
    /// The worker that takes it ends.
    End,
}

/// What a pass has put and taken, and its parts of the right to know the whole. No value of it is
/// made.
pub struct Hand<T> {
    /// Its parts of 1024.
    pub parts: u64,
    /// The items that it has put.
    pub put: LinkedList<T>,
    /// The items that it has taken.
    pub taken: LinkedList<T>,
}

/// The rule, under its name.
pub struct Fair;

impl<T> Protocol<Job<T>, Hand<T>> for Fair {
    ghost holds = { λ items views. Balanced items views };

    ghost first = { hand 1024 [] [] };
}

/// A pass with one part is cut off, which has put and taken nothing; and one is joined with
/// another.
pub struct Cut;

impl<T> Split<Hand<T>> for Cut {
    ghost left = { λ v. hand (v.parts - 1) v.put v.taken };

    ghost right = { λ v. hand 1 [] [] };
}

impl<T> Join<Hand<T>> for Cut {
    ghost both = { λ v w. hand (v.parts + w.parts) (v.put ++ w.put) (v.taken ++ w.taken) };

    ghost spent = { hand 0 [] [] };
}

/// A job is put: an item is one more that the pass has put.
pub struct Puts;

impl<T> Outcome<Job<T>, Hand<T>> for Puts {
    ghost then = { λ v x w. w ≡ hand v.parts (v.put ++ item_of x) v.taken };
}

impl<T> Lesson<Job<T>, Hand<T>> for Puts {
    ghost fact = { λ v items. ⊤ };
}

/// A job is taken: an item is one more that the pass has taken. With all parts it is known that
/// what was put is what was taken and what the queue holds.
pub struct Takes;

impl<T> Outcome<Job<T>, Hand<T>> for Takes {
    ghost then = { λ v x w. w ≡ hand v.parts v.put (v.taken ++ item_of x) };
}

impl<T> Lesson<Job<T>, Hand<T>> for Takes {
    ghost fact = { λ v items. IsPermutation v.put (v.taken ++ flat_map item_of items) };
}

/// The queue.
pub type Bench<T> = RuledArrayQueue<Job<T>, Hand<T>, Fair>;

/// A thread's pass.
pub type Hold<T> = Pass<Job<T>, Hand<T>>;
