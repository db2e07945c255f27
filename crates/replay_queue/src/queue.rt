//! The queue that a run takes.
ghost use Rattle.std.specs.Prelude.{◌≡◌, []};
ghost use Rattle.crossbeam_queue.specs.Passes.{view, IsPassOf};
ghost use Rattle.replay_queue.specs.Fair.{hand};

use crate::rule::{Bench, Hold};
use std::alloc::{AllocError, Global};

/// How many places the queue has.
const PLACES: usize = 256;

/// An empty queue of 256 places, and the one pass of it.
#[derive(Drop)]
pub struct Queue<T> {
    pub(crate) bench: Bench<T>,
    pub(crate) pass: Hold<T>,
    // Nothing was put or taken, and the pass has all parts.
    pub ghost fresh: { IsPassOf bench pass × (view pass ≡ hand 1024 [] []) },
}

impl<T> Queue<T> {
    /// Takes all memory that a run asks for besides that of the work, or answers that it was
    /// refused.
    pub fn new(alloc: Global) -> Result<Queue<T>, AllocError> {
        let (bench, pass) = Bench::<T>::ruled(alloc, PLACES)?;
        Ok(Queue { bench, pass })
    }
}
