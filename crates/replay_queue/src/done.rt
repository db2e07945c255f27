//! What a thread gives back at its end.
use crate::rule::Hold;
use crate::work::Own;

/// A thread's state, and its pass.
#[derive(Drop)]
pub struct Done<T, S> {
    /// Its state.
    pub own: Own<S>,
    /// Its pass, which is joined with others.
    pub pass: Hold<T>,
}
