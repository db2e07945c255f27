//! What is done with items, and where they come from. Nothing here knows of threads.
ghost use Rattle.std.specs.Prelude.{[], ◌∷◌, ◌++◌, List, OnOk};
ghost use Rattle.replay_queue.specs.Has.{Has};

use std::alloc::AllocError;

/// What is done with each item. Each thread has a state of its own; they are joined at the end.
pub trait Work<T, S> {
    /// The state is of these items.
    ghost done: { Self → S → List T → Type 0 };

    /// A state of no item.
    fn begin(&self) -> S
        ensures { done self.now result [] };

    /// Takes an item in, or answers that memory was refused. `worker` is None in the thread that
    /// pushes.
    fn take(&self, state: &mut S, worker: Option<u8>, item: T) -> Result<(), AllocError>
        ensures { OnOk result ((items : List T) → done self.now state.old items
            → done self.now state.new (items ++ item ∷ [])) };

    /// Joins two states, or answers that memory was refused.
    fn join(&self, state: &mut S, other: S) -> Result<(), AllocError>
        ensures { OnOk result ((items more : List T) → done self.now state.old items
            → done self.now other more → done self.now state.new (items ++ more)) };

    /// A worker begins.
    fn started(&self, worker: u8);

    /// A worker ends.
    fn returned(&self, worker: u8);
}

/// Where items are put.
pub trait Sink<T> {
    /// Items may be put.
    ghost can_put: { Self → Type 0 };

    /// From the one to the other by putting these items.
    ghost goes_on: { Self → List T → Self → Type 0 };

    /// Puts an item.
    fn push(&mut self, item: T)
        requires { can_put self.old }
        ensures { can_put self.new × goes_on self.old (item ∷ []) self.new };

    /// No item leaves the sink as it is.
    ghost put_none: { (s : Self) → goes_on s [] s };

    /// Items that are put behind others.
    ghost put_more: { (a b c : Self) (items more : List T) → goes_on a items b → goes_on b more c
        → goes_on a (items ++ more) c };
}

/// Where items come from.
pub trait Source<T, O> {
    /// Its items may be asked for.
    ghost can_give: { Self → Type 0 };

    /// It answers this, and gives these items.
    ghost gives: { Self → O → List T → Type 0 };

    /// Puts all items into a sink.
    fn give<P: Sink<T>>(self, to: &mut P) -> O
        requires sink { P.can_put to.old }
        requires source { can_give self }
        ensures { (items : List T) × gives self result items × P.can_put to.new
            × P.goes_on to.old items to.new };
}

/// A thread's state, or that memory was refused to it.
#[derive(Drop)]
pub struct Own<S> {
    /// The state, which is of what was taken unless memory was refused.
    pub state: S,
    /// Whether memory was refused.
    pub failed: bool,
}

/// The state of no item.
pub(crate) fn begin<T, S, W: Work<T, S>>(task: &W) -> Own<S>
    ensures { Has (W.done task.now) result [] }
{
    Own {
        state: task.begin(),
        failed: false,
    }
}

/// Takes an item in. Once memory was refused items are dropped, so that nobody waits for the
/// thread.
pub(crate) fn take_own<T: Drop, S, W: Work<T, S>>(
    task: &W,
    own: &mut Own<S>,
    worker: Option<u8>,
    item: T,
)
    ensures { (items : List T) → Has (W.done task.now) own.old items
        → Has (W.done task.now) own.new (items ++ item ∷ []) }
{
    if own.failed {
        return;
    }
    if task.take(&mut own.state, worker, item).is_err() {
        own.failed = true;
    }
}

/// Joins what another thread has.
pub(crate) fn join_own<T, S: Drop, W: Work<T, S>>(task: &W, own: &mut Own<S>, other: Own<S>)
    ensures { (items more : List T) → Has (W.done task.now) own.old items
        → Has (W.done task.now) other more → Has (W.done task.now) own.new (items ++ more) }
{
    let Own { state, failed } = other;
    if failed || own.failed {
        own.failed = true;
        return;
    }
    if task.join(&mut own.state, state).is_err() {
        own.failed = true;
    }
}
