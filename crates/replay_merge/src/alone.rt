//! A sink of one thread: the entries of a batch are decoded and merged as it is put.
ghost use Rattle.std.specs.Prelude.{◌≡◌, ◌++◌, IfSome, List, map};
ghost use Rattle.clog_folder.specs.Folder.{PlacedPayload};
ghost use Rattle.replay_merge.specs.Alone.{TakesAlone, alone_more, alone_none};
ghost use Rattle.replay_merge.specs.Entries.{Entry as log_entry, items_of};
ghost use Rattle.replay_merge.specs.Logged.{IsLaterOf, IsTop};
ghost use Rattle.replay_merge.specs.Piped.{IsDone, placed_of};

use crate::batching::take_batch;
use crate::piped::{Batch, Piped};
use crate::piping::Piping;
use clog_base::Position;
use clog_io::OpenGate;
use replay_queue::Sink;

/// What entries come to that one thread takes, and how far they reach.
pub(crate) struct Alone<'a> {
    /// What it needs; its gate is told nothing.
    pub(crate) piping: Piping<'a, OpenGate>,
    /// None once memory was refused: entries behind that are dropped.
    pub(crate) piped: Option<Piped>,
    /// The greatest position of an entry.
    pub(crate) top: Position,
}

/// The later of two positions.
fn later(top: Position, at: Position) -> Position
    ensures { IsLaterOf top at result }
{
    if at.is_up_to(top) {
        return top;
    }
    at
}

/// The greatest position, with the entries of a batch.
fn top_of(mut top: Position, batch: &Batch) -> Position
    ensures { (before : List PlacedPayload) → IsTop before top
        → IsTop (before ++ map placed_of (items_of batch.now)) result }
{
    for whole in batch.wholes.as_slice() {
        let at = Position {
            id: batch.id,
            offset: whole.end,
        };
        top = later(top, at);
    }
    top
}

/// What entries come to with those of a batch; None where memory was refused.
fn take_next(piping: &Piping<'_, OpenGate>, piped: Option<Piped>, batch: &Batch) -> Option<Piped>
    ensures { (before : List log_entry) → IfSome piped (IsDone piping.now.tables.now before)
        → IfSome result (IsDone piping.now.tables.now (before ++ items_of batch.now)) }
{
    let Some(mut state) = piped else {
        return None;
    };
    match take_batch(piping, &mut state, None, batch) {
        Ok(()) => Some(state),
        Err(_) => None,
    }
}

impl<'a> Sink<Batch> for Alone<'a> {
    ghost use Rattle.std.specs.Prelude.{◌≡◌, ⊤};
    ghost use Rattle.replay_merge.specs.Alone.{TakesAlone, alone_more, alone_none};

    ghost can_put = { λ s. ⊤ };

    ghost goes_on = { λ s batches t. (t.piping.tables.now ≡ s.piping.tables.now)
        × TakesAlone s.piping.tables.now s.piped s.top batches t.piped t.top };

    ghost put_none = { λ s. alone_none s.piping.tables.now s.piped s.top };

    ghost put_more = { λ a b c batches more one two. alone_more a.piping.tables.now
        b.piping.tables.now c.piping.tables.now a.piped a.top batches b.piped b.top more c.piped
        c.top one two };

    fn push(&mut self, batch: Batch) {
        self.top = top_of(self.top, &batch);
        self.piped = take_next(&self.piping, self.piped.take(), &batch);
    }
}
