//! Up to where a memtable takes writes, and what a write finds there.
ghost use Rattle.std.specs.Prelude.{◌≡◌};
ghost use Rattle.path_core.specs.SeatParts.{
  raised_to,
  made_final,
  is_raising,
  takes,
  is_final_below,
};
ghost use Rattle.path_machine.specs.Accepts.{accepted};

use clog_base::Key;
use path_core::Bound;

/// Whether a memtable in this state takes a write at a position, and its state afterwards. Where it
/// is final below the position, the write goes on to the next memtable.
pub fn accepts(state: Bound, at: Key) -> (bool, Bound)
    ensures { result ≡ accepted state at }
{
    match state {
        Bound::Live => (true, Bound::Live),
        Bound::Raising(bound) => (true, Bound::Raising(Key(bound.0.max(at.0)))),
        Bound::Final(bound) => (at.0 <= bound.0, Bound::Final(bound)),
    }
}

/// A bound after a raise: a raising one is the greater.
pub(crate) fn raised(bound: Bound, to: u64) -> Bound
    ensures { result ≡ raised_to to bound }
{
    match bound {
        Bound::Raising(key) => Bound::Raising(Key(key.0.max(to))),
        Bound::Live | Bound::Final(_) => bound,
    }
}

/// A bound after it was made final.
pub(crate) fn finalised(bound: Bound) -> Bound
    ensures { result ≡ made_final bound }
{
    match bound {
        Bound::Raising(key) => Bound::Final(key),
        Bound::Live | Bound::Final(_) => bound,
    }
}

pub(crate) fn rises(bound: Bound) -> bool
    ensures { result ≡ is_raising bound }
{
    matches!(bound, Bound::Raising(_))
}

/// Live, or final at or above a position.
pub(crate) fn takes(bound: Bound, end: u64) -> bool
    ensures { result ≡ takes end bound }
{
    match bound {
        Bound::Live => true,
        Bound::Raising(_) => false,
        Bound::Final(key) => end <= key.0,
    }
}

/// Final below a position.
pub(crate) fn ends_below(bound: Bound, end: u64) -> bool
    ensures { result ≡ is_final_below end bound }
{
    match bound {
        Bound::Live | Bound::Raising(_) => false,
        Bound::Final(key) => end > key.0,
    }
}
