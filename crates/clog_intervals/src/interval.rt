//! One interval of the log, and where a place stands to it.
ghost use Rattle.std.specs.Prelude.{◌≡◌, not};
ghost use Rattle.clog_base.specs.Positions.{is_below};
ghost use Rattle.clog_intervals.specs.Joined.{IsJoined};

use clog_base::Position;

/// The positions above `lower` and at or below `upper`.
#[derive(Clone, Copy, Debug, PartialEq, Eq)]
pub struct Interval {
    /// The end that is not in it.
    pub lower: Position,
    /// The end that is in it.
    pub upper: Position,
}

impl Interval {
    /// Whether all of it stands below a place, with a gap at least of that place itself.
    pub(crate) fn ends_below(&self, at: Position) -> bool
        ensures { result ≡ is_below self.now.upper at }
    {
        self.upper < at
    }

    /// Whether no gap is left between its lower end and a place at or above it.
    pub(crate) fn begins_up_to(&self, at: Position) -> bool
        ensures { result ≡ not (is_below at self.now.lower) }
    {
        self.lower <= at
    }

    /// Whether it begins below a place.
    pub(crate) fn begins_below(&self, at: Position) -> bool
        ensures { result ≡ is_below self.now.lower at }
    {
        self.lower < at
    }

    /// Whether it ends at a place or above it.
    pub(crate) fn reaches(&self, at: Position) -> bool
        ensures { result ≡ not (is_below self.now.upper at) }
    {
        at <= self.upper
    }

    /// From the lesser of its lower end and that of `first`, to the greater of its upper end and
    /// that of `last`.
    pub(crate) fn joined(self, first: Interval, last: Interval) -> Interval
        ensures { IsJoined self first last result }
    {
        Interval {
            lower: if first.lower < self.lower {
                first.lower
            } else {
                self.lower
            },
            upper: if self.upper < last.upper {
                last.upper
            } else {
                self.upper
            },
        }
    }
}
