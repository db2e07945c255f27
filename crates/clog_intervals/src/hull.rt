//! The hull of a table's entries in one segment (Cassandra's dirty interval).
//! Kept: the two ends are of one segment, and stand in order.
ghost use Rattle.std.specs.Prelude.{◌≡◌, List, [], ◌∷◌, ◌++◌};
ghost use Rattle.clog_base.specs.declared.position.Position.{Position as At};
ghost use Rattle.clog_intervals.specs.Hulls.{IsHull, IsEmptyOrOf, AreEnds, IsWidened};

use clog_base::Position;
use std::marker::Model;

/// The least and the greatest of positions of one segment.
#[derive(Clone, Copy)]
pub struct Hull {
    ends: Option<(Position, Position)>,
}

impl Model for Hull {
    ghost use Rattle.std.specs.Prelude.{Option};
    ghost use Rattle.clog_base.specs.declared.position.Position.{Position};

    ghost Value = { Option (Position × Position) };

    ghost use Rattle.clog_intervals.specs.Hulls.{AreEnds};

    ghost view = { λ h. h.ends };

    ghost invariant = { λ h. AreEnds h.ends };

    ghost inverse = { λ e. record { ends = e } };
}

impl Hull {
    /// The hull of no positions.
    pub fn empty() -> Hull
        ensures { IsHull result [] }
    {
        Hull { ends: None }
    }

    /// Takes one more position in, of the segment of those before.
    pub fn add(&mut self, at: Position)
        requires { IsEmptyOrOf self.old at.id }
        ensures { (positions : List At) → IsHull self.old positions
            → IsHull self.new (positions ++ at ∷ []) }
    {
        self.ends = Some(widened(self.ends, at));
    }

    /// The least and the greatest position, where there is one.
    pub fn ends(&self) -> Option<(Position, Position)>
        ensures ends { result ≡ self.now }
        ensures ordered { AreEnds result }
    {
        self.ends
    }
}

// The ends with one more position.
fn widened(ends: Option<(Position, Position)>, at: Position) -> (Position, Position)
    requires segment { IsEmptyOrOf ends at.id }
    requires ordered { AreEnds ends }
    ensures { IsWidened ends at result }
{
    match ends {
        None => (at, at),
        Some((least, greatest)) => (least.min(at), greatest.max(at)),
    }
}
