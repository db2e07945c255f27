//! What a step names, and whether it is there.
ghost use Rattle.std.specs.Prelude.{◌≡◌, ◌↔◌, IsTrue};
ghost use Rattle.path_core.specs.Words.{by_of};
ghost use Rattle.path_core.specs.Allowed.{IsThere};

use crate::reading::{is_place, is_turn};
use path_core::{Event, PathState, Place, SwitchPart};

/// The seat of a step.
pub(crate) fn by_of(event: &Event) -> u8
    ensures { result ≡ by_of event.now }
{
    match event {
        Event::Look { by, .. }
        | Event::Register { by, .. }
        | Event::Close { by, .. }
        | Event::OpenGroup { by, .. }
        | Event::MoveCurrent { by, .. }
        | Event::Expire { by, .. }
        | Event::Advance { by, .. }
        | Event::Claim { by, .. }
        | Event::Switch { by, .. }
        | Event::Raise { by, .. }
        | Event::Finalise { by, .. }
        | Event::TakeTurn { by, .. }
        | Event::GiveTurn { by, .. }
        | Event::Put { by, .. } => *by,
    }
}

/// Whether what a step names is there.
pub(crate) fn is_there(state: &PathState, event: &Event) -> bool
    ensures { IsTrue result ↔ IsThere state.now event.now }
{
    match event {
        Event::Look { at, .. } => is_place(state, *at),
        Event::Register { order, group, .. }
        | Event::Close { order, group, .. }
        | Event::MoveCurrent { order, group, .. }
        | Event::Expire { order, group, .. }
        | Event::Advance { order, group, .. } => is_place(state, Place::Count(*order, *group)),
        Event::OpenGroup { .. } | Event::Claim { .. } => true,
        Event::Switch {
            table,
            part: SwitchPart::Clear | SwitchPart::Open,
            ..
        } => { is_place(state, Place::Newest(*table)) }
        Event::Switch {
            table,
            memtable,
            part: SwitchPart::Mark,
            ..
        }
        | Event::Raise {
            table,
            memtable,
            ..
        }
        | Event::Finalise {
            table,
            memtable,
            ..
        } => { is_place(state, Place::Bound(*table, *memtable)) }
        Event::TakeTurn { turn, .. } | Event::GiveTurn { turn, .. } => is_turn(state, *turn),
        Event::Put { cursor, .. } => is_place(state, Place::CursorWord(*cursor)),
    }
}
