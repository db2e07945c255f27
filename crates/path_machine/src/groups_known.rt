//! What a seat keeps of an order's groups.
ghost use Rattle.std.specs.Prelude.{◌≡◌};
ghost use Rattle.path_core.specs.SeatParts.{in_turn_groups, keeps};
ghost use Rattle.path_machine.specs.SeatSteps.{word_found};

use op_core::Order;
use path_core::{FoundGroups, Seat, SyncTurn};

/// A word of an order's groups, with the number that was found there, or put.
#[derive(Clone, Copy)]
pub(crate) enum GroupWord {
    Current(u64),
    Oldest(u64),
    /// The count of the group was found finished.
    Finished(u64),
}

fn with_word(groups: FoundGroups, word: GroupWord) -> FoundGroups
    ensures { result ≡ word_found word groups }
{
    match word {
        GroupWord::Current(group) => FoundGroups {
            current: Some(group),
            ..groups
        },
        GroupWord::Oldest(group) => FoundGroups {
            oldest: Some(group),
            ..groups
        },
        GroupWord::Finished(group) => FoundGroups {
            finished: Some(group),
            ..groups
        },
    }
}

pub(crate) fn in_turn(turn: SyncTurn, order: Order, word: GroupWord) -> SyncTurn
    ensures { result ≡ in_turn_groups order (word_found word) turn }
{
    match order {
        Order::Write => SyncTurn {
            write: with_word(turn.write, word),
            ..turn
        },
        Order::Append => SyncTurn {
            append: with_word(turn.append, word),
            ..turn
        },
    }
}

/// The seat keeps what it found, also under the Sync turn where it holds it.
pub(crate) fn keep(seat: &mut Seat, order: Order, word: GroupWord)
    ensures { seat.new ≡ keeps order (word_found word) seat.old }
{
    match order {
        Order::Write => seat.found.write = with_word(seat.found.write, word),
        Order::Append => seat.found.append = with_word(seat.found.append, word),
    }
    if let Some(turn) = seat.sync {
        seat.sync = Some(in_turn(turn, order, word));
    }
}
