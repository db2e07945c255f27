//! The steps on groups: registering, closing, and issuing a barrier.
ghost use Rattle.std.specs.Prelude.{◌≡◌, ◌<◌, length, set};
ghost use Rattle.op_core.specs.Tallies.{tally_at, one_less, expired};
ghost use Rattle.path_core.specs.declared.event.Event.{Event};
ghost use Rattle.path_core.specs.Parts.{groups_of};
ghost use Rattle.path_core.specs.SeatParts.{in_sync, with_issue};
ghost use Rattle.path_core.specs.Next.{next_of, with_tally};
ghost use Rattle.path_machine.specs.Steps.{Names, Makes, IsOneMore};

use crate::groups_known::{GroupWord, in_turn, keep};
use crate::reading::reading;
use crate::seat_steps::{look, register};
use clog_base::OutOfMemory;
use op_core::{Order, Tally};
use path_core::{Issue, OrderGroups, PathState, Place, Seat, SyncTurn};

fn one_more(tally: Tally) -> Option<Tally>
    ensures { IsOneMore result tally }
{
    match tally {
        Tally::Open(running) => running.checked_add(1).map(Tally::Open),
        Tally::Expired(left) => left.checked_add(1).map(Tally::Expired),
    }
}

fn one_less(tally: Tally) -> Tally
    ensures { result ≡ one_less tally }
{
    match tally {
        Tally::Open(running) => Tally::Open(running.saturating_sub(1)),
        Tally::Expired(left) => Tally::Expired(left.saturating_sub(1)),
    }
}

fn expired(tally: Tally) -> Tally
    ensures { result ≡ expired tally }
{
    match tally {
        Tally::Open(running) | Tally::Expired(running) => Tally::Expired(running),
    }
}

fn tally(groups: &OrderGroups, group: u64) -> Tally
    requires { group < length groups.now.tallies }
    ensures { result ≡ tally_at groups.now.tallies group }
{
    groups.tallies.as_slice()[group as usize]
}

fn put_tally(groups: &mut OrderGroups, group: u64, tally: Tally)
    requires { group < length groups.old.tallies }
    ensures { groups.new ≡ record groups.old { tallies = set groups.old.tallies group tally } }
{
    let list = &mut groups.tallies;
    list.items[group as usize] = tally;
}

pub(crate) fn make_look(state: &mut PathState, by: u8, at: Place)
    requires { Names state.old (Event.Look by at) }
    ensures { state.new ≡ next_of state.old (Event.Look by at) }
{
    let found = reading(state, at);
    let seats = &mut state.seats;
    look(&mut seats.items[by as usize], at, found);
}

pub(crate) fn make_register(
    state: &mut PathState,
    by: u8,
    order: Order,
    group: u64,
) -> Result<(), OutOfMemory>
    requires { Names state.old (Event.Register by order group) }
    ensures { Makes result state.old state.new (Event.Register by order group) }
{
    match order {
        Order::Write => {
            let Some(more) = one_more(tally(&state.write, group)) else {
                return Err(OutOfMemory);
            };
            put_tally(&mut state.write, group, more);
        }
        Order::Append => {
            let Some(more) = one_more(tally(&state.append, group)) else {
                return Err(OutOfMemory);
            };
            put_tally(&mut state.append, group, more);
        }
    }
    let seats = &mut state.seats;
    register(&mut seats.items[by as usize], order, group);
    Ok(())
}

fn set_issue(seat: &mut Seat, issue: Issue)
    ensures { seat.new ≡ in_sync (with_issue issue) seat.old }
{
    if let Some(turn) = seat.sync {
        seat.sync = Some(SyncTurn { issue, ..turn });
    }
}

pub(crate) fn make_open_group(
    state: &mut PathState,
    by: u8,
    order: Order,
    group: u64,
) -> Result<(), OutOfMemory>
    requires { Names state.old (Event.OpenGroup by order group) }
    ensures { Makes result state.old state.new (Event.OpenGroup by order group) }
{
    match order {
        Order::Write => {
            let list = &mut state.write.tallies;
            list.items.push(Tally::Open(0))?;
        }
        Order::Append => {
            let list = &mut state.append.tallies;
            list.items.push(Tally::Open(0))?;
        }
    }
    let seats = &mut state.seats;
    set_issue(&mut seats.items[by as usize], Issue::Opened(order));
    Ok(())
}

pub(crate) fn make_expire(state: &mut PathState, by: u8, order: Order, group: u64)
    requires { Names state.old (Event.Expire by order group) }
    ensures { state.new ≡ next_of state.old (Event.Expire by order group) }
{
    match order {
        Order::Write => {
            let count = expired(tally(&state.write, group));
            put_tally(&mut state.write, group, count);
        }
        Order::Append => {
            let count = expired(tally(&state.append, group));
            put_tally(&mut state.append, group, count);
        }
    }
    let seats = &mut state.seats;
    set_issue(&mut seats.items[by as usize], Issue::Rest);
}

pub(crate) fn make_advance(state: &mut PathState, by: u8, order: Order, group: u64)
    requires { Names state.old (Event.Advance by order group) }
    ensures { state.new ≡ next_of state.old (Event.Advance by order group) }
{
    match order {
        Order::Write => state.write.oldest = group,
        Order::Append => state.append.oldest = group,
    }
    let seats = &mut state.seats;
    keep(
        &mut seats.items[by as usize],
        order,
        GroupWord::Oldest(group),
    );
}

/// The count of a group that a seat leaves.
pub(crate) fn take_one(state: &mut PathState, order: Order, group: u64)
    requires { group < length (groups_of state.old order).tallies }
    ensures write { order ≡ Order.Write
        → state.new ≡ record state.old { write = with_tally state.old.write group one_less } }
    ensures append { order ≡ Order.Append
        → state.new ≡ record state.old { append = with_tally state.old.append group one_less } }
{
    match order {
        Order::Write => {
            let count = one_less(tally(&state.write, group));
            put_tally(&mut state.write, group, count);
        }
        Order::Append => {
            let count = one_less(tally(&state.append, group));
            put_tally(&mut state.append, group, count);
        }
    }
}
