//! Makes a step that is allowed: each kind by the function that knows what it leaves.
ghost use Rattle.std.specs.Prelude.{◌≡◌, ◌<◌};
ghost use Rattle.path_core.specs.declared.event.Event.{Event};
ghost use Rattle.path_core.specs.Allowed.{IsAllowed};
ghost use Rattle.path_core.specs.Next.{next_of};
ghost use Rattle.path_machine.specs.Steps.{IsWithin, Names, Makes, IsNoDeposit};

use crate::close_changes::{make_close_append, make_close_write};
use crate::drop_changes::make_give_sync;
use crate::file_changes::make_retire;
use crate::group_changes::{make_advance, make_expire, make_look, make_open_group, make_register};
use crate::log_changes::{make_claim, make_synced};
use crate::move_changes::{make_move_append, make_move_write};
use crate::table_changes::{make_clear, make_final, make_mark, make_open, make_raise};
use crate::turn_changes::{make_give_flush, make_stopped, make_take_turn};
use clog_base::{OutOfMemory, Table};
use op_core::Order;
use path_core::{Carried, Cursor, Event, PathState, SwitchPart, Turn};
use std::alloc::Global;

fn make_close(
    state: &mut PathState,
    alloc: Global,
    by: u8,
    order: Order,
    group: u64,
    carried: &Carried,
) -> Result<(), OutOfMemory>
    requires names { Names state.old (Event.Close by order group carried.now) }
    requires no_deposit { order ≡ Order.Write → IsNoDeposit carried.now }
    ensures { Makes result state.old state.new (Event.Close by order group carried.now) }
{
    match order {
        Order::Write => make_close_write(state, alloc, by, group, carried),
        Order::Append => make_close_append(state, alloc, by, group, carried),
    }
}

fn make_move(state: &mut PathState, by: u8, order: Order, group: u64)
    requires { Names state.old (Event.MoveCurrent by order group) }
    ensures { state.new ≡ next_of state.old (Event.MoveCurrent by order group) }
{
    match order {
        Order::Write => make_move_write(state, by, group),
        Order::Append => make_move_append(state, by, group),
    }
}

fn make_switch(
    state: &mut PathState,
    by: u8,
    table: Table,
    memtable: u64,
    part: SwitchPart,
) -> Result<(), OutOfMemory>
    requires { Names state.old (Event.Switch by table memtable part) }
    ensures { Makes result state.old state.new (Event.Switch by table memtable part) }
{
    match part {
        SwitchPart::Clear => {
            make_clear(state, by, table, memtable);
            Ok(())
        }
        SwitchPart::Open => make_open(state, by, table, memtable),
        SwitchPart::Mark => {
            make_mark(state, by, table, memtable);
            Ok(())
        }
    }
}

fn make_give_turn(
    state: &mut PathState,
    alloc: Global,
    by: u8,
    turn: Turn,
) -> Result<(), OutOfMemory>
    requires { Names state.old (Event.GiveTurn by turn) }
    ensures { Makes result state.old state.new (Event.GiveTurn by turn) }
{
    match turn {
        Turn::Sync => make_give_sync(state, alloc, by),
        Turn::Flush(table) => {
            make_give_flush(state, by, table);
            Ok(())
        }
    }
}

fn make_put(
    state: &mut PathState,
    alloc: Global,
    by: u8,
    cursor: Cursor,
    value: u64,
) -> Result<(), OutOfMemory>
    requires { Names state.old (Event.Put by cursor value) }
    ensures { Makes result state.old state.new (Event.Put by cursor value) }
{
    match cursor {
        Cursor::Synced => make_synced(state, alloc, by, value),
        Cursor::OldestLive(table) => make_retire(state, by, table, value),
        Cursor::Stopped => {
            make_stopped(state, by, value);
            Ok(())
        }
    }
}

/// Makes the step; where memory is short, nothing has changed.
pub(crate) fn make(state: &mut PathState, alloc: Global, event: &Event) -> Result<(), OutOfMemory>
    requires within { IsWithin state.old }
    requires allowed { IsAllowed state.old event.now }
    ensures { Makes result state.old state.new event.now }
{
    match event {
        Event::Look { by, at } => make_look(state, *by, *at),
        Event::Register { by, order, group } => {
            return make_register(state, *by, *order, *group);
        }
        Event::Close {
            by,
            order,
            group,
            carried,
        } => {
            return make_close(state, alloc, *by, *order, *group, carried);
        }
        Event::OpenGroup { by, order, group } => {
            return make_open_group(state, *by, *order, *group);
        }
        Event::MoveCurrent { by, order, group } => make_move(state, *by, *order, *group),
        Event::Expire { by, order, group } => make_expire(state, *by, *order, *group),
        Event::Advance { by, order, group } => make_advance(state, *by, *order, *group),
        Event::Claim { by, from, to, what } => {
            return make_claim(state, *by, *from, *to, *what);
        }
        Event::Switch {
            by,
            table,
            memtable,
            part,
        } => {
            return make_switch(state, *by, *table, *memtable, *part);
        }
        Event::Raise {
            by,
            table,
            memtable,
            to,
        } => {
            make_raise(state, *by, *table, *memtable, *to);
        }
        Event::Finalise {
            by,
            table,
            memtable,
        } => make_final(state, *by, *table, *memtable),
        Event::TakeTurn { by, turn } => make_take_turn(state, *by, *turn),
        Event::GiveTurn { by, turn } => return make_give_turn(state, alloc, *by, *turn),
        Event::Put { by, cursor, value } => {
            return make_put(state, alloc, *by, *cursor, *value);
        }
    }
    Ok(())
}
