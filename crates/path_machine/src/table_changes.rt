//! The steps on the bounds of memtables.
ghost use Rattle.std.specs.Prelude.{◌≡◌, ◌<◌, length, set};
ghost use Rattle.path_core.specs.declared.event.Event.{Event};
ghost use Rattle.path_core.specs.Parts.{table_of, memtable_at};
ghost use Rattle.path_core.specs.Next.{next_of};
ghost use Rattle.path_machine.specs.Steps.{Names, Makes};

use crate::bound::{finalised, raised};
use crate::table_steps::{
    bound_found, newest_made, place_cleared, raised_as_holder, raised_as_writer, reaches,
};
use clog_base::{Key, OutOfMemory, Table};
use path_core::{Bound, Marked, Memtable, PathState, SwitchPart, Switching, TableState};

pub(crate) const FRESH: Memtable = Memtable {
    bound: Bound::Live,
    mark: None,
    barrier: None,
};

fn memtable_of(state: &PathState, table: Table, memtable: u64) -> Memtable
    requires table { table.0 < length state.now.tables }
    requires memtable { memtable < length (table_of state.now table.0).memtables }
    ensures { result ≡ memtable_at (table_of state.now table.0) memtable }
{
    state.tables.as_slice()[table.0 as usize]
        .memtables
        .as_slice()[memtable as usize]
}

fn put_memtable(table: &mut TableState, memtable: u64, changed: Memtable)
    requires { memtable < length table.old.memtables }
    ensures { table.new
        ≡ record table.old { memtables = set table.old.memtables memtable changed } }
{
    let list = &mut table.memtables;
    list.items[memtable as usize] = changed;
}

pub(crate) fn make_clear(state: &mut PathState, by: u8, table: Table, memtable: u64)
    requires { Names state.old (Event.Switch by table memtable SwitchPart.Clear) }
    ensures { state.new ≡ next_of state.old (Event.Switch by table memtable SwitchPart.Clear) }
{
    let seats = &mut state.seats;
    let seat = &mut seats.items[by as usize];
    let i = table.0 as usize;
    seat.tables[i] = place_cleared(seat.tables[i], memtable);
}

pub(crate) fn make_open(
    state: &mut PathState,
    by: u8,
    table: Table,
    memtable: u64,
) -> Result<(), OutOfMemory>
    requires { Names state.old (Event.Switch by table memtable SwitchPart.Open) }
    ensures { Makes result state.old state.new (Event.Switch by table memtable SwitchPart.Open) }
{
    let tables = &mut state.tables;
    let switched = &mut tables.items[table.0 as usize];
    let list = &mut switched.memtables;
    list.items.push(FRESH)?;
    switched.newest = memtable;
    let seats = &mut state.seats;
    let seat = &mut seats.items[by as usize];
    let i = table.0 as usize;
    let at = newest_made(seat.tables[i], memtable);
    seat.tables[i] = reaches(at, Switching::Begun(memtable));
    Ok(())
}

pub(crate) fn make_mark(state: &mut PathState, by: u8, table: Table, memtable: u64)
    requires { Names state.old (Event.Switch by table memtable SwitchPart.Mark) }
    ensures { state.new ≡ next_of state.old (Event.Switch by table memtable SwitchPart.Mark) }
{
    let log = state.log;
    let was = memtable_of(state, table, memtable);
    let tables = &mut state.tables;
    put_memtable(
        &mut tables.items[table.0 as usize],
        memtable,
        Memtable {
            bound: Bound::Raising(Key(0)),
            mark: Some(log),
            barrier: was.barrier,
        },
    );
    let seats = &mut state.seats;
    let seat = &mut seats.items[by as usize];
    let i = table.0 as usize;
    let at = bound_found(seat.tables[i], memtable, Bound::Raising(Key(0)));
    seat.tables[i] = reaches(
        at,
        Switching::Marked(Marked {
            memtable,
            key: None,
            raised: false,
        }),
    );
}

pub(crate) fn make_raise(state: &mut PathState, by: u8, table: Table, memtable: u64, to: Key)
    requires { Names state.old (Event.Raise by table memtable to) }
    ensures { state.new ≡ next_of state.old (Event.Raise by table memtable to) }
{
    let was = memtable_of(state, table, memtable);
    let bound = raised(was.bound, to.0);
    let tables = &mut state.tables;
    put_memtable(
        &mut tables.items[table.0 as usize],
        memtable,
        Memtable { bound, ..was },
    );
    let seats = &mut state.seats;
    let seat = &mut seats.items[by as usize];
    let i = table.0 as usize;
    let deposited = seat.note.is_some();
    let at = bound_found(seat.tables[i], memtable, bound);
    let at = raised_as_writer(at, deposited, memtable, was.bound);
    seat.tables[i] = raised_as_holder(at, memtable, to.0);
}

pub(crate) fn make_final(state: &mut PathState, by: u8, table: Table, memtable: u64)
    requires { Names state.old (Event.Finalise by table memtable) }
    ensures { state.new ≡ next_of state.old (Event.Finalise by table memtable) }
{
    let was = memtable_of(state, table, memtable);
    let bound = finalised(was.bound);
    let tables = &mut state.tables;
    put_memtable(
        &mut tables.items[table.0 as usize],
        memtable,
        Memtable { bound, ..was },
    );
    let seats = &mut state.seats;
    let seat = &mut seats.items[by as usize];
    let i = table.0 as usize;
    let at = bound_found(seat.tables[i], memtable, bound);
    seat.tables[i] = reaches(at, Switching::Waiting(memtable));
}
