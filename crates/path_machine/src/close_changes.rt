//! Closing: a seat deposits its entry and leaves the append order, or its places join the placed
//! ones and it leaves the write order.
ghost use Rattle.std.specs.Prelude.{◌≡◌, ◌≤◌, ◌<◌, nat_lt, length, set, IfOk, OnErr};
ghost use Rattle.std.specs.List.{position_or_len};
ghost use Rattle.path_core.specs.declared.event.Event.{Event};
ghost use Rattle.path_core.specs.declared.note.EntryNote.{EntryNote};
ghost use Rattle.op_core.specs.Tallies.{one_less};
ghost use Rattle.path_core.specs.Parts.{seat_of};
ghost use Rattle.path_core.specs.SeatAfter.{closed};
ghost use Rattle.path_core.specs.Next.{joined, places_from, end_of_claim, with_tally};
ghost use Rattle.path_machine.specs.Steps.{Names, Makes, IsNoDeposit, PutsPlaces, StandInOrder};

use crate::group_changes::take_one;
use crate::seat_steps::become_idle;
use clog_base::{Bytes, OutOfMemory, Rows};
use op_core::Order;
use path_core::{Carried, EntryNote, PathState, Placed, Seat, SeatTable};
use std::alloc::Global;

// A copy of a note.
fn copied(alloc: Global, note: &EntryNote) -> Result<EntryNote, OutOfMemory>
    ensures { IfOk result (λ n. n ≡ note.now) }
{
    Ok(EntryNote {
        start: note.start,
        end: note.end,
        tables: note.tables,
        line: note.line,
        writer: note.writer,
        bytes: Bytes::new(note.bytes.as_slice().to_vec(alloc)?),
    })
}

// Where a note that starts at a key joins others: before the first that starts behind it. A note
// mostly joins close to the end, so it is looked for from there.
fn joining_place(notes: &[EntryNote], start: u64) -> usize
    requires { StandInOrder notes.now }
    ensures place { result ≡ position_or_len (λ (n : EntryNote). nat_lt start n.start.0) notes.now }
    ensures within { result ≤ length notes.now }
{
    let mut place = notes.len();
    while place > 0 && start < notes[place - 1].start.0 {
        place -= 1;
    }
    place
}

// The note joins the notes in the order of the log.
fn join(notes: &mut Rows<EntryNote>, note: EntryNote) -> Result<(), OutOfMemory>
    requires { StandInOrder notes.old }
    ensures ok { IfOk result (λ u. notes.new ≡ joined note notes.old) }
    ensures err { OnErr result (notes.new ≡ notes.old) }
{
    let at = joining_place(notes.as_slice(), note.start.0);
    notes.items.insert(at, note)?;
    Ok(())
}

pub(crate) fn make_close_append(
    state: &mut PathState,
    alloc: Global,
    by: u8,
    group: u64,
    carried: &Carried,
) -> Result<(), OutOfMemory>
    requires { Names state.old (Event.Close by Order.Append group carried.now) }
    ensures { Makes result state.old state.new (Event.Close by Order.Append group carried.now) }
{
    let tables = match carried {
        Carried::Deposit(note) => {
            join(&mut state.notes, copied(alloc, note)?)?;
            Some(note.tables)
        }
        Carried::Nothing | Carried::Applied(_) => None,
    };
    take_one(state, Order::Append, group);
    let seats = &mut state.seats;
    let seat = &mut seats.items[by as usize];
    seat.append = None;
    if tables.is_some() {
        seat.note = tables;
    }
    Ok(())
}

// The places of a seat, for the entry that ends at a key.
fn places_of(alloc: Global, tables: &[SeatTable], entry: u64) -> Result<Vec<Placed>, OutOfMemory>
    requires { length tables.now ≤ 16 }
    ensures { IfOk result (λ v. v.items ≡ places_from 0 entry tables.now) }
{
    let mut places = Vec::new(alloc);
    for i in 0..tables.len() {
        if let Some(memtable) = tables[i].place {
            places.push(Placed {
                table: i as u64,
                entry,
                memtable,
            })?;
        }
    }
    Ok(places)
}

fn end_of_claim(seat: &Seat) -> u64
    ensures { result ≡ end_of_claim seat.now }
{
    match seat.claim {
        Some(range) => range.end,
        None => 0,
    }
}

// The places of a seat join the placed ones.
fn put_places(state: &mut PathState, alloc: Global, by: u8) -> Result<(), OutOfMemory>
    requires { by < length state.old.seats }
    ensures { PutsPlaces result state.old state.new by }
{
    let seat = &state.seats.as_slice()[by as usize];
    let mut places = places_of(alloc, &seat.tables, end_of_claim(seat))?;
    let placed = &mut state.placed;
    placed.items.append(&mut places)?;
    Ok(())
}

fn leave_write(state: &mut PathState, by: u8, group: u64)
    requires seat { by < length state.old.seats }
    requires group { group < length state.old.write.tallies }
    ensures { state.new ≡ record state.old {
      write = with_tally state.old.write group one_less;
      seats = set state.old.seats by (closed Order.Write Carried.Nothing (seat_of state.old by));
    } }
{
    take_one(state, Order::Write, group);
    let seats = &mut state.seats;
    become_idle(&mut seats.items[by as usize]);
}

pub(crate) fn make_close_write(
    state: &mut PathState,
    alloc: Global,
    by: u8,
    group: u64,
    carried: &Carried,
) -> Result<(), OutOfMemory>
    requires names { Names state.old (Event.Close by Order.Write group carried.now) }
    requires no_deposit { IsNoDeposit carried.now }
    ensures { Makes result state.old state.new (Event.Close by Order.Write group carried.now) }
{
    match carried {
        Carried::Applied(_) => {
            put_places(state, alloc, by)?;
            leave_write(state, by, group);
        }
        Carried::Nothing => leave_write(state, by, group),
        Carried::Deposit(_) => unreachable!(),
    }
    Ok(())
}
