//! The step that gives the Sync turn back, after which segments may go.
ghost use Rattle.std.specs.Prelude.{
  ◌≡◌,
  ◌≤◌,
  ◌<◌,
  not,
  ◌&&◌,
  ◌||◌,
  true,
  false,
  length,
  set,
  None,
  IfOk,
  MatchOption,
};
ghost use Rattle.std.specs.List.{list_any, list_all, range_with_len};
ghost use Rattle.path_core.specs.declared.event.Event.{Event};
ghost use Rattle.path_core.specs.declared.event.Turn.{Turn};
ghost use Rattle.path_core.specs.declared.state.Claim.{Claim};
ghost use Rattle.path_core.specs.Parts.{seat_of, is_entry_in};
ghost use Rattle.path_core.specs.Droppable.{is_logged, is_table_filed, is_droppable};
ghost use Rattle.path_core.specs.Next.{newly_dropped, has_filed};
ghost use Rattle.path_machine.specs.Steps.{Names, Makes, Drops};

use crate::keys::ordinal;
use crate::table_files::is_table_filed;
use clog_base::OutOfMemory;
use path_core::{Claim, ClaimKind, PathState, Seat, Turn};
use std::alloc::Global;

fn is_entry_in(claim: &Claim, segment: u64) -> bool
    ensures { result ≡ is_entry_in segment claim.now }
{
    claim.what == ClaimKind::Entry && ordinal(claim.start) == segment
}

fn has_entry(claims: &[Claim], segment: u64) -> bool
    ensures { result ≡ list_any (is_entry_in segment) claims.now }
{
    claims.iter().any(|claim| is_entry_in(claim, segment))
}

fn is_among(numbers: &[u64], number: u64) -> bool
    ensures { result ≡ is_logged numbers.now number }
{
    numbers.iter().any(|found| *found == number)
}

// The place of a number behind the first ones, if it is there.
fn place_behind(numbers: &[u64], first: usize, number: u64) -> Option<usize>
    ensures { MatchOption result (first ≡ 0 → is_logged numbers.now number ≡ false)
        (λ place. is_logged numbers.now number ≡ true) }
{
    for place in first..numbers.len() {
        if numbers[place] == number {
            return Some(place);
        }
    }
    None
}

// The place of a number, which mostly stands close behind the first ones.
fn place_of(numbers: &[u64], first: usize, number: u64) -> Option<usize>
    ensures { MatchOption result (is_logged numbers.now number ≡ false)
        (λ place. is_logged numbers.now number ≡ true) }
{
    match place_behind(numbers, first, number) {
        Some(place) => Some(place),
        None => place_behind(numbers, 0, number),
    }
}

// Whether the segment's entries are among those that are lasting. Both stand in the order of the
// log, so each is found close behind the one before it.
fn are_logged(claims: &[Claim], logged: &[u64], segment: u64) -> bool
    ensures { result ≡ list_all (λ (c : Claim). not (is_entry_in segment c)
        || is_logged logged.now c.end) claims.now }
{
    let mut place = 0;
    for claim in claims {
        if is_entry_in(claim, segment) {
            match place_of(logged, place, claim.end) {
                Some(found) => place = found,
                None => return false,
            }
        }
    }
    true
}

fn are_tables_filed(state: &PathState, segment: u64) -> bool
    requires { length state.now.tables ≤ 16 }
    ensures { result
        ≡ list_all (is_table_filed state.now segment) (range_with_len 0 (length state.now.tables)) }
{
    for table in 0..state.tables.as_slice().len() {
        if !is_table_filed(state, segment, table as u8) {
            return false;
        }
    }
    true
}

fn is_droppable(state: &PathState, segment: u64) -> bool
    requires { length state.now.tables ≤ 16 }
    ensures { result ≡ is_droppable state.now segment }
{
    let claims = state.claims.as_slice();
    segment < ordinal(state.log)
        && has_entry(claims, segment)
        && are_logged(claims, state.logged.as_slice(), segment)
        && are_tables_filed(state, segment)
}

// Whether a segment may go and has not gone.
fn goes(state: &PathState, segment: u64) -> bool
    requires { length state.now.tables ≤ 16 }
    ensures { result
        ≡ (not (is_logged state.now.dropped segment) && is_droppable state.now segment) }
{
    !is_among(state.dropped.as_slice(), segment) && is_droppable(state, segment)
}

// The segments below that of the synced key that may go and have not gone.
fn newly_dropped(alloc: Global, state: &PathState) -> Result<Vec<u64>, OutOfMemory>
    requires { length state.now.tables ≤ 16 }
    ensures { IfOk result (λ v. v.items ≡ newly_dropped state.now) }
{
    let mut dropped = Vec::new(alloc);
    for segment in 0..ordinal(state.synced) {
        if goes(state, segment) {
            dropped.push(segment)?;
        }
    }
    Ok(dropped)
}

fn has_filed(seat: &Seat) -> bool
    ensures { result ≡ has_filed seat.now }
{
    match seat.sync {
        Some(turn) => turn.filed,
        None => false,
    }
}

fn drop_segments(state: &mut PathState, alloc: Global) -> Result<(), OutOfMemory>
    requires { length state.old.tables ≤ 16 }
    ensures { Drops result state.old state.new }
{
    let mut gone = newly_dropped(alloc, state)?;
    let dropped = &mut state.dropped;
    dropped.items.append(&mut gone)?;
    Ok(())
}

fn give_sync(state: &mut PathState, by: u8)
    requires { by < length state.old.seats }
    ensures { state.new ≡ record state.old {
      seats = set state.old.seats by
          (record (seat_of state.old by) { sync = None });
    } }
{
    let seats = &mut state.seats;
    let seat = &mut seats.items[by as usize];
    seat.sync = None;
}

pub(crate) fn make_give_sync(
    state: &mut PathState,
    alloc: Global,
    by: u8,
) -> Result<(), OutOfMemory>
    requires { Names state.old (Event.GiveTurn by Turn.Sync) }
    ensures { Makes result state.old state.new (Event.GiveTurn by Turn.Sync) }
{
    if has_filed(&state.seats.as_slice()[by as usize]) {
        drop_segments(state, alloc)?;
        give_sync(state, by);
    } else {
        give_sync(state, by);
    }
    Ok(())
}
