//! The state of a path as lines of text.
use crate::show_seat::{show_seats, show_set};
use path_core::{
    Bound, Claim, ClaimKind, EntryNote, Memtable, OrderGroups, PathState, TableState, Tally,
    WrittenFile,
};
use std::io::{self, Write};

/// The whole state. Numbers and keys stand as they are; what is absent is left out.
pub(crate) fn show<W: Write>(out: &mut W, state: &PathState) -> io::Result<()> {
    let (log, synced, stopped) = (state.log, state.synced, state.stopped);
    writeln!(out, "  log {log} synced {synced} stopped {stopped}")?;
    show_claims(out, state.claims.as_slice())?;
    show_notes(out, state.notes.as_slice())?;
    show_groups(out, "write", &state.write)?;
    show_groups(out, "append", &state.append)?;
    show_tables(out, state)?;
    show_seats(out, state.seats.as_slice())?;
    show_lasting(out, state)
}

fn show_tables<W: Write>(out: &mut W, state: &PathState) -> io::Result<()> {
    for (number, table) in state.tables.as_slice().iter().enumerate() {
        show_table(out, number, table)?;
        show_placed(out, state, number as u64)?;
    }
    Ok(())
}

// What is lasting, the files, and the segments that have gone.
fn show_lasting<W: Write>(out: &mut W, state: &PathState) -> io::Result<()> {
    show_numbers(out, "logged", state.logged.as_slice())?;
    show_files(out, state.files.as_slice())?;
    show_numbers(out, "dropped", state.dropped.as_slice())
}

fn show_claims<W: Write>(out: &mut W, claims: &[Claim]) -> io::Result<()> {
    for claim in claims {
        let what = match claim.what {
            ClaimKind::Entry => "entry",
            ClaimKind::Marker => "marker",
        };
        write!(
            out,
            "  {what} {} {} by {}",
            claim.start, claim.end, claim.by
        )?;
        if let Some(group) = claim.barrier {
            write!(out, " barrier {group}")?;
        }
        writeln!(out)?;
    }
    Ok(())
}

fn show_notes<W: Write>(out: &mut W, notes: &[EntryNote]) -> io::Result<()> {
    for note in notes {
        write!(
            out,
            "  note {} {} by {} tables ",
            note.start.0, note.end.0, note.writer.0
        )?;
        show_set(out, note.tables)?;
        writeln!(out)?;
    }
    Ok(())
}

// A count of -1 is a finished group, and one of -3 an expired group with two operations left.
fn show_groups<W: Write>(out: &mut W, order: &str, groups: &OrderGroups) -> io::Result<()> {
    write!(
        out,
        "  {order} current {} oldest {} counts",
        groups.current, groups.oldest
    )?;
    for tally in groups.tallies.as_slice() {
        match tally {
            Tally::Open(running) => write!(out, " {running}")?,
            Tally::Expired(running) => write!(out, " -{}", u128::from(*running) + 1)?,
        }
    }
    writeln!(out)
}

fn show_table<W: Write>(out: &mut W, number: usize, table: &TableState) -> io::Result<()> {
    let newest = table.newest;
    writeln!(
        out,
        "  table {number} newest {newest} oldest-live {}",
        table.oldest_live
    )?;
    for (memtable, part) in table.memtables.as_slice().iter().enumerate() {
        write!(out, "  memtable {number}:{memtable}")?;
        show_memtable(out, part)?;
    }
    Ok(())
}

fn show_memtable<W: Write>(out: &mut W, memtable: &Memtable) -> io::Result<()> {
    match memtable.bound {
        Bound::Live => write!(out, " live")?,
        Bound::Raising(key) => write!(out, " raising {}", key.0)?,
        Bound::Final(key) => write!(out, " final {}", key.0)?,
    }
    if let Some(key) = memtable.mark {
        write!(out, " mark {key}")?;
    }
    if let Some(group) = memtable.barrier {
        write!(out, " barrier {group}")?;
    }
    writeln!(out)
}

// The entries that were placed at a table, each with the memtable that holds it.
fn show_placed<W: Write>(out: &mut W, state: &PathState, table: u64) -> io::Result<()> {
    write!(out, "  placed {table}")?;
    for placed in state.placed.as_slice() {
        if placed.table == table {
            write!(out, " {}:{}", placed.entry, placed.memtable)?;
        }
    }
    writeln!(out)
}

fn show_files<W: Write>(out: &mut W, files: &[WrittenFile]) -> io::Result<()> {
    for file in files {
        write!(out, "  file {}:{}", file.table, file.memtable)?;
        writeln!(out, " above {} to {}", file.lower, file.upper)?;
    }
    Ok(())
}

fn show_numbers<W: Write>(out: &mut W, name: &str, numbers: &[u64]) -> io::Result<()> {
    write!(out, "  {name}")?;
    for number in numbers {
        write!(out, " {number}")?;
    }
    writeln!(out)
}
