//! What seats do, as lines of text.
use path_core::{Issue, LastMarker, Marked, Order, Range, Seat, SeatTable, Switching, SyncTurn};
use std::io::{self, Write};

/// A line for each seat, and one for each table where it does something.
pub(crate) fn show_seats<W: Write>(out: &mut W, seats: &[Seat]) -> io::Result<()> {
    for (number, seat) in seats.iter().enumerate() {
        write!(out, "  seat {number}")?;
        show_seat(out, seat)?;
        for (table, part) in seat.tables.iter().enumerate() {
            if part.trying.is_some() || part.place.is_some() || part.flush.is_some() {
                write!(out, "  seat {number} table {table}")?;
                show_at_table(out, part)?;
            }
        }
    }
    Ok(())
}

fn show_seat<W: Write>(out: &mut W, seat: &Seat) -> io::Result<()> {
    show_option(out, "write", seat.write)?;
    show_option(out, "append", seat.append)?;
    show_entry(out, seat.claim, seat.note)?;
    show_option(out, "found-write", seat.found.write.current)?;
    show_option(out, "found-append", seat.found.append.current)?;
    if seat.marker_waits {
        write!(out, " marker-waits")?;
    }
    if let Some(turn) = seat.sync {
        show_sync(out, turn)?;
    }
    writeln!(out)
}

// The claim, and the tables of the note once it is deposited.
fn show_entry<W: Write>(out: &mut W, claim: Option<Range>, note: Option<u16>) -> io::Result<()> {
    if let Some(Range { start, end }) = claim {
        write!(out, " claim {start} {end}")?;
    }
    match note {
        Some(tables) => show_deposited(out, tables),
        None => Ok(()),
    }
}

fn show_deposited<W: Write>(out: &mut W, tables: u16) -> io::Result<()> {
    write!(out, " deposited ")?;
    show_set(out, tables)
}

fn show_sync<W: Write>(out: &mut W, turn: SyncTurn) -> io::Result<()> {
    write!(out, " sync")?;
    show_issue(out, turn.issue)?;
    if turn.filed {
        write!(out, " filed")?;
    }
    match turn.marker {
        Some(marker) => show_marker(out, marker),
        None => Ok(()),
    }
}

fn show_issue<W: Write>(out: &mut W, issue: Issue) -> io::Result<()> {
    match issue {
        Issue::Rest => Ok(()),
        Issue::Opened(order) => write!(out, " opened {}", name_of(order)),
        Issue::Moved(order) => write!(out, " moved {}", name_of(order)),
    }
}

// The last marker, with the seat that claimed it.
fn show_marker<W: Write>(out: &mut W, marker: LastMarker) -> io::Result<()> {
    write!(out, " marker {} by {}", marker.start, marker.by)?;
    show_option(out, "barrier", marker.barrier)
}

fn name_of(order: Order) -> &'static str {
    match order {
        Order::Write => "write",
        Order::Append => "append",
    }
}

fn show_at_table<W: Write>(out: &mut W, part: &SeatTable) -> io::Result<()> {
    show_option(out, "tries", part.trying)?;
    show_option(out, "place", part.place)?;
    if let Some(turn) = part.flush {
        show_stage(out, turn.stage)?;
        show_option(out, "cleared", turn.cleared)?;
    }
    writeln!(out)
}

// How far the holder of a Flush turn got with a switch.
fn show_stage<W: Write>(out: &mut W, stage: Switching) -> io::Result<()> {
    match stage {
        Switching::Settled => write!(out, " flush settled"),
        Switching::Begun(memtable) => write!(out, " flush begun {memtable}"),
        Switching::Marked(marked) => show_marked(out, marked),
        Switching::Waiting(memtable) => write!(out, " flush waiting {memtable}"),
        Switching::WithBarrier { memtable, group } => {
            write!(out, " flush with-barrier {memtable}:{group}")
        }
    }
}

fn show_marked<W: Write>(out: &mut W, marked: Marked) -> io::Result<()> {
    write!(out, " flush marked {}", marked.memtable)?;
    show_option(out, "key", marked.key)?;
    if marked.raised {
        write!(out, " raised")
    } else {
        Ok(())
    }
}

fn show_option<W: Write>(out: &mut W, name: &str, number: Option<u64>) -> io::Result<()> {
    match number {
        Some(number) => write!(out, " {name} {number}"),
        None => Ok(()),
    }
}

/// A set of tables, bit `t` for table `t`: `0,3`, or `none`.
pub(crate) fn show_set<W: Write>(out: &mut W, tables: u16) -> io::Result<()> {
    let mut before = "";
    for table in 0u16..16 {
        if tables & (1 << table) != 0 {
            write!(out, "{before}{table}")?;
            before = ",";
        }
    }
    if tables == 0 {
        write!(out, "none")
    } else {
        Ok(())
    }
}
