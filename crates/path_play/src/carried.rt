//! What a seat carries to a close: nothing, the note of its entry, or the places that it took.
use crate::fault::Fault;
use crate::words::{Words, table_of};
use clog_base::{Bytes, Rows, Table, Writer};
use path_core::{Carried, EntryNote};
use std::alloc::Global;

/// What the words behind a close say of it.
pub(crate) fn carried(alloc: Global, words: &mut Words, by: u8) -> Result<Carried, Fault> {
    match words.word()? {
        "nothing" => Ok(Carried::Nothing),
        "deposit" => Ok(Carried::Deposit(note(alloc, words, by)?)),
        "applied" => Ok(Carried::Applied(Rows::new(places(alloc, words.word()?)?))),
        _ => Err(Fault::UnknownWord),
    }
}

// The entry itself is none of a run's words: no step asks for it.
fn note(alloc: Global, words: &mut Words, by: u8) -> Result<EntryNote, Fault> {
    let start = words.key()?;
    let end = words.key()?;
    words.named("tables")?;
    Ok(EntryNote {
        start,
        end,
        tables: tables(words.word()?)?,
        line: 1,
        writer: Writer(writer(words, by)?),
        bytes: Bytes::new(Vec::new(alloc)),
    })
}

// The seat itself, where no other is named.
fn writer(words: &mut Words, by: u8) -> Result<u8, Fault> {
    match words.next() {
        None => Ok(by),
        Some("writer") => words.small(),
        Some(_) => Err(Fault::UnknownWord),
    }
}

// Tables as a set, bit `t` for table `t`: `0,3`, or `none`.
fn tables(list: &str) -> Result<u16, Fault> {
    let mut set = 0u16;
    if list != "none" {
        for number in list.split(',') {
            set = with_table(set, table_of(number)?);
        }
    }
    Ok(set)
}

fn with_table(set: u16, table: Table) -> u16 {
    if table.0 < 16 {
        set | (1 << table.0)
    } else {
        set
    }
}

// Tables, each with the memtable that took the entry: `0:1,3:0`, or `none`.
fn places(alloc: Global, list: &str) -> Result<Vec<(Table, u64)>, Fault> {
    let mut places = Vec::new(alloc);
    if list != "none" {
        for pair in list.split(',') {
            places.push(place(pair)?)?;
        }
    }
    Ok(places)
}

fn place(pair: &str) -> Result<(Table, u64), Fault> {
    let (table, memtable) = pair.split_once(':').ok_or(Fault::MissingWord)?;
    let memtable = memtable.parse::<u64>().map_err(|_| Fault::NoNumber)?;
    Ok((table_of(table)?, memtable))
}
