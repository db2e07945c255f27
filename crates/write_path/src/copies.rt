//! Copies of a write's note, one for each of its tables: what it puts into memtables. Their memory
//! is taken with the write's, and no other.
ghost use Rattle.std.specs.Prelude.{
  ◌≡◌,
  ◌+◌,
  ◌<◌,
  ◌≤◌,
  ◌^◌,
  ◌++◌,
  length,
  map,
  take,
  drop,
  IfOk,
};
ghost use Rattle.path_core.specs.Parts.{touches};
ghost use Rattle.write_path.specs.Writes.{copies_of, said};

use clog_base::{Bytes, Key, MOST_TABLES, OutOfMemory, Writer};
use path_core::EntryNote;
use std::alloc::Global;
use std::collections::LinkedList;
use std::mem::replace;

/// Whether a set of tables, bit `t` for table `t`, holds a table.
pub(crate) fn touches(tables: u16, table: u8) -> bool
    requires { table < 16 }
    ensures { result ≡ touches tables table }
{
    tables >> table & 1 == 1
}

fn copy_of(alloc: Global, note: &EntryNote) -> Result<EntryNote, OutOfMemory>
    ensures { IfOk result (λ copy. copy ≡ note.now) }
{
    Ok(EntryNote {
        start: note.start,
        end: note.end,
        tables: note.tables,
        line: note.line,
        writer: note.writer,
        bytes: Bytes::new(note.bytes.as_slice().to_vec(alloc)?),
    })
}

/// One copy of a note for each of its tables.
pub(crate) fn copies_of(
    alloc: Global,
    note: &EntryNote,
) -> Result<LinkedList<EntryNote>, OutOfMemory>
    ensures { IfOk result (λ copies. copies ≡ copies_of note.now) }
{
    let mut copies = LinkedList::new(alloc);
    for table in 0..MOST_TABLES {
        if touches(note.tables, table) {
            copies.push_back(copy_of(alloc, note)?)?;
        }
    }
    Ok(copies)
}

/// Takes the first note out, in its node.
pub(crate) fn take_first(notes: &mut LinkedList<EntryNote>) -> LinkedList<EntryNote>
    requires { 1 ≤ length notes.old }
    ensures first { result ≡ take 1 notes.old }
    ensures rest { notes.new ≡ drop 1 notes.old }
{
    match notes.split_off(1) {
        Ok(rest) => replace(notes, rest),
        Err(_) => unreachable!(),
    }
}

// Says in a lone note where its claim begins and ends, and who made it.
fn say(one: &mut LinkedList<EntryNote>, start: Key, end: Key, writer: Writer)
    requires { length one.old ≤ 1 }
    ensures { one.new ≡ map (said start end writer) one.old }
{
    if let Some(note) = one.front_mut() {
        note.start = start;
        note.end = end;
        note.writer = writer;
    }
}

// Puts notes behind others. It takes no memory.
fn put_behind(notes: &mut LinkedList<EntryNote>, more: &mut LinkedList<EntryNote>)
    requires { length notes.old + length more.old < 2 ^ 63 }
    ensures { notes.new ≡ notes.old ++ more.old }
{
    if notes.append(more).is_err() {
        unreachable!()
    }
}

/// Says in each note where its claim begins and ends, and who made it: one after another goes from
/// the front of the list to its end.
pub(crate) fn say_in_each(notes: &mut LinkedList<EntryNote>, start: Key, end: Key, writer: Writer)
    ensures { notes.new ≡ map (said start end writer) notes.old }
{
    for _ in 0..notes.len() {
        let mut first = take_first(notes);
        say(&mut first, start, end, writer);
        put_behind(notes, &mut first);
    }
}
