//! A fast reading of the usual line: its names stand in their usual order, the reader's memory is
//! kept from line to line, and only the texts that stay are copied. What it gives is what the line
//! says. Where it gives nothing, that says nothing of the line.
ghost use Rattle.std.specs.Prelude.{◌≡◌, ◌≤◌, ◌∷◌, ℕ, List, Option, Ok, length, IfSome, IfOk};
ghost use Rattle.std.specs.List.{AllByRecursion};
ghost use Rattle.json.specs.Token.{end_array};
ghost use Rattle.clog_spec.specs.Sizes.{most_updates};
ghost use Rattle.clog_mutation.specs.Limits.{IsValueOf, UpdateIsWithinLimits, IsWithinLimits};
ghost use Rattle.clog_text.specs.LineMutation.{cell_of, line_mutation};
ghost use Rattle.clog_text.specs.Refusals.{Gives};
ghost use Rattle.clog_text.specs.UsualLines.{Spelled, Says, AllSay, value_data, spelled_value};
ghost use Rattle.clog_text.specs.UsualLines.{update_tokens, updates_tokens, line_tokens};

use crate::read::{read_line, text_of};
use crate::refusal::BadLine;
use crate::tokens::{
    begin_array, begin_object, end_object, name, name_text, read_table, timestamp,
};
use clog_base::{Cell, Kind, MOST_UPDATES, Text};
use clog_mutation::{Mutation, Update, Updates};
use json::{Reader, Scratch, Token};
use std::alloc::Global;

// The cell of a value: null is a deletion.
fn read_cell(alloc: Global, reader: &mut Reader<'_>, ts: i64) -> Option<Cell>
    ensures cell { IfSome result (λ cell. (v : Option (List ℕ))
        × (reader.old ≡ spelled_value v ∷ reader.new) × (cell_of ts (value_data v) ≡ Ok cell)) }
    ensures value { IfSome result (λ cell. IsValueOf cell.kind cell.value) }
    ensures ts { IfSome result (λ cell. cell.ts ≡ ts) }
{
    match reader.next() {
        Some(Token::Null) => Some(Cell {
            ts,
            kind: Kind::Deletion,
            value: Text::copy_of(alloc, "").ok()?,
        }),
        Some(Token::String(text)) => Some(Cell {
            ts,
            kind: Kind::Live,
            value: Text::copy_of(alloc, text).ok()?,
        }),
        _ => None,
    }
}

// An update's object, behind its brace.
fn update(alloc: Global, reader: &mut Reader<'_>) -> Option<Update>
    ensures update { IfSome result (λ x. (u : Spelled)
        × (reader.old ≡ update_tokens u reader.new) × Says u x) }
    ensures within { IfSome result UpdateIsWithinLimits }
{
    name(reader, "table")?;
    let table = read_table(reader)?;
    name(reader, "column")?;
    let column = name_text(alloc, reader)?;
    name(reader, "ts")?;
    let ts = timestamp(reader)?;
    name(reader, "value")?;
    let cell = read_cell(alloc, reader, ts)?;
    end_object(reader)?;
    Some(Update {
        table,
        column,
        cell,
    })
}

// The updates of an array, behind its bracket: one at least, and fewer than the greatest number.
fn updates(alloc: Global, reader: &mut Reader<'_>) -> Option<Updates>
    ensures updates { IfSome result (λ xs. (us : List Spelled)
        × (reader.old ≡ updates_tokens us (end_array ∷ reader.new)) × AllSay us xs) }
    ensures within { IfSome result (AllByRecursion UpdateIsWithinLimits) }
    ensures some { IfSome result (λ xs. 1 ≤ length xs) }
    ensures few { IfSome result (λ xs. length xs ≤ most_updates) }
{
    // Most lines have one update, and a vector that grows by itself begins with room for four.
    let Ok(mut updates) = Vec::with_capacity(alloc, 1) else {
        return None;
    };
    'updates: while updates.len() < MOST_UPDATES {
        match reader.next() {
            Some(Token::BeginObject) => match updates.push(update(alloc, reader)?) {
                Ok(()) => {}
                Err(_) => return None,
            },
            Some(Token::EndArray) if !updates.is_empty() => return Some(Updates::new(updates)),
            _ => return None,
        }
    }
    None
}

// The whole line, to its last token.
fn read_mutation(alloc: Global, reader: &mut Reader<'_>) -> Option<Mutation>
    ensures mutation { IfSome result (λ m. (us : List Spelled)
        × (reader.old ≡ line_tokens m.key us) × AllSay us m.updates) }
    ensures within { IfSome result IsWithinLimits }
{
    begin_object(reader)?;
    name(reader, "key")?;
    let key = name_text(alloc, reader)?;
    name(reader, "updates")?;
    begin_array(reader)?;
    let updates = updates(alloc, reader)?;
    end_object(reader)?;
    if reader.next().is_some() {
        return None;
    }
    Some(Mutation { key, updates })
}

// The mutation of a line, if it is a usual one.
fn usual_line(alloc: Global, scratch: &mut Scratch, line: &[u8]) -> Option<Mutation>
    ensures mutation { IfSome result (λ m. line_mutation line.now ≡ Ok m) }
    ensures within { IfSome result IsWithinLimits }
{
    let text = text_of(line)?;
    let Ok(mut reader) = Reader::new(text, scratch) else {
        return None;
    };
    let mutation = read_mutation(alloc, &mut reader)?;
    Some(mutation)
}

/// What `read_line` gives of the line, with the memory of reading kept in `scratch`.
pub(crate) fn read_with(
    alloc: Global,
    scratch: &mut Scratch,
    line: &[u8],
) -> Result<Mutation, BadLine>
    ensures mutation { Gives result (line_mutation line.now) }
    ensures within { IfOk result IsWithinLimits }
{
    match usual_line(alloc, scratch, line) {
        Some(mutation) => Ok(mutation),
        None => read_line(alloc, line),
    }
}
