//! One line of a mutation file, read to a JSON value and then by the table of refusals.
ghost use Rattle.std.specs.Prelude.{◌≡◌, ◌<◌, ◌≤◌, false, true, length, IfOk, MatchOption};
ghost use Rattle.std.specs.List.{AllByRecursion};
ghost use Rattle.serde_json.specs.View.{view, items_view};
ghost use Rattle.clog_spec.specs.Sizes.{longest_name, most_tables, most_updates};
ghost use Rattle.clog_mutation.specs.Limits.{IsValueOf, UpdateIsWithinLimits, IsWithinLimits};
ghost use Rattle.clog_text.specs.Refusals.{Gives, GivesAs};
ghost use Rattle.clog_text.specs.LineMutation.{name_of, table_of, ts_of, cell_of, has_members};
ghost use Rattle.clog_text.specs.LineMutation.{field, update_of, updates_of, counted, list_of};
ghost use Rattle.clog_text.specs.LineMutation.{mutation_of, is_text, value_of, line_mutation};

use crate::refusal::{BadLine, Part};
use clog_base::{Cell, Kind, LONGEST_NAME, MOST_TABLES, MOST_UPDATES, Table, Text};
use clog_mutation::{Mutation, Update, Updates};
use serde_json::Value;
use std::alloc::Global;
use std::str;

// A name of 1 to 255 bytes.
fn name_of(alloc: Global, value: &Value, part: Part) -> Result<Text, BadLine>
    ensures name { Gives result (name_of part (view value.now)) }
    ensures short { IfOk result (λ name. length name ≤ longest_name) }
    ensures named { IfOk result (λ name. 1 ≤ length name) }
{
    let Some(text) = value.as_str() else {
        return Err(BadLine::Field(part));
    };
    if text.is_empty() || text.len() > LONGEST_NAME {
        return Err(BadLine::Range(part));
    }
    Ok(Text::copy_of(alloc, text)?)
}

fn table_of(value: &Value) -> Result<Table, BadLine>
    ensures table { Gives result (table_of (view value.now)) }
    ensures known { IfOk result (λ table. table.0 < most_tables) }
{
    match value.as_u64() {
        None => Err(BadLine::Field(Part::Table)),
        Some(number) if number >= MOST_TABLES as u64 => Err(BadLine::UnknownTable),
        Some(number) => Ok(Table(number as u8)),
    }
}

fn ts_of(value: &Value) -> Result<i64, BadLine>
    ensures { Gives result (ts_of (view value.now)) }
{
    match value.as_i64() {
        Some(ts) => Ok(ts),
        None if value.as_u64().is_some() => Err(BadLine::Range(Part::Ts)),
        None => Err(BadLine::Field(Part::Ts)),
    }
}

fn cell_of(alloc: Global, ts: i64, value: &Value) -> Result<Cell, BadLine>
    ensures cell { Gives result (cell_of ts (view value.now)) }
    ensures empty { IfOk result (λ cell. IsValueOf cell.kind cell.value) }
{
    match value {
        Value::Null => Ok(Cell {
            ts,
            kind: Kind::Deletion,
            value: Text::copy_of(alloc, "")?,
        }),
        Value::String(text) => Ok(Cell {
            ts,
            kind: Kind::Live,
            value: Text::copy_of(alloc, text.as_str())?,
        }),
        _ => Err(BadLine::Field(Part::Value)),
    }
}

fn has_members(value: &Value, count: usize) -> bool
    ensures { result ≡ has_members count (view value.now) }
{
    match value.as_object() {
        Some(members) => members.len() == count,
        None => false,
    }
}

// The member of an object with so many members.
fn field<'v>(value: &'v Value, part: Part, count: usize, name: &str) -> Result<&'v Value, BadLine>
    ensures { GivesAs (λ v. view v.now) result (field part count name.now (view value.now)) }
{
    if !has_members(value, count) {
        return Err(BadLine::Field(part));
    }
    match value.get(name) {
        Some(found) => Ok(found),
        None => Err(BadLine::Field(part)),
    }
}

#[tactic(auto, unfolding(crate::specs::LineMutation::update_of))]
fn update_of(alloc: Global, value: &Value) -> Result<Update, BadLine>
    ensures update { Gives result (update_of (view value.now)) }
    ensures within { IfOk result UpdateIsWithinLimits }
{
    let table = field(value, Part::Update, 4, "table")?;
    let column = field(value, Part::Update, 4, "column")?;
    let ts = field(value, Part::Update, 4, "ts")?;
    let cell = field(value, Part::Update, 4, "value")?;
    let table = table_of(table)?;
    let column = name_of(alloc, column, Part::Column)?;
    let ts = ts_of(ts)?;
    let cell = cell_of(alloc, ts, cell)?;
    Ok(Update {
        table,
        column,
        cell,
    })
}

fn updates_of(alloc: Global, items: &[Value]) -> Result<Vec<Update>, BadLine>
    ensures updates { GivesAs (λ v. v.items) result (updates_of (items_view items.now)) }
    ensures within { IfOk result (λ v. AllByRecursion UpdateIsWithinLimits v.items) }
    ensures count { IfOk result (λ v. length v.items ≡ length items.now) }
{
    let mut updates = Vec::new(alloc);
    for item in items {
        // A match in place of `?`, since the exit speaks of what was read.
        match update_of(alloc, item) {
            Ok(update) => updates.push(update)?,
            Err(e) => return Err(e),
        }
    }
    Ok(updates)
}

fn counted(alloc: Global, items: &[Value]) -> Result<Updates, BadLine>
    ensures updates { Gives result (counted (items_view items.now)) }
    ensures within { IfOk result (AllByRecursion UpdateIsWithinLimits) }
    ensures count { IfOk result (λ us. length us ≡ length items.now) }
    ensures some { IfOk result (λ us. 1 ≤ length us) }
    ensures few { IfOk result (λ us. length us ≤ most_updates) }
{
    match items.len() {
        0 => Err(BadLine::NoUpdates),
        // A match in place of `?`, since the exit speaks of what was read.
        1..=MOST_UPDATES => match updates_of(alloc, items) {
            Ok(updates) => Ok(Updates::new(updates)),
            Err(e) => Err(e),
        },
        _ => Err(BadLine::Range(Part::Updates)),
    }
}

#[tactic(auto, unfolding(crate::specs::LineMutation::list_of))]
fn list_of(alloc: Global, value: &Value) -> Result<Updates, BadLine>
    ensures updates { Gives result (list_of (view value.now)) }
    ensures within { IfOk result (AllByRecursion UpdateIsWithinLimits) }
    ensures some { IfOk result (λ us. 1 ≤ length us) }
    ensures few { IfOk result (λ us. length us ≤ most_updates) }
{
    let Some(items) = value.as_array() else {
        return Err(BadLine::Field(Part::Updates));
    };
    counted(alloc, items)
}

#[tactic(auto, unfolding(crate::specs::LineMutation::mutation_of))]
fn mutation_of(alloc: Global, value: &Value) -> Result<Mutation, BadLine>
    ensures mutation { Gives result (mutation_of (view value.now)) }
    ensures within { IfOk result IsWithinLimits }
{
    let key = field(value, Part::Line, 2, "key")?;
    let updates = field(value, Part::Line, 2, "updates")?;
    let key = name_of(alloc, key, Part::Key)?;
    let updates = list_of(alloc, updates)?;
    Ok(Mutation { key, updates })
}

// The bytes as text, if they are UTF-8.
pub(crate) fn text_of(bytes: &[u8]) -> Option<&str>
    ensures { MatchOption result (is_text bytes.now ≡ false)
        (λ text. (text.now ≡ bytes.now) × (is_text bytes.now ≡ true)) }
{
    match str::from_utf8(bytes) {
        Ok(text) => Some(text),
        Err(_) => None,
    }
}

#[tactic(auto, unfolding(crate::specs::LineMutation::value_of))]
fn value_of(alloc: Global, line: &[u8]) -> Result<Value, BadLine>
    ensures { GivesAs view result (value_of line.now) }
{
    let Some(text) = text_of(line) else {
        return Err(BadLine::NotJson);
    };
    match Value::from_str(alloc, text) {
        Ok(value) => Ok(value),
        Err(e) if e.is_memory() => Err(BadLine::OutOfMemory),
        Err(_) => Err(BadLine::NotJson),
    }
}

/// The mutation of a line, whose bytes come without the newline. A line is one JSON text: an object
/// with exactly the names `key` and `updates`, and each update one with exactly the names `table`,
/// `column`, `ts` and `value`. Null as a value is a deletion. The refusals are those of the
/// definition, in its order; `OutOfMemory` may come at any place.
#[tactic(auto, unfolding(crate::specs::LineMutation::line_mutation))]
pub fn read_line(alloc: Global, bytes: &[u8]) -> Result<Mutation, BadLine>
    ensures mutation { Gives result (line_mutation bytes.now) }
    ensures within { IfOk result IsWithinLimits }
{
    let value = value_of(alloc, bytes)?;
    mutation_of(alloc, &value)
}
