//! Reading a payload, field by field from the left; the first refusal ends it.
ghost use Rattle.std.specs.Prelude.{◌≡◌, IfOk, IfErr, Ok, Err};
ghost use Rattle.clog_base.specs.declared.fault.PayloadFault.TheVariants.{OutOfMemory as no_memory};
ghost use Rattle.clog_fields.specs.Reading.{Finds};
ghost use Rattle.clog_mutation.specs.Refusals.{IsRefused, Decodes};
ghost use Rattle.clog_mutation.specs.Stored.{IsPayload};
ghost use Rattle.clog_mutation.specs.Limits.{IsWithinLimits};
ghost use Rattle.clog_mutation.specs.Reading.{
  Gives,
  count_at,
  table_at,
  update_at,
  updates_at,
  mutation_at,
  all_of,
};

use crate::mutation::{Mutation, Update, Updates};
use clog_base::{Cell, MOST_TABLES, PayloadFault, Table, Text};
use clog_fields::{byte, name, place, short_number, timestamp, value};
use std::alloc::Global;

#[tactic(auto, unfolding(crate::specs::Reading::count_at))]
pub(crate) fn count(end: usize, bytes: &[u8]) -> Result<(u16, &[u8]), PayloadFault>
    ensures { Finds (λ x. (x.0, x.1.now)) result (count_at end bytes.now) }
{
    let (count, rest) = short_number(end, bytes)?;
    if count == 0 {
        return Err(PayloadFault::Count);
    }
    Ok((count, rest))
}

#[tactic(auto, unfolding(crate::specs::Reading::table_at))]
pub(crate) fn table(end: usize, bytes: &[u8]) -> Result<(u8, &[u8]), PayloadFault>
    ensures { Finds (λ x. (x.0, x.1.now)) result (table_at end bytes.now) }
{
    let (table, rest) = byte(end, bytes)?;
    if table >= MOST_TABLES {
        return Err(PayloadFault::BadTable(place(end, bytes)));
    }
    Ok((table, rest))
}

/// A copy of a text. The only fault is want of memory.
fn copy_of(alloc: Global, text: &str) -> Result<Text, PayloadFault>
    ensures copy { IfOk result (λ copy. copy ≡ text.now) }
    ensures memory { IfErr result (λ fault. fault ≡ no_memory) }
{
    match Text::copy_of(alloc, text) {
        Ok(copy) => Ok(copy),
        Err(_) => Err(PayloadFault::OutOfMemory),
    }
}

#[tactic(auto, unfolding(crate::specs::Reading::update_at))]
fn update(alloc: Global, end: usize, bytes: &[u8]) -> Result<(Update, &[u8]), PayloadFault>
    ensures { Gives (λ x. (x.0, x.1.now)) result (update_at end bytes.now) }
{
    let (table, rest) = table(end, bytes)?;
    let (column, rest) = name(end, rest)?;
    let (ts, rest) = timestamp(end, rest)?;
    let ((kind, value), rest) = value(end, rest)?;
    let column = copy_of(alloc, column)?;
    let value = copy_of(alloc, value)?;
    let update = Update {
        table: Table(table),
        column,
        cell: Cell { ts, kind, value },
    };
    Ok((update, rest))
}

fn updates(
    alloc: Global,
    end: usize,
    count: u16,
    bytes: &[u8],
) -> Result<(Vec<Update>, &[u8]), PayloadFault>
    ensures { Gives (λ x. (x.0.items, x.1.now)) result (updates_at end count bytes.now) }
{
    let mut updates = Vec::new(alloc);
    let mut rest = bytes;
    for _ in 0..count {
        let (update, after) = update(alloc, end, rest)?;
        let Ok(()) = updates.push(update) else {
            return Err(PayloadFault::OutOfMemory);
        };
        rest = after;
    }
    Ok((updates, rest))
}

#[tactic(auto, unfolding(crate::specs::Reading::mutation_at))]
fn mutation(alloc: Global, end: usize, bytes: &[u8]) -> Result<(Mutation, &[u8]), PayloadFault>
    ensures { Gives (λ x. (x.0, x.1.now)) result (mutation_at end bytes.now) }
{
    let (key, rest) = name(end, bytes)?;
    let key = copy_of(alloc, key)?;
    let (count, rest) = count(end, rest)?;
    let (updates, rest) = updates(alloc, end, count, rest)?;
    let updates = Updates::new(updates);
    Ok((Mutation { key, updates }, rest))
}

#[tactic(auto, unfolding(crate::specs::Reading::all_of))]
fn whole(alloc: Global, bytes: &[u8]) -> Result<Mutation, PayloadFault>
    ensures { Gives (λ m. m) result (all_of bytes.now) }
{
    let (mutation, rest) = mutation(alloc, bytes.len(), bytes)?;
    if !rest.is_empty() {
        return Err(PayloadFault::Trailing(place(bytes.len(), rest)));
    }
    Ok(mutation)
}

/// The mutation whose payload the bytes are. What is no payload is refused for its first fault from
/// the left, at the offset of the field in bytes. A text that does not fit is `Short` before its
/// UTF-8 is looked at.
pub fn decode(alloc: Global, bytes: &[u8]) -> Result<Mutation, PayloadFault>
    // A mutation whose payload the bytes are, or the refusal of bytes that are none.
    ensures decodes { Decodes bytes.now result }
    // What is a payload is read, and what is refused is refused so, unless memory runs out.
    ensures reads { (m : Mutation) → IsPayload bytes.now m → Gives (λ x. x) result (Ok m) }
    ensures refuses { (fault : PayloadFault) → IsRefused bytes.now fault
        → Gives (λ x. x) result (Err fault) }
    ensures within { IfOk result (λ m. IsWithinLimits m) }
{
    whole(alloc, bytes)
}
