//! Reading a payload as `decode` does, in one walk and without a copy.
ghost use Rattle.std.specs.Prelude.{◌<◌, ◌∷◌, map};
ghost use Rattle.clog_fields.specs.Reading.{Finds};
ghost use Rattle.clog_mutation.specs.Lent.{Lends, mutation_lent, update_lent};
ghost use Rattle.clog_mutation.specs.Reading.{Gives, all_of, mutation_at, update_at, updates_at};

use crate::lent::{LentMutation, LentUpdate};
use crate::reading::{count, table};
use clog_base::{PayloadFault, Table};
use clog_fields::{name, place, timestamp, value};
use std::alloc::Global;

#[tactic(auto, unfolding(crate::specs::Reading::update_at))]
fn update(end: usize, bytes: &[u8]) -> Result<(LentUpdate<'_>, &[u8]), PayloadFault>
    ensures { Finds (λ x. (update_lent x.0, x.1.now)) result (update_at end bytes.now) }
{
    let (table, rest) = table(end, bytes)?;
    let (column, rest) = name(end, rest)?;
    let (ts, rest) = timestamp(end, rest)?;
    let ((kind, value), rest) = value(end, rest)?;
    let update = LentUpdate {
        table: Table(table),
        column,
        ts,
        kind,
        value,
    };
    Ok((update, rest))
}

fn updates(
    alloc: Global,
    end: usize,
    count: u16,
    bytes: &[u8],
) -> Result<(Vec<LentUpdate<'_>>, &[u8]), PayloadFault>
    ensures { Gives (λ x. (map update_lent x.0.items, x.1.now)) result
        (updates_at end count bytes.now) }
{
    let mut updates = Vec::new(alloc);
    let mut rest = bytes;
    for _ in 0..count {
        let (update, after) = update(end, rest)?;
        let Ok(()) = updates.push(update) else {
            return Err(PayloadFault::OutOfMemory);
        };
        rest = after;
    }
    Ok((updates, rest))
}

#[tactic(auto, unfolding(crate::specs::Reading::updates_at))]
fn first_and_more(
    alloc: Global,
    end: usize,
    count: u16,
    bytes: &[u8],
) -> Result<((LentUpdate<'_>, Vec<LentUpdate<'_>>), &[u8]), PayloadFault>
    requires { 0 < count }
    ensures { Gives (λ x. (update_lent x.0.0 ∷ map update_lent x.0.1.items, x.1.now)) result
        (updates_at end count bytes.now) }
{
    let (first, rest) = update(end, bytes)?;
    let (more, rest) = updates(alloc, end, count - 1, rest)?;
    Ok(((first, more), rest))
}

#[tactic(auto, unfolding(crate::specs::Reading::mutation_at))]
fn mutation(
    alloc: Global,
    end: usize,
    bytes: &[u8],
) -> Result<(LentMutation<'_>, &[u8]), PayloadFault>
    ensures { Gives (λ x. (mutation_lent x.0, x.1.now)) result (mutation_at end bytes.now) }
{
    let (key, rest) = name(end, bytes)?;
    let (count, rest) = count(end, rest)?;
    let ((first, more), rest) = first_and_more(alloc, end, count, rest)?;
    Ok((LentMutation { key, first, more }, rest))
}

#[tactic(auto, unfolding(crate::specs::Reading::all_of))]
fn whole(alloc: Global, bytes: &[u8]) -> Result<LentMutation<'_>, PayloadFault>
    ensures { Gives mutation_lent result (all_of bytes.now) }
{
    let (mutation, rest) = mutation(alloc, bytes.len(), bytes)?;
    if !rest.is_empty() {
        return Err(PayloadFault::Trailing(place(bytes.len(), rest)));
    }
    Ok(mutation)
}

/// The mutation whose payload the bytes are, as `decode` reads it, with texts that are borrowed
/// from the bytes. Its refusals are those of `decode`. Memory is taken where there is more than one
/// update.
pub fn lend(alloc: Global, bytes: &[u8]) -> Result<LentMutation<'_>, PayloadFault>
    ensures { Lends bytes.now result }
{
    whole(alloc, bytes)
}
