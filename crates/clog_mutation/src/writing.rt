//! The bytes of a mutation's payload: its size, computed first, and the writing.
ghost use Rattle.std.specs.Prelude.{◌≡◌, ◌≤◌, ◌<◌, ◌^◌, ◌+◌, ◌++◌, length, OnOk, OnErr, IfOk};
ghost use Rattle.std.specs.List.{flat_map, AllByRecursion};
ghost use Rattle.clog_mutation.specs.Limits.{
  IsWithinLimits,
  UpdateIsWithinLimits,
};
ghost use Rattle.clog_mutation.specs.Stored.{IsStoredUpdate, IsPayload};
ghost use Rattle.clog_mutation.specs.Payload.{update_bytes, payload_of};
ghost use Rattle.clog_fields.specs.Fields.{AppendsPart};

use crate::mutation::{Mutation, Update};
use clog_base::OutOfMemory;
use clog_fields::{put_name, put_timestamp, put_value, value_size};
use std::alloc::Global;

fn put_update(out: &mut Vec<u8>, update: &Update) -> Result<(), OutOfMemory>
    requires limits { UpdateIsWithinLimits update.now }
    requires size { length (update_bytes update.now) < 2 ^ 32 }
    ensures bytes { OnOk result (out.new.items ≡ out.old.items ++ update_bytes update.now) }
    ensures stored { OnOk result (IsStoredUpdate update.now) }
    ensures err { OnErr result
        (AppendsPart out.old.items out.new.items (update_bytes update.now)) }
{
    out.push(update.table.0)?;
    put_name(out, &update.column)?;
    put_timestamp(out, update.cell.ts)?;
    put_value(out, update.cell.kind, &update.cell.value)
}

fn put_updates(out: &mut Vec<u8>, updates: &[Update]) -> Result<(), OutOfMemory>
    requires limits { AllByRecursion UpdateIsWithinLimits updates.now }
    requires size { length (flat_map update_bytes updates.now) < 2 ^ 32 }
    ensures bytes { OnOk result
        (out.new.items ≡ out.old.items ++ flat_map update_bytes updates.now) }
    ensures stored { OnOk result (AllByRecursion IsStoredUpdate updates.now) }
    ensures err { OnErr result
        (AppendsPart out.old.items out.new.items (flat_map update_bytes updates.now)) }
{
    for update in updates {
        put_update(out, update)?;
    }
    Ok(())
}

/// Appends the payload of a mutation, `payload_size` bytes. For want of memory a first part of the
/// payload stands behind what was there, which may be none of it.
pub fn put_mutation(out: &mut Vec<u8>, mutation: &Mutation) -> Result<(), OutOfMemory>
    requires limits { IsWithinLimits mutation.now }
    requires size { length (payload_of mutation.now) ≤ 2 ^ 30 }
    ensures bytes { OnOk result (out.new.items ≡ out.old.items ++ payload_of mutation.now) }
    // What was appended is a payload: what `decode` reads back.
    ensures payload { OnOk result (IsPayload (payload_of mutation.now) mutation.now) }
    ensures err { OnErr result
        (AppendsPart out.old.items out.new.items (payload_of mutation.now)) }
{
    put_name(out, &mutation.key)?;
    let updates = mutation.updates.as_slice();
    out.extend_from_slice(&(updates.len() as u16).to_be_bytes())?;
    put_updates(out, updates)
}

/// The payload of a mutation, in one piece of memory that is taken at the start.
pub fn encode(alloc: Global, mutation: &Mutation) -> Result<Vec<u8>, OutOfMemory>
    requires limits { IsWithinLimits mutation.now }
    requires size { length (payload_of mutation.now) ≤ 2 ^ 30 }
    ensures bytes { IfOk result (λ bytes. bytes.items ≡ payload_of mutation.now) }
    // It is what `decode` reads back.
    ensures payload { IfOk result (λ bytes. IsPayload bytes.items mutation.now) }
{
    let mut out = Vec::with_capacity(alloc, payload_size(mutation) as usize)?;
    put_mutation(&mut out, mutation)?;
    Ok(out)
}

#[inline]
fn update_size(update: &Update) -> u128
    ensures exact { result ≡ length (update_bytes update.now) }
    ensures bound { result < 2 ^ 66 }
{
    11 + update.column.len() as u128 + value_size(update.cell.kind, &update.cell.value)
}

/// The length of the payload in bytes, without making it.
pub fn payload_size(mutation: &Mutation) -> u128
    requires { IsWithinLimits mutation.now }
    ensures { result ≡ length (payload_of mutation.now) }
{
    let mut size = 4 + mutation.key.len() as u128;
    for update in mutation.updates.as_slice() {
        size += update_size(update);
    }
    size
}
