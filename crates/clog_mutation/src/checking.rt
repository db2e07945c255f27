//! Whether bytes are a payload: the fields are read as for a mutation, and nothing is made of them.
ghost use Rattle.std.specs.Prelude.{◌≡◌, ◌≢◌, Ok, Err, IfErr};
ghost use Rattle.clog_base.specs.declared.fault.PayloadFault.{PayloadFault};
ghost use Rattle.clog_base.specs.declared.fault.PayloadFault.TheVariants.{OutOfMemory as no_memory};
ghost use Rattle.clog_fields.specs.Reading.{Finds};
ghost use Rattle.clog_mutation.specs.declared.mutation.Mutation.{Mutation};
ghost use Rattle.clog_mutation.specs.Refusals.{IsRefused, Checks};
ghost use Rattle.clog_mutation.specs.Stored.{IsPayload};
ghost use Rattle.clog_mutation.specs.Reading.{
  passed,
  judged,
  update_at,
  updates_at,
  mutation_at,
  all_of,
};

use crate::reading::{count, table};
use clog_base::PayloadFault;
use clog_fields::{name, place, timestamp, value};

#[tactic(auto, unfolding(crate::specs::Reading::update_at))]
fn pass_update(end: usize, bytes: &[u8]) -> Result<&[u8], PayloadFault>
    ensures { Finds (λ rest. rest.now) result (passed (update_at end bytes.now)) }
{
    let (_, rest) = table(end, bytes)?;
    let (_, rest) = name(end, rest)?;
    let (_, rest) = timestamp(end, rest)?;
    let (_, rest) = value(end, rest)?;
    Ok(rest)
}

fn pass_updates(end: usize, count: u16, bytes: &[u8]) -> Result<&[u8], PayloadFault>
    ensures { Finds (λ rest. rest.now) result (passed (updates_at end count bytes.now)) }
{
    let mut rest = bytes;
    for _ in 0..count {
        rest = pass_update(end, rest)?;
    }
    Ok(rest)
}

#[tactic(auto, unfolding(crate::specs::Reading::mutation_at))]
fn pass_mutation(end: usize, bytes: &[u8]) -> Result<&[u8], PayloadFault>
    ensures { Finds (λ rest. rest.now) result (passed (mutation_at end bytes.now)) }
{
    let (_, rest) = name(end, bytes)?;
    let (count, rest) = count(end, rest)?;
    pass_updates(end, count, rest)
}

#[tactic(auto, unfolding(crate::specs::Reading::all_of))]
fn judge(bytes: &[u8]) -> Result<(), PayloadFault>
    ensures { Finds (λ done. done) result (judged (all_of bytes.now)) }
{
    let rest = pass_mutation(bytes.len(), bytes)?;
    if !rest.is_empty() {
        return Err(PayloadFault::Trailing(place(bytes.len(), rest)));
    }
    Ok(())
}

/// Whether bytes are some mutation's payload, which is what `decode` answers but for the mutation:
/// the same fault at the same place. Nothing is made, so no memory can be wanting.
pub fn check(bytes: &[u8]) -> Result<(), PayloadFault>
    // Some mutation's payload, or the refusal of bytes that are none.
    ensures checks { Checks bytes.now result }
    // What is a payload passes, and what is refused is refused so.
    ensures passes { (m : Mutation) → IsPayload bytes.now m → result ≡ Ok tt }
    ensures refuses { (fault : PayloadFault) → IsRefused bytes.now fault → result ≡ Err fault }
    ensures memory { IfErr result (λ fault. fault ≢ no_memory) }
{
    judge(bytes)
}
