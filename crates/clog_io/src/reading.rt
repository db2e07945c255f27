//! Reading a source to its end.
ghost use Rattle.std.specs.Prelude.{
  ◌≡◌,
  ◌≢◌,
  ◌≤◌,
  ◌<◌,
  ◌+◌,
  length,
  IfSome,
  IfOk,
  OnErr,
  IsErrOf,
  Err,
};
ghost use Rattle.clog_io.specs.Causes.{Rose};
ghost use Rattle.clog_io.specs.Bytes.{TakesAll, TakesAtMost, TakesSome};

use crate::source::Source;
use clog_base::Failed;
use std::alloc::{AllocError, Global};
use thiserror::Error;

/// Why not all bytes were read.
#[derive(Clone, Copy, Debug, PartialEq, Eq, Error)]
pub enum ReadAllFault {
    /// The source has failed, and has counted it.
    #[error("the source has failed")]
    Failed,
    /// More bytes came than the limit.
    #[error("more bytes than the limit")]
    Limit,
    /// Memory was refused.
    #[error("out of memory")]
    OutOfMemory,
}

impl From<AllocError> for ReadAllFault {
    ghost use Rattle.clog_io.specs.declared.reading.ReadAllFault.TheVariants.{
      OutOfMemory as no_memory,
    };

    ghost from_gives = { λ _ e. e ≡ no_memory };

    fn from(_: AllocError) -> Self {
        ReadAllFault::OutOfMemory
    }
}

impl From<Failed> for ReadAllFault {
    ghost use Rattle.clog_io.specs.declared.reading.ReadAllFault.TheVariants.{
      Failed as has_failed,
    };

    ghost from_gives = { λ _ e. e ≡ has_failed };

    fn from(_: Failed) -> Self {
        ReadAllFault::Failed
    }
}

/// All bytes to the end. `Limit` comes exactly where more than `limit` bytes came before the end or
/// a fault. After a refusal some bytes were taken from the source, and are gone: at most a piece of
/// 65,536 bytes more than `limit`, so an input without an end is refused.
pub fn read_all<S: Source>(
    alloc: Global,
    source: &mut S,
    limit: u64,
) -> Result<Vec<u8>, ReadAllFault>
    ensures bytes { IfOk result (λ v. TakesAll (S.left source.old) (S.left source.new) v.items) }
    ensures within { IfOk result (λ v. length v.items ≤ limit) }
    ensures beyond { IsErrOf result ReadAllFault.Limit
        → IfSome (S.left source.old) (λ left. limit < length left) }
    ensures taken { OnErr result (TakesSome (S.left source.old) (S.left source.new)) }
    ensures few { OnErr result (TakesAtMost (limit + 65536) (S.left source.old)
        (S.left source.new)) }
    ensures later { S.faults source.old ≤ S.faults source.new }
    ensures cause { IsErrOf result ReadAllFault.Failed
        → Rose (S.faults source.old) (S.faults source.new) }
    ensures quiet { result ≢ Err ReadAllFault.Failed
        → S.faults source.new ≡ S.faults source.old }
    ensures reliable { S.reliable source.old → result ≢ Err ReadAllFault.Failed }
    ensures still { S.reliable source.old → S.reliable source.new }
{
    let mut bytes = Vec::new(alloc);
    let mut room = [0u8; 65536];
    while bytes.len() as u64 <= limit {
        let count = source.read(&mut room)?;
        if count == 0 {
            return Ok(bytes);
        }
        bytes.extend_from_slice(&room[..count])?;
    }
    Err(ReadAllFault::Limit)
}
