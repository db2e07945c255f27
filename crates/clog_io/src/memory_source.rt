//! A source in memory, for tests. It gives its bytes piece by piece, and fails where it is told.
ghost use Rattle.std.specs.Prelude.{◌≡◌, ◌≤◌, [], Some, vec_len};
ghost use Rattle.clog_io.specs.Calls.{first_of};

use crate::calls::FailingCalls;
use crate::source::Source;
use clog_base::Failed;

/// Bytes in memory, of which a call gives at most `piece`.
#[derive(Drop)]
pub struct MemSource {
    bytes: Vec<u8>,
    at: usize,
    piece: usize,
    calls: FailingCalls,
    ghost within: { at ≤ vec_len bytes },
    ghost some: { 1 ≤ piece },
}

impl MemSource {
    /// A source of these bytes. `calls` are the numbers of the calls that fail, from 1, ascending.
    pub fn new(bytes: Vec<u8>, piece: u32, calls: Vec<u64>) -> MemSource
        requires { 1 ≤ piece }
        ensures left { ⟦<MemSource as Source>⟧.left result ≡ Some bytes.items }
        ensures faults { ⟦<MemSource as Source>⟧.faults result ≡ 0 }
        ensures reliable { calls.items ≡ [] → ⟦<MemSource as Source>⟧.reliable result }
        ensures piece { result.piece ≡ piece }
        ensures calls { result.calls ≡ first_of calls.items }
    {
        MemSource {
            bytes,
            at: 0,
            piece: piece as usize,
            calls: FailingCalls::new(calls),
        }
    }
}

impl Source for MemSource {
    ghost use Rattle.std.specs.Prelude.{drop};

    ghost left = { λ s. Some (drop s.at s.bytes.items) };

    ghost faults = { λ s. s.calls.faults };

    ghost reliable = { λ s. s.calls.failing ≡ [] };

    fn read(&mut self, room: &mut [u8]) -> Result<usize, Failed> {
        if self.calls.make() {
            return Err(Failed);
        }
        let left = self.bytes.len() - self.at;
        let count = room.len().min(self.piece).min(left);
        room[..count].copy_from_slice(&self.bytes[self.at..self.at + count]);
        self.at += count;
        Ok(count)
    }
}
