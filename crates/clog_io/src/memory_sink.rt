//! A sink in memory, for tests. It holds what was written, and fails where it is told.
ghost use Rattle.std.specs.Prelude.{◌≡◌, [], Some};
ghost use Rattle.clog_io.specs.Calls.{first_of};

use crate::calls::FailingCalls;
use crate::sink::Sink;
use clog_base::Failed;
use std::alloc::Global;

/// Bytes in memory. A call that fails takes nothing, and a growth that is refused memory fails too.
#[derive(Drop)]
pub struct MemSink {
    bytes: Vec<u8>,
    calls: FailingCalls,
}

impl MemSink {
    /// An empty sink. `calls` are the numbers of the calls that fail, from 1, ascending.
    pub fn new(alloc: Global, calls: Vec<u64>) -> MemSink
        ensures held { ⟦<MemSink as Sink>⟧.held result ≡ Some [] }
        ensures faults { ⟦<MemSink as Sink>⟧.faults result ≡ 0 }
        ensures calls { result.calls ≡ first_of calls.items }
    {
        MemSink {
            bytes: Vec::new(alloc),
            calls: FailingCalls::new(calls),
        }
    }

    /// The bytes that it holds.
    pub fn as_slice(&self) -> &[u8]
        ensures { Some result.now ≡ ⟦<MemSink as Sink>⟧.held self.now }
    {
        self.bytes.as_slice()
    }

    /// The bytes that it held; takes no memory.
    pub fn into_bytes(self) -> Vec<u8>
        ensures { Some result.items ≡ ⟦<MemSink as Sink>⟧.held self }
    {
        self.bytes
    }

    /// How many calls have failed.
    pub fn fault_count(&self) -> u64
        ensures { result ≡ ⟦<MemSink as Sink>⟧.faults self.now }
    {
        self.calls.fault_count()
    }
}

impl Sink for MemSink {
    ghost held = { λ s. Some s.bytes.items };

    ghost faults = { λ s. s.calls.faults };

    fn write_all(&mut self, bytes: &[u8]) -> Result<(), Failed> {
        if self.calls.make() {
            return Err(Failed);
        }
        if self.bytes.extend_from_slice(bytes).is_err() {
            self.calls.count_fault();
            return Err(Failed);
        }
        Ok(())
    }
}
