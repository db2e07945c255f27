//! Where bytes come from.
ghost use Rattle.std.specs.Prelude.{◌≡◌, ℕ, List, Option};
ghost use Rattle.std.specs.Io.{ReadsAtMost};
ghost use Rattle.std.specs.Io.KnownBytes.{ReadConsumes};
ghost use Rattle.clog_io.specs.Causes.{HasCause, StaysReliable};

use clog_base::Failed;
use std::io;
use std::io::{ErrorKind, Read};

/// What gives bytes.
pub trait Source {
    /// The bytes that are left, where it tells them.
    ghost left: { Self → Option (List ℕ) };

    /// How often it has failed.
    ghost faults: { Self → ℕ };

    /// That no call from now on fails, where it knows this.
    ghost reliable: { Self → Type 0 } = { λ _. ⊥ };

    /// The first bytes left go to the front of the room, and their count is the answer. A count
    /// of 0 at a room that is not empty means the end. After `Failed` nothing was taken.
    fn read(&mut self, room: &mut [u8]) -> Result<usize, Failed>
        ensures bound { ReadsAtMost result room.new }
        ensures bytes { ReadConsumes (left self.old) (left self.new) result room.new }
        ensures cause { HasCause (faults self.old) (faults self.new) result }
        ensures reliable { reliable self.old → StaysReliable (reliable self.new) result };
}

/// A reader of std, as standard input. It tells the bytes left where the reader does.
#[derive(Drop)]
pub struct StdSource<R: Read + Drop> {
    inner: R,
    faults: u64,
    /// Why the reader last failed, as the system says it. No clause speaks of it.
    refusal: Option<io::Error>,
}

impl<R: Read + Drop> StdSource<R> {
    /// A source of what the reader gives, with no fault yet.
    pub fn new(inner: R) -> Self
        ensures left { ⟦<StdSource<R> as Source>⟧.left result ≡ R.remaining inner }
        ensures faults { ⟦<StdSource<R> as Source>⟧.faults result ≡ 0 }
        ensures inner { result.inner ≡ inner }
    {
        StdSource {
            inner,
            faults: 0,
            refusal: None,
        }
    }

    /// Why the reader last failed, for people to read. It may be absent after `Failed` only where a
    /// read was broken off 2^64 times.
    pub fn last_refusal(&self) -> Option<io::Error>
        ensures { result ≡ self.now.refusal }
    {
        self.refusal
    }
}

impl<R: Read + Drop> Source for StdSource<R> {
    ghost left = { λ s. R.remaining s.inner };

    ghost faults = { λ s. s.faults };

    fn read(&mut self, room: &mut [u8]) -> Result<usize, Failed> {
        // A read that a signal has broken off is made again, as std does.
        for _ in 0..u64::MAX {
            match self.inner.read(room) {
                Ok(count) => return Ok(count),
                Err(e) if e.kind() == ErrorKind::Interrupted => {}
                Err(e) => {
                    self.refusal = Some(e);
                    break;
                }
            }
        }
        self.faults = self.faults.saturating_add(1);
        Err(Failed)
    }
}
