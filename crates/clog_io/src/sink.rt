//! Where bytes go.
ghost use Rattle.std.specs.Prelude.{◌≡◌, ℕ, List, Option, OnOk, OnErr};
ghost use Rattle.std.specs.Io.KnownBytes.{Appends};
ghost use Rattle.clog_io.specs.Causes.{HasCause};
ghost use Rattle.clog_io.specs.Bytes.{AppendsPrefix};

use clog_base::Failed;
use std::io;
use std::io::{ErrorKind, Write};

/// What takes bytes.
pub trait Sink {
    /// The bytes that it holds, where it tells them.
    ghost held: { Self → Option (List ℕ) };

    /// How often it has failed.
    ghost faults: { Self → ℕ };

    /// Appends the bytes; after `Failed` a prefix of them was appended.
    fn write_all(&mut self, bytes: &[u8]) -> Result<(), Failed>
        ensures ok { OnOk result (Appends (held self.old) (held self.new) bytes.now) }
        ensures err { OnErr result (AppendsPrefix (held self.old) (held self.new) bytes.now) }
        ensures cause { HasCause (faults self.old) (faults self.new) result };
}

/// A writer of std, as standard output. Each call hands all its bytes on and flushes the writer
/// once. A writer that takes nothing of a piece that is not empty has failed. It tells the bytes
/// held where the writer does.
#[derive(Drop)]
pub struct StdSink<W: Write + Drop> {
    inner: W,
    faults: u64,
    /// Why the writer last failed, as the system says it. No clause speaks of it.
    refusal: Option<io::Error>,
}

// Hands the bytes on, and flushes once. A write that a signal has broken off is made again, as std
// does.
fn write_out<W: Write>(writer: &mut W, bytes: &[u8]) -> io::Result<()>
    ensures ok { OnOk result (Appends (W.contents writer.old) (W.contents writer.new) bytes.now) }
    ensures err { OnErr result
        (AppendsPrefix (W.contents writer.old) (W.contents writer.new) bytes.now) }
{
    let mut at = 0;
    for _ in 0..u64::MAX {
        if at >= bytes.len() {
            return writer.flush();
        }
        match writer.write(&bytes[at..]) {
            Ok(0) => return Err(ErrorKind::WriteZero.into()),
            Ok(count) => at += count,
            Err(e) if e.kind() == ErrorKind::Interrupted => {}
            Err(e) => return Err(e),
        }
    }
    Err(ErrorKind::Interrupted.into())
}

impl<W: Write + Drop> StdSink<W> {
    /// A sink into the writer, with no fault yet.
    pub fn new(inner: W) -> Self
        ensures held { ⟦<StdSink<W> as Sink>⟧.held result ≡ W.contents inner }
        ensures faults { ⟦<StdSink<W> as Sink>⟧.faults result ≡ 0 }
        ensures inner { result.inner ≡ inner }
    {
        StdSink {
            inner,
            faults: 0,
            refusal: None,
        }
    }

    /// Why the writer last failed, for people to read.
    pub fn last_refusal(&self) -> Option<io::Error>
        ensures { result ≡ self.now.refusal }
    {
        self.refusal
    }

    /// The writer, with all that was handed on.
    pub fn into_inner(self) -> W
        ensures { result ≡ self.inner }
    {
        self.inner
    }
}

impl<W: Write + Drop> Sink for StdSink<W> {
    ghost held = { λ s. W.contents s.inner };

    ghost faults = { λ s. s.faults };

    fn write_all(&mut self, bytes: &[u8]) -> Result<(), Failed> {
        match write_out(&mut self.inner, bytes) {
            Ok(()) => Ok(()),
            Err(e) => {
                self.refusal = Some(e);
                self.faults = self.faults.saturating_add(1);
                Err(Failed)
            }
        }
    }
}
