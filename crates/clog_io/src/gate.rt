//! A gate is told where each writer is. It may hold a thread up, and changes nothing else.
ghost use Rattle.std.specs.Prelude.{◌≡◌};

use clog_base::Writer;

/// How far a writer is in the write that it has in hand.
#[derive(Clone, Copy, Debug, PartialEq, Eq)]
pub enum Point {
    /// The writer has taken the write up; it has no place in the write order yet.
    Started,
    /// Its range of the log is claimed.
    Claimed,
    /// Its entry lies in the writer's box.
    Deposited,
    /// A memtable has accepted the write: told each time, once for each of its tables.
    Accepted,
    /// It counts in the write order no more.
    Finished,
    /// The call that made it returns.
    Returned,
}

/// What is told where the writers are. No clause sees what it does.
pub trait Gate {
    /// The writer has come to this point.
    fn reached(&self, writer: Writer, point: Point);
}

/// A gate that lets every writer pass at once.
#[derive(Clone, Copy, Debug)]
pub struct OpenGate;

impl OpenGate {
    /// The open gate, which is but one.
    pub fn new() -> OpenGate
        ensures { (gate : OpenGate) → result ≡ gate }
    {
        OpenGate
    }
}

impl Gate for OpenGate {
    fn reached(&self, _writer: Writer, _point: Point) {}
}
