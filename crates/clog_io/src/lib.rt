//! The outside as the commit log sees it: a source of bytes, a sink, a clock and a gate, each with
//! what an object of the system and one in memory do. A call that fails has counted it.
#![tactic(auto)]

mod calls;
mod clock;
mod gate;
mod hold_gate;
mod memory_sink;
mod memory_source;
mod reading;
mod sink;
mod source;

pub use calls::FailingCalls;
pub use clock::{Clock, FixedClock, ListClock, SystemClock};
pub use gate::{Gate, OpenGate, Point};
pub use hold_gate::HoldGate;
pub use memory_sink::MemSink;
pub use memory_source::MemSource;
pub use reading::{ReadAllFault, read_all};
pub use sink::{Sink, StdSink};
pub use source::{Source, StdSource};
