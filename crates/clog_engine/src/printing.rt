//! What a run prints: its report, or the line of a fault.
ghost use Rattle.std.specs.Prelude.{◌≡◌, ◌++◌, OnErr, OnOk};
ghost use Rattle.std.specs.Io.KnownBytes.{Appends};
ghost use Rattle.clog_io.specs.Bytes.{AppendsPrefix};
ghost use Rattle.clog_io.specs.Causes.{HasCause};
ghost use Rattle.clog_engine.specs.Answering.{Prints};
ghost use Rattle.clog_engine.specs.Outside.{sinks_of};

use crate::fault_line::FaultLine;
use crate::status::Status;
use clog_base::Failed;
use clog_io::Sink;
use std::alloc::Global;
use std::marker::Model;

/// What a run prints where it is well: a head, and the rows of a dump behind it, if any. They lie
/// apart, since rows are there before the head is, and no byte of them is moved again.
#[derive(Drop)]
pub(crate) struct Report {
    head: Vec<u8>,
    rows: Vec<u8>,
}

impl Model for Report {
    ghost use Rattle.std.specs.Prelude.{List, ℕ, ◌++◌};

    ghost Value = { List ℕ };

    ghost view = { λ r. r.head.items ++ r.rows.items };
}

impl Report {
    /// A report with rows behind its head.
    pub(crate) fn with_rows(head: Vec<u8>, rows: Vec<u8>) -> Report
        ensures { result ≡ head.items ++ rows.items }
    {
        Report { head, rows }
    }

    /// A report of one part. It takes no memory.
    pub(crate) fn whole(alloc: Global, text: Vec<u8>) -> Report
        ensures { result ≡ text.items }
    {
        Report {
            head: text,
            rows: Vec::new(alloc),
        }
    }
}

// Hands a report on: its head, and behind it its rows where there are some.
fn hand_on<K: Sink>(sink: &mut K, report: &Report) -> Result<(), Failed>
    ensures ok { OnOk result (Appends (K.held sink.old) (K.held sink.new) report.now) }
    ensures err { OnErr result (AppendsPrefix (K.held sink.old) (K.held sink.new) report.now) }
    ensures cause { HasCause (K.faults sink.old) (K.faults sink.new) result }
{
    sink.write_all(report.head.as_slice())?;
    if report.rows.is_empty() {
        return Ok(());
    }
    sink.write_all(report.rows.as_slice())
}

/// Prints a report, or the line of a refusal if the sink takes it.
pub(crate) fn print<K: Sink>(sink: &mut K, outcome: Result<Report, Status>) -> Status
    ensures { Prints outcome result (sinks_of K.Sink sink.old sink.new) }
{
    match outcome {
        Ok(report) => match hand_on(sink, &report) {
            Ok(()) => Status::Ok,
            Err(_) => Status::WriteFault,
        },
        Err(refusal) => {
            let line = FaultLine::new(&refusal);
            let _ = sink.write_all(line.as_bytes());
            refusal
        }
    }
}
