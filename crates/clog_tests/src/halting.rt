//! The first fault of a writer ends the run: another one logs no line behind that in hand.
use clog_base::Writer;
use clog_disk::MemDisk;
use clog_engine::run;
use clog_io::{Gate, HoldGate, ListClock, MemSink, MemSource, Point};
use std::alloc::{AllocError, Global};
use std::rt;
use std::sync::atomic::{AtomicU64, Ordering};
use std::test::Fail;
use std::thread::sleep;
use std::time::Duration;

const LINE: &[u8] =
    b"{\"key\":\"ab\",\"updates\":[{\"table\":0,\"column\":\"cd\",\"ts\":5,\"value\":null}]}\n";

/// A `HoldGate` that counts what writer 0 deposits, and holds it some seconds longer each time.
/// Meanwhile writer 1, whose commit has returned, is refused the sync behind it.
#[derive(Drop)]
struct CountingGate<R: rt::Clock + Drop> {
    rt: R,
    hold: HoldGate,
    deposits: AtomicU64,
}

impl<R: rt::Clock + Drop> CountingGate<R> {
    fn new(rt: R) -> Self {
        CountingGate {
            rt,
            hold: HoldGate::new(),
            deposits: AtomicU64::new(0),
        }
    }
}

impl<R: rt::Clock + Drop> Gate for CountingGate<R> {
    fn reached(&self, writer: Writer, point: Point) {
        self.hold.reached(writer, point);
        if writer.0 == 0 && point == Point::Deposited {
            self.deposits.fetch_add(1, Ordering::SeqCst);
            sleep(&self.rt, Duration::from_secs(3));
        }
    }
}

// Twenty lines, of which each of two writers has ten.
fn twenty_lines(alloc: Global) -> Result<Vec<u8>, AllocError> {
    let mut lines = Vec::new(alloc);
    for _ in 0..20 {
        lines.extend_from_slice(LINE)?;
    }
    Ok(lines)
}

fn words(alloc: Global) -> Result<Vec<String>, AllocError> {
    let mut words = Vec::new(alloc);
    for word in ["apply", "--writers", "2"] {
        words.push(String::from_str(alloc, word)?)?;
    }
    Ok(words)
}

// The fourth call of the disk is the sync of writer 1 behind its first line: to that writer alone
// the clock tells that the period has passed.
#[test]
fn a_writer_stops_behind_its_line_in_hand(rt: HostRuntime) -> Result<(), Fail> {
    let words = words(rt.alloc())?;
    let mut source = MemSource::new(twenty_lines(rt.alloc())?, 7, Vec::new(rt.alloc()));
    let mut sink = MemSink::new(rt.alloc(), Vec::new(rt.alloc()));
    let disk = MemDisk::failing(rt.alloc(), [4].to_vec(rt.alloc())?);
    let clock = ListClock::new([1000, 20_000, 1000].to_vec(rt.alloc())?);
    let gate = CountingGate::new(rt.clone()?);
    let (status, _disk) = run(
        &rt,
        rt.alloc(),
        &words,
        &mut source,
        &mut sink,
        disk,
        &clock,
        &gate,
    );
    assert_eq!(rt; status.number(), 6);
    assert!(rt; gate.hold.met());
    assert_eq!(rt; gate.deposits.load(Ordering::SeqCst), 1);
    Ok(())
}
