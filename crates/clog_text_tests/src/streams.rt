//! What no clause says: the system's objects, which calls fail, and that calls succeed.
use super::same::same_bytes;
use clog_base::{Failed, Writer};
use clog_io::{
    Clock, FixedClock, Gate, ListClock, MemSink, MemSource, OpenGate, Point, ReadAllFault, Sink,
    Source, StdSink, StdSource, SystemClock, read_all,
};
use std::alloc::Global;
use std::io::{ErrorKind, Read, Result as IoResult, Write};
use std::process::Abort;
use std::test::Fail;

/// A writer that takes nothing, as a device that is full.
#[derive(Drop)]
struct FullDevice;

impl Write for FullDevice {
    fn write(&mut self, _buf: &[u8]) -> IoResult<usize> {
        Ok(0)
    }

    fn flush(&mut self) -> IoResult<()> {
        Ok(())
    }
}

/// A writer that counts how often it is flushed, and refuses the flush of this number, from 1.
#[derive(Drop)]
struct FlushCounter {
    flushes: u32,
    refused: u32,
}

impl Write for FlushCounter {
    fn write(&mut self, buf: &[u8]) -> IoResult<usize> {
        Ok(buf.len())
    }

    fn flush(&mut self) -> IoResult<()> {
        self.flushes = self.flushes.saturating_add(1);
        if self.flushes == self.refused {
            return Err(ErrorKind::StorageFull.into());
        }
        Ok(())
    }
}

/// A reader that always fails for the same cause.
#[derive(Drop)]
struct BrokenDevice(ErrorKind);

impl Read for BrokenDevice {
    fn read(&mut self, _buf: &mut [u8]) -> IoResult<usize> {
        Err(self.0.into())
    }
}

/// A device for so many bytes, which a signal breaks off once before each.
#[derive(Drop)]
struct SlowDevice {
    left: u8,
    breaks: bool,
}

impl Read for SlowDevice {
    fn read(&mut self, buf: &mut [u8]) -> IoResult<usize> {
        self.breaks = !self.breaks;
        if self.breaks {
            return Err(ErrorKind::Interrupted.into());
        }
        if self.left == 0 || buf.is_empty() {
            return Ok(0);
        }
        self.left -= 1;
        buf[0] = self.left;
        Ok(1)
    }
}

impl Write for SlowDevice {
    fn write(&mut self, buf: &[u8]) -> IoResult<usize> {
        self.breaks = !self.breaks;
        if self.breaks {
            return Err(ErrorKind::Interrupted.into());
        }
        if self.left == 0 || buf.is_empty() {
            return Ok(0);
        }
        self.left -= 1;
        Ok(1)
    }

    fn flush(&mut self) -> IoResult<()> {
        Ok(())
    }
}

fn is_taken(rt: &impl Abort, answer: Result<(), Failed>) {
    assert_eq!(rt; answer, Ok(()));
}

fn has_failed(rt: &impl Abort, answer: Result<(), Failed>) {
    assert_eq!(rt; answer, Err(Failed));
}

fn was_refused_by(rt: &impl Abort, said: Option<ErrorKind>, wanted: ErrorKind) {
    assert_eq!(rt; said, Some(wanted));
}

fn is_shared<T: Sync>(_object: &T) -> bool {
    true
}

#[test]
fn a_source_in_memory_gives_pieces_and_fails_where_told(rt: HostRuntime) -> Result<(), Fail> {
    let alloc = rt.alloc();
    let mut source = MemSource::new(b"hello".to_vec(alloc)?, 2, [2, 5].to_vec(alloc)?);
    let mut room = [0u8; 4];
    let wanted = [Ok(2), Err(Failed), Ok(2), Ok(1), Err(Failed), Ok(0), Ok(0)];
    for (call, want) in wanted.iter().enumerate() {
        assert_eq!(rt; source.read(&mut room), *want, "at {call}");
    }
    same_bytes(&rt, room.as_slice(), b"ol\0\0");
    Ok(())
}

// Whether so many bytes are read whole, or refused by the limit.
fn is_read(
    rt: &impl Abort,
    alloc: Global,
    count: usize,
    limit: u64,
    whole: bool,
) -> Result<(), Fail> {
    let bytes = vec![in alloc; 7u8; count]?;
    let mut source = MemSource::new(bytes.to_vec(alloc)?, 4, Vec::new(alloc));
    match read_all(alloc, &mut source, limit) {
        Ok(read) => {
            assert!(rt; whole);
            same_bytes(rt, read.as_slice(), bytes.as_slice());
        }
        Err(fault) => {
            assert!(rt; !whole);
            assert_eq!(rt; fault, ReadAllFault::Limit);
        }
    }
    Ok(())
}

#[test]
fn all_is_read_up_to_the_limit_and_no_byte_more(rt: HostRuntime) -> Result<(), Fail> {
    for (count, limit, whole) in [(0, 0, true), (1, 0, false), (9, 9, true), (10, 9, false)] {
        is_read(&rt, rt.alloc(), count, limit, whole)?;
    }
    Ok(())
}

#[test]
fn a_fault_in_mid_stream_ends_the_reading(rt: HostRuntime) -> Result<(), Fail> {
    let alloc = rt.alloc();
    let mut source = MemSource::new(b"hello".to_vec(alloc)?, 2, [2].to_vec(alloc)?);
    assert!(rt; matches!(read_all(alloc, &mut source, 9), Err(ReadAllFault::Failed)));
    let rest = read_all(alloc, &mut source, 9)?;
    same_bytes(&rt, rest.as_slice(), b"llo");
    Ok(())
}

#[test]
fn a_reader_of_std_is_read_to_its_end(rt: HostRuntime) -> Result<(), Fail> {
    let bytes: &[u8] = b"a line\n";
    let mut source = StdSource::new(bytes);
    let read = read_all(rt.alloc(), &mut source, 7)?;
    same_bytes(&rt, read.as_slice(), bytes);
    Ok(())
}

#[test]
fn a_read_that_was_broken_off_is_made_again_and_a_short_one_is_not_the_end(
    rt: HostRuntime,
) -> Result<(), Fail> {
    let mut source = StdSource::new(SlowDevice {
        left: 3,
        breaks: false,
    });
    let read = read_all(rt.alloc(), &mut source, 9)?;
    same_bytes(&rt, read.as_slice(), &[2, 1, 0]);
    assert!(rt; source.last_refusal().is_none());
    Ok(())
}

#[test]
fn a_reader_of_std_that_fails_is_a_fault_of_the_source(rt: HostRuntime) -> Result<(), Fail> {
    let mut source = StdSource::new(BrokenDevice(ErrorKind::PermissionDenied));
    let mut room = [0u8; 4];
    assert!(rt; source.last_refusal().is_none());
    assert_eq!(rt; source.read(&mut room), Err(Failed));
    let said = source.last_refusal().map(|e| e.kind());
    was_refused_by(&rt, said, ErrorKind::PermissionDenied);
    assert!(rt;
        matches!(
            read_all(rt.alloc(), &mut source, 9),
            Err(ReadAllFault::Failed)
        )
    );
    Ok(())
}

#[test]
fn a_sink_in_memory_holds_what_calls_that_did_not_fail_wrote(rt: HostRuntime) -> Result<(), Fail> {
    let alloc = rt.alloc();
    let mut sink = MemSink::new(alloc, [2].to_vec(alloc)?);
    is_taken(&rt, sink.write_all(b"one "));
    has_failed(&rt, sink.write_all(b"two "));
    is_taken(&rt, sink.write_all(b"three"));
    same_bytes(&rt, sink.as_slice(), b"one three");
    assert_eq!(rt; sink.fault_count(), 1);
    same_bytes(&rt, sink.into_bytes().as_slice(), b"one three");
    Ok(())
}

#[test]
fn a_writer_of_std_takes_all_or_has_failed(rt: HostRuntime) -> Result<(), Fail> {
    let mut sink = StdSink::new(Vec::<u8>::new(rt.alloc()));
    is_taken(&rt, sink.write_all(b"applied 1\n"));
    same_bytes(&rt, sink.into_inner().as_slice(), b"applied 1\n");
    let mut full = StdSink::new(FullDevice);
    is_taken(&rt, full.write_all(b""));
    has_failed(&rt, full.write_all(b"a"));
    let said = full.last_refusal().map(|e| e.kind());
    was_refused_by(&rt, said, ErrorKind::WriteZero);
    Ok(())
}

#[test]
fn a_write_that_was_broken_off_is_made_again_and_a_short_one_goes_on(rt: HostRuntime) {
    let mut sink = StdSink::new(SlowDevice {
        left: 3,
        breaks: false,
    });
    is_taken(&rt, sink.write_all(b"abc"));
    has_failed(&rt, sink.write_all(b"d"));
    assert_eq!(rt; sink.into_inner().left, 0);
}

#[test]
fn each_call_flushes_the_writer_once_and_a_refused_flush_is_a_fault(rt: HostRuntime) {
    let mut sink = StdSink::new(FlushCounter {
        flushes: 0,
        refused: 2,
    });
    is_taken(&rt, sink.write_all(b"applied 1\n"));
    has_failed(&rt, sink.write_all(b"applied 2\n"));
    let said = sink.last_refusal().map(|e| e.kind());
    was_refused_by(&rt, said, ErrorKind::StorageFull);
    assert_eq!(rt; sink.into_inner().flushes, 2);
}

#[test]
fn clocks_tell_what_they_were_made_with(rt: HostRuntime) -> Result<(), Fail> {
    let answers = [1000, 1005, 990].to_vec(rt.alloc())?;
    let clock = ListClock::new(answers);
    for want in [1000, 1005, 990, 990, 990] {
        assert_eq!(rt; clock.now_ms(), want);
    }
    assert_eq!(rt; FixedClock::new(1000).now_ms(), 1000);
    Ok(())
}

#[test]
fn the_system_tells_a_time_of_this_century(rt: HostRuntime) -> Result<(), Fail> {
    let clock = SystemClock::new(rt.clone()?);
    let start_of_2020 = 1_577_836_800_000;
    assert!(rt; is_shared(&clock));
    assert!(rt; start_of_2020 < clock.now_ms());
    Ok(())
}

#[test]
fn the_open_gate_lets_pass(rt: HostRuntime) {
    let gate = OpenGate::new();
    gate.reached(Writer(0), Point::Started);
    assert!(rt; is_shared(&gate));
}
