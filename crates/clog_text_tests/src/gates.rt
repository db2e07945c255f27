//! That the gate in memory holds and lets go as it says; no clause can.
use clog_base::Writer;
use clog_io::{Gate, HoldGate, Point};
use std::test::Fail;

#[test]
fn two_writers_have_met_when_each_has_waited_for_the_other(rt: HostRuntime) -> Result<(), Fail> {
    let gate = HoldGate::new();
    assert!(rt; !gate.met());
    // Writer 1 is through before writer 0 waits for it, so that one thread can play both.
    gate.reached(Writer(1), Point::Returned);
    gate.reached(Writer(0), Point::Claimed);
    assert!(rt; !gate.met());
    gate.reached(Writer(0), Point::Deposited);
    assert!(rt; !gate.met());
    gate.reached(Writer(2), Point::Started);
    assert!(rt; !gate.met());
    gate.reached(Writer(1), Point::Started);
    assert!(rt; gate.met());
    Ok(())
}

#[test]
fn a_writer_that_waits_for_nobody_goes_on(rt: HostRuntime) -> Result<(), Fail> {
    let gate = HoldGate::new();
    gate.reached(Writer(1), Point::Started);
    gate.reached(Writer(1), Point::Returned);
    gate.reached(Writer(0), Point::Deposited);
    assert!(rt; !gate.met());
    Ok(())
}
