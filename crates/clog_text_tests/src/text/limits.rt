//! Lines at the limits, and one past them.
use super::{GOOD, refusal, with_updates};
use clog_text::{BadLine, Part};
use std::alloc::{AllocError, Global};
use std::test::Fail;

// A piece so many times, with these marks between.
fn repeated(alloc: Global, piece: &str, mark: &str, count: u32) -> Result<String, AllocError> {
    let mut text = String::new(alloc);
    for i in 0..count {
        if i > 0 {
            text.push_str(mark)?;
        }
        text.push_str(piece)?;
    }
    Ok(text)
}

#[test]
fn a_name_has_at_most_255_bytes(rt: HostRuntime) -> Result<(), Fail> {
    let long = repeated(rt.alloc(), "é", "", 127)?;
    for (last, key, column) in [
        ("a", None, None),
        (
            "é",
            Some(BadLine::Range(Part::Key)),
            Some(BadLine::Range(Part::Column)),
        ),
    ] {
        let line = format!(in rt.alloc(); "{{\"key\":\"{long}{last}\",\"updates\":[{GOOD}]}}")?;
        assert_eq!(rt; refusal(rt.alloc(), line.as_str()), key);
        let update = format!(in rt.alloc();
            "{{\"table\":0,\"column\":\"{long}{last}\",\"ts\":0,\"value\":null}}"
        )?;
        let line = with_updates(rt.alloc(), update.as_str())?;
        assert_eq!(rt; refusal(rt.alloc(), line.as_str()), column);
    }
    Ok(())
}

#[test]
fn a_line_has_at_most_65535_updates(rt: HostRuntime) -> Result<(), Fail> {
    for (update, count, want) in [
        (GOOD, 65535, None),
        ("0", 65535, Some(BadLine::Field(Part::Update))),
        ("0", 65536, Some(BadLine::Range(Part::Updates))),
    ] {
        let updates = repeated(rt.alloc(), update, ",", count)?;
        let line = with_updates(rt.alloc(), updates.as_str())?;
        assert_eq!(rt;
            refusal(rt.alloc(), line.as_str()),
            want,
            "{count} of {update}"
        );
    }
    Ok(())
}

#[test]
fn a_line_nests_at_most_127_deep(rt: HostRuntime) -> Result<(), Fail> {
    for (depth, want) in [(127, BadLine::Field(Part::Line)), (128, BadLine::NotJson)] {
        let mut line = repeated(rt.alloc(), "[", "", depth)?;
        let close = repeated(rt.alloc(), "]", "", depth)?;
        line.push_str(close.as_str())?;
        assert_eq!(rt; refusal(rt.alloc(), line.as_str()), Some(want), "{depth}");
    }
    Ok(())
}
