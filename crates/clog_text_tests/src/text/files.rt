//! Whole files.
use super::{GOOD, with_updates};
use clog_text::{BadLine, Part, SplitFault, read_lines, read_lines_in_parts, split_file};
use std::alloc::{AllocError, Global};
use std::test::Fail;

#[test]
fn a_file_is_split_at_each_newline(rt: HostRuntime) -> Result<(), Fail> {
    for (bytes, want) in [
        (&b""[..], &[][..]),
        (b"\n", &[(0, 0)]),
        (b"a", &[(0, 1)]),
        (b"a\n", &[(0, 1)]),
        (b"\n\na", &[(0, 0), (1, 1), (2, 3)]),
        (b"ab\n\r\n\nc\n", &[(0, 2), (3, 4), (5, 5), (6, 7)]),
    ] {
        let lines = split_file(rt.alloc(), bytes)?;
        assert_eq!(rt; lines.as_slice(), want, "{bytes:?}");
    }
    Ok(())
}

#[test]
fn a_file_has_at_most_a_million_lines(rt: HostRuntime) -> Result<(), Fail> {
    let mut newlines = Vec::new(rt.alloc());
    newlines.resize(1_000_000, b'\n')?;
    assert_eq!(rt; split_file(rt.alloc(), &newlines)?.len(), 1_000_000);
    newlines.push(b'\n')?;
    assert!(rt; matches!(split_file(rt.alloc(), &newlines), Err(SplitFault::Limit)));
    let fault = format!(in rt.alloc(); "{}", SplitFault::Limit)?;
    assert_eq!(rt; fault.as_str(), "more than 1000000 lines");
    Ok(())
}

#[test]
fn the_first_bad_line_is_named(rt: HostRuntime) -> Result<(), Fail> {
    let good = with_updates(rt.alloc(), GOOD)?;
    for (tail, want) in [
        ("", None),
        ("\n", Some((3, BadLine::NotJson))),
        ("[]\n{}", Some((3, BadLine::Field(Part::Line)))),
        (
            "{\"key\":\"k\",\"updates\":[]}",
            Some((3, BadLine::NoUpdates)),
        ),
    ] {
        let text = format!(in rt.alloc(); "{good}\n{good}\n{tail}")?;
        let lines = split_file(rt.alloc(), text.as_bytes())?;
        match read_lines(rt.alloc(), text.as_bytes(), &lines) {
            Ok(mutations) => {
                assert_eq!(rt; mutations.as_slice().len(), 2);
                assert!(rt; want.is_none());
            }
            Err(refused) => assert_eq!(rt; Some(refused), want),
        }
    }
    Ok(())
}

// 1,500 lines of 64 bytes and more, of which these are bad.
fn many_lines(alloc: Global, bad: &[usize]) -> Result<String, AllocError> {
    let good = with_updates(alloc, GOOD)?;
    let mut text = String::new(alloc);
    for number in 1..1_501 {
        text.push_str(if bad.contains(&number) {
            ""
        } else {
            good.as_str()
        })?;
        text.push('\n')?;
    }
    Ok(text)
}

#[test]
fn a_large_file_is_read_in_parts(rt: HostRuntime) -> Result<(), Fail> {
    for (bad, want) in [
        (&[][..], None),
        (&[1_400, 300][..], Some((300, BadLine::NotJson))),
    ] {
        let text = many_lines(rt.alloc(), bad)?;
        let lines = split_file(rt.alloc(), text.as_bytes())?;
        match read_lines_in_parts(&rt, rt.alloc(), text.as_bytes(), &lines) {
            Ok(mutations) => {
                assert_eq!(rt; mutations.as_slice().len(), 1_500);
                assert!(rt; want.is_none());
            }
            Err(refused) => assert_eq!(rt; Some(refused), want),
        }
    }
    Ok(())
}
