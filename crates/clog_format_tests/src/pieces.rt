//! The segment of 60 bytes with one entry, fed to a scanner byte by byte.
use crate::segments::FILE;
use clog_scan::{End, Scanner};
use std::test::*;

#[test]
fn an_entry_comes_with_its_last_byte(rt: HostRuntime) -> Result<(), Fail> {
    let mut scanner = Scanner::new(rt.alloc(), 1000, 60);
    for at in 0..59 {
        let wholes = scanner.feed(&FILE[at..at + 1])?;
        assert_eq!(rt; (wholes.len(), scanner.end()), (0, None), "byte {at}");
    }
    let wholes = scanner.feed(&FILE[59..])?;
    let places: Option<(u32, u32, usize)> = match wholes.as_slice() {
        [whole] => Some((whole.start, whole.end, whole.payload.len())),
        _ => None,
    };
    assert_eq!(rt;
        (places, scanner.end()),
        (Some((28, 60, 20)), Some(End::Clean(60)))
    );
    Ok(())
}
