//! Payloads byte for byte, and each refusal once.
use super::same::{same_bytes, same_text};
use clog_base::{Kind, PayloadFault, Table};
use clog_mutation::{Update, check, decode, encode, lend, payload_size};
use std::alloc::Global;
use std::process::Abort;
use std::test::Fail;

/// Key `ab`, one update: table 0, column `cd`, timestamp 5, a deletion.
const DELETION: &[u8] = b"\x00\x02ab\x00\x01\x00\x00\x02cd\x00\x00\x00\x00\x00\x00\x00\x05\x00";

/// Key `ä`, one update: table 15, column `c`, timestamp -2, the value `€`.
const LIVE: &[u8] = b"\x00\x02\xc3\xa4\x00\x01\x0f\x00\x01c\xff\xff\xff\xff\xff\xff\xff\xfe\
\x01\x00\x00\x00\x03\xe2\x82\xac";

fn is_the_deletion(rt: &impl Abort, update: &Update) {
    assert!(rt; update.table == Table(0));
    same_text(rt, update.column.as_str(), "cd");
    assert_eq!(rt; update.cell.ts, 5);
    assert!(rt; update.cell.kind == Kind::Deletion);
}

fn is_the_live_cell(rt: &impl Abort, update: &Update) {
    assert!(rt; update.table == Table(15));
    assert_eq!(rt; update.cell.ts, -2);
    same_text(rt, update.cell.value.as_str(), "€");
}

#[test]
fn the_fields_of_a_payload_are_read(rt: HostRuntime) -> Result<(), Fail> {
    let deletion = decode(rt.alloc(), DELETION)?;
    same_text(&rt, deletion.key.as_str(), "ab");
    assert_eq!(rt; deletion.updates.len(), 1);
    for update in deletion.updates.as_slice() {
        is_the_deletion(&rt, update);
    }
    let live = decode(rt.alloc(), LIVE)?;
    same_text(&rt, live.key.as_str(), "ä");
    assert_eq!(rt; live.updates.len(), 1);
    for update in live.updates.as_slice() {
        is_the_live_cell(&rt, update);
    }
    Ok(())
}

#[test]
fn the_fields_of_a_payload_are_lent(rt: HostRuntime) -> Result<(), Fail> {
    let live = lend(rt.alloc(), LIVE)?;
    same_text(&rt, live.key, "ä");
    assert_eq!(rt; live.more.len(), 0);
    assert!(rt; live.first.table == Table(15));
    same_text(&rt, live.first.column, "c");
    assert_eq!(rt; live.first.ts, -2);
    same_text(&rt, live.first.value, "€");
    Ok(())
}

fn is_written(rt: &impl Abort, alloc: Global, bytes: &[u8]) -> Result<(), Fail> {
    let mutation = decode(alloc, bytes)?;
    let size = payload_size(&mutation);
    assert_eq!(rt; size, bytes.len() as u128);
    assert!(rt; size <= 1_073_741_824);
    let written = encode(alloc, &mutation)?;
    same_bytes(rt, written.as_slice(), bytes);
    Ok(())
}

#[test]
fn a_payload_is_written_byte_for_byte(rt: HostRuntime) -> Result<(), Fail> {
    for bytes in [DELETION, LIVE] {
        assert_eq!(rt; check(bytes), Ok(()));
        is_written(&rt, rt.alloc(), bytes)?;
    }
    Ok(())
}

// As Ok or its fault.
fn decoded(alloc: Global, bytes: &[u8]) -> Result<(), PayloadFault> {
    decode(alloc, bytes)?;
    Ok(())
}

const REFUSED: [(&[u8], PayloadFault); 20] = [
    (b"", PayloadFault::Short(0)),
    (b"\x00\x00", PayloadFault::NameLength(0)),
    (b"\x01\x00", PayloadFault::NameLength(0)),
    (b"\x00\x02a", PayloadFault::Short(2)),
    (b"\x00\x02\xc3\x28\x00\x01", PayloadFault::NotUtf8(2)),
    (b"\x00\x03\xc3\x28", PayloadFault::Short(2)),
    (b"\x00\x02ab\x00", PayloadFault::Short(4)),
    (b"\x00\x02ab\x00\x00", PayloadFault::Count),
    (b"\x00\x02ab\x00\x01", PayloadFault::Short(6)),
    (b"\x00\x02ab\x00\x01\x10", PayloadFault::BadTable(6)),
    (
        b"\x00\x02ab\x00\x01\x00\x00\x00",
        PayloadFault::NameLength(7),
    ),
    (
        b"\x00\x02ab\x00\x01\x00\x00\x01\xff",
        PayloadFault::NotUtf8(9),
    ),
    (
        b"\x00\x02ab\x00\x01\x00\x00\x02cd\x00",
        PayloadFault::Short(11),
    ),
    (
        b"\x00\x02ab\x00\x01\x00\x00\x02cd\x00\x00\x00\x00\x00\x00\x00\x05",
        PayloadFault::Short(19),
    ),
    (
        b"\x00\x02ab\x00\x01\x00\x00\x02cd\x00\x00\x00\x00\x00\x00\x00\x05\x02",
        PayloadFault::BadTag(19),
    ),
    (
        b"\x00\x02ab\x00\x01\x00\x00\x02cd\x00\x00\x00\x00\x00\x00\x00\x05\x01\x00\x00\x00",
        PayloadFault::Short(20),
    ),
    (
        b"\x00\x02ab\x00\x01\x00\x00\x02cd\x00\x00\x00\x00\x00\x00\x00\x05\x01\
\x00\x00\x00\x02\xff",
        PayloadFault::Short(24),
    ),
    (
        b"\x00\x02ab\x00\x01\x00\x00\x02cd\x00\x00\x00\x00\x00\x00\x00\x05\x01\
\x00\x00\x00\x01\xff",
        PayloadFault::NotUtf8(24),
    ),
    (
        b"\x00\x02ab\x00\x02\x00\x00\x02cd\x00\x00\x00\x00\x00\x00\x00\x05\x00",
        PayloadFault::Short(20),
    ),
    (
        b"\x00\x02ab\x00\x01\x00\x00\x02cd\x00\x00\x00\x00\x00\x00\x00\x05\x00\x00",
        PayloadFault::Trailing(20),
    ),
];

#[test]
fn each_refusal_comes_at_its_field(rt: HostRuntime) -> Result<(), Fail> {
    for (bytes, fault) in &REFUSED {
        assert_eq!(rt; check(bytes), Err(*fault));
        assert_eq!(rt; decoded(rt.alloc(), bytes), Err(*fault));
    }
    Ok(())
}
