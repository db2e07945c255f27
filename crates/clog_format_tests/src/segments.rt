//! The damage of a segment of 60 bytes with one entry. Each expected end was worked out by the
//! rules of the format, and the checks by Python's zlib.
use clog_scan::{Cause, End, Found, scan};
use std::alloc::Global;
use std::process::Abort;
use std::test::*;

// Segment 1000: header, marker at 20 with target 60, entry from 28 to 60 with a payload of 20
// bytes.
pub(crate) const FILE: [u8; 60] = [
    0x00, 0x00, 0x00, 0x06, 0x00, 0x00, 0x00, 0x00, 0x00, 0x00, 0x03, 0xe8, 0x00, 0x02, 0x7b, 0x7d,
    0x4e, 0x72, 0xf2, 0x7f, 0x00, 0x00, 0x00, 0x3c, 0x0b, 0xd6, 0x8a, 0xe2, 0x00, 0x00, 0x00, 0x14,
    0x3b, 0x9e, 0x0b, 0x61, 0x00, 0x02, 0x61, 0x62, 0x00, 0x01, 0x00, 0x00, 0x02, 0x63, 0x64, 0x00,
    0x00, 0x00, 0x00, 0x00, 0x00, 0x00, 0x05, 0x00, 0x18, 0xa5, 0x86, 0xff,
];

const ENTRY: Found = Found { start: 28, end: 60 };

// How a file ends, and how many entries stand in front of that.
fn scanned(alloc: Global, bytes: &[u8], id: u64) -> Result<(End, usize), Fail> {
    if bytes.len() > 100 {
        return Err("too long")?;
    }
    let found = scan(alloc, bytes, id)?;
    Ok((found.end, found.entries.len()))
}

fn end_of_a_cut(len: usize) -> End {
    match len {
        0..=19 => End::Torn(0, Cause::Short),
        20..=27 => End::Clean(20),
        28..=59 => End::Torn(20, Cause::MarkerTarget(60)),
        _ => End::Clean(60),
    }
}

#[test]
fn a_file_cut_anywhere_ends_where_the_rules_say(rt: HostRuntime) -> Result<(), Fail> {
    for len in 0..61 {
        let wanted = (end_of_a_cut(len), usize::from(len == 60));
        assert_eq!(rt;
            scanned(rt.alloc(), &FILE[..len], 1000)?,
            wanted,
            "cut to {len}"
        );
    }
    Ok(())
}

// Where the file ends with the byte at an offset changed by a mask.
fn end_of_a_change(offset: usize, mask: u8) -> End {
    match (offset, mask) {
        (12, _) | (13, 0xff) => End::Torn(0, Cause::Short),
        (0..=19, _) => End::Torn(0, Cause::HeaderCheck),
        (20, _) => End::Torn(
            20,
            Cause::MarkerTarget(u32::from_be_bytes([mask, 0, 0, 60])),
        ),
        (21, _) => End::Torn(
            20,
            Cause::MarkerTarget(u32::from_be_bytes([0, mask, 0, 60])),
        ),
        (22, _) => End::Torn(
            20,
            Cause::MarkerTarget(u32::from_be_bytes([0, 0, mask, 60])),
        ),
        (23, _) => End::Torn(20, Cause::MarkerTarget(u32::from(mask ^ 60))),
        (24..=27, _) => End::Torn(20, Cause::MarkerCheck),
        (28..=35, _) => End::Torn(28, Cause::SizeCheck),
        _ => End::Torn(28, Cause::BodyCheck),
    }
}

#[test]
fn each_changed_byte_is_seen(rt: HostRuntime) -> Result<(), Fail> {
    for offset in 0..60 {
        for mask in [1, 0xff] {
            let mut file = FILE;
            file[offset] ^= mask;
            let wanted = (end_of_a_change(offset, mask), 0);
            assert_eq!(rt;
                scanned(rt.alloc(), &file, 1000)?,
                wanted,
                "{offset} by {mask}"
            );
        }
    }
    Ok(())
}

fn with_target(target: u8) -> [u8; 60] {
    let mut file = FILE;
    file[23] = target;
    file
}

// The marker's check does not cover its target.
const TARGETS: [(u8, End); 8] = [
    (0, End::Torn(20, Cause::MarkerTarget(0))),
    (27, End::Torn(20, Cause::MarkerTarget(27))),
    (28, End::Torn(28, Cause::MarkerCheck)),
    (30, End::Torn(28, Cause::Short)),
    (35, End::Torn(28, Cause::Short)),
    (36, End::Torn(28, Cause::PastSection)),
    (59, End::Torn(28, Cause::PastSection)),
    (61, End::Torn(20, Cause::MarkerTarget(61))),
];

#[test]
fn targets_and_sizes_are_read_by_the_first_rule(rt: HostRuntime) -> Result<(), Fail> {
    for (target, end) in &TARGETS {
        let file = with_target(*target);
        assert_eq!(rt;
            scanned(rt.alloc(), &file, 1000)?,
            (*end, 0),
            "target {target}"
        );
    }
    let mut nine = FILE;
    nine[28..36].copy_from_slice(b"\0\0\0\x09\x58\x98\x67\xb8");
    let (end, _) = scanned(rt.alloc(), &nine, 1000)?;
    assert_eq!(rt; end, End::Torn(28, Cause::SizeUnder10));
    Ok(())
}

const BOTH: [Found; 2] = [
    ENTRY,
    Found {
        start: 68,
        end: 100,
    },
];

// The marker at 60 of a section that ends at 100, and its entry.
const SECOND: &[u8] = b"\0\0\0\x64\x3e\x63\x22\x18\
\0\0\0\x14\x3b\x9e\x0b\x61\0\x02ab\0\x01\0\0\x02cd\0\0\0\0\0\0\0\x05\0\x18\xa5\x86\xff";

// The same, with a byte of the entry's size changed.
const TORN: &[u8] = b"\0\0\0\x64\x3e\x63\x22\x18\
\0\0\x01\x14\x3b\x9e\x0b\x61\0\x02ab\0\x01\0\0\x02cd\0\0\0\0\0\0\0\x05\0\x18\xa5\x86\xff";

// The marker at 60 of a section without entries.
const EMPTY: &[u8] = b"\0\0\0\x44\x3e\x63\x22\x18";

// The first marker's target, what stands behind the entry, whether another entry is there, and the
// end.
const BEHIND: [(u8, &[u8], bool, End); 7] = [
    (60, &[0; 40], false, End::Clean(60)),
    (60, &[0; 7], false, End::Clean(60)),
    (100, &[0; 40], false, End::Torn(60, Cause::SizeUnder10)),
    (60, SECOND, true, End::Clean(100)),
    (60, TORN, false, End::Torn(68, Cause::SizeCheck)),
    (60, EMPTY, false, End::Clean(68)),
    (60, b"", false, End::Clean(60)),
];

fn with_behind(alloc: Global, target: u8, behind: &[u8]) -> Result<Vec<u8>, Fail> {
    let mut file = with_target(target).to_vec(alloc)?;
    file.extend_from_slice(behind)?;
    Ok(file)
}

fn entries_are(
    rt: &impl Abort,
    alloc: Global,
    bytes: &[u8],
    wanted: &[Found],
    end: End,
) -> Result<(), Fail> {
    if bytes.len() > 100 {
        return Err("too long")?;
    }
    let found = scan(alloc, bytes, 1000)?;
    assert_eq!(rt; found.end, end);
    assert_eq!(rt; found.entries.as_slice(), wanted);
    Ok(())
}

#[test]
fn what_stands_behind_the_entry_counts(rt: HostRuntime) -> Result<(), Fail> {
    for (target, behind, another, end) in &BEHIND {
        let file = with_behind(rt.alloc(), *target, behind)?;
        let wanted = if *another { &BOTH[..] } else { &BOTH[..1] };
        entries_are(&rt, rt.alloc(), &file, wanted, *end)?;
    }
    let (end, _) = scanned(rt.alloc(), &FILE, 1001)?;
    assert_eq!(rt; end, End::Torn(0, Cause::HeaderId(1000)));
    let (end, _) = scanned(rt.alloc(), &[0; 60], 1000)?;
    assert_eq!(rt; end, End::Torn(0, Cause::HeaderCheck));
    Ok(())
}
