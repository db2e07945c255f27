//! A segment of 60 bytes whose checks were worked out elsewhere, and bytes that are none.
use super::same::same_bytes;
use clog_base::PayloadFault;
use clog_entry::{
    Cause, Marker, begin_entry, end_entry, put_entry, read_entry, read_header, read_marker,
    write_entry, write_header, write_marker,
};
use std::process::Abort;
use std::test::*;

const HEADER: [u8; 20] = *b"\0\0\0\x06\0\0\0\0\0\0\x03\xe8\0\x02{}\x4e\x72\xf2\x7f";

const MARKER: [u8; 8] = *b"\0\0\0\x3c\x0b\xd6\x8a\xe2";

const PAYLOAD: [u8; 20] = *b"\0\x02ab\0\x01\0\0\x02cd\0\0\0\0\0\0\0\x05\0";

const ENTRY: [u8; 32] =
    *b"\0\0\0\x14\x3b\x9e\x0b\x61\0\x02ab\0\x01\0\0\x02cd\0\0\0\0\0\0\0\x05\0\x18\xa5\x86\xff";

#[test]
fn writers_give_the_bytes_of_the_format(rt: HostRuntime) -> Result<(), Fail> {
    same_bytes(&rt, &write_header(1000), &HEADER);
    same_bytes(&rt, &write_marker(1000, 20, 60), &MARKER);
    let mut entries = write_entry(rt.alloc(), &PAYLOAD)?;
    same_bytes(&rt, entries.as_slice(), &ENTRY);
    put_entry(&mut entries, &PAYLOAD)?;
    assert_eq!(rt; entries.len(), 64);
    Ok(())
}

#[test]
fn an_entry_made_in_parts_has_the_same_bytes(rt: HostRuntime) -> Result<(), Fail> {
    let mut entry = Vec::new(rt.alloc());
    begin_entry(&mut entry, 20)?;
    entry.extend_from_slice(&PAYLOAD)?;
    assert_eq!(rt; entry.len(), 28);
    end_entry(&mut entry, 0)?;
    same_bytes(&rt, entry.as_slice(), &ENTRY);
    Ok(())
}

// The checks are of the fields as they stand there.
const HEADERS: [(&[u8], Result<(), Cause>); 11] = [
    (&HEADER, Ok(())),
    (b"\0\0\0\x06\0\0\0\0\0\0\x03\xe8\0", Err(Cause::Short)),
    (
        b"\0\0\0\x06\0\0\0\0\0\0\x03\xe8\0\x02{}\x4e\x72\xf2",
        Err(Cause::Short),
    ),
    (
        b"\0\0\0\x06\0\0\0\0\0\0\x03\xe8\0\x02{}\x4e\x72\xf2\x7e",
        Err(Cause::HeaderCheck),
    ),
    (
        b"\0\0\0\x07\0\0\0\0\0\0\x03\xe8\0\x02{}\xf7\x89\x29\x97",
        Err(Cause::Version(7)),
    ),
    (
        b"\0\0\0\x06\0\0\0\0\0\0\x03\xe9\0\x02{}\x8f\xfc\x2d\xbf",
        Err(Cause::HeaderId(1001)),
    ),
    (
        b"\0\0\0\x06\0\0\0\0\0\0\x03\xe8\0\x02[]\xe0\x98\xf6\x15",
        Err(Cause::Parameters),
    ),
    (
        b"\0\0\0\x06\0\0\0\0\0\0\x03\xe8\0\0\x26\x87\x0c\x78",
        Err(Cause::Parameters),
    ),
    // Two rules are broken: the version comes before the id, and the id before the parameters.
    (
        b"\0\0\0\x07\0\0\0\0\0\0\x03\xe9\0\x02{}\x36\x07\xf6\x57",
        Err(Cause::Version(7)),
    ),
    (
        b"\0\0\0\x06\0\0\0\0\0\0\x03\xe9\0\x02[]\x21\x16\x29\xd5",
        Err(Cause::HeaderId(1001)),
    ),
    (
        b"\0\0\0\x07\0\0\0\0\0\0\x03\xe8\0\x02[]\x59\x63\x2d\xfd",
        Err(Cause::Version(7)),
    ),
];

#[test]
fn headers_are_refused_by_the_first_rule(rt: HostRuntime) -> Result<(), Fail> {
    for (bytes, answer) in &HEADERS {
        assert_eq!(rt; read_header(bytes, 1000), *answer);
    }
    Ok(())
}

// The header, the marker and the entry.
const SEGMENT: &[u8] = b"\0\0\0\x06\0\0\0\0\0\0\x03\xe8\0\x02{}\x4e\x72\xf2\x7f\
\0\0\0\x3c\x0b\xd6\x8a\xe2\
\0\0\0\x14\x3b\x9e\x0b\x61\0\x02ab\0\x01\0\0\x02cd\0\0\0\0\0\0\0\x05\0\x18\xa5\x86\xff";

// By the id and the place by which the segment is read.
const MARKERS: [(u64, u32, Result<Marker, Cause>); 5] = [
    (1000, 20, Ok(Marker::Section(60))),
    (1001, 20, Err(Cause::MarkerCheck)),
    (1000, 24, Err(Cause::MarkerCheck)),
    (1000, 53, Ok(Marker::End)),
    (1000, 4_294_967_295, Ok(Marker::End)),
];

// By the bytes, and the place and end by which they are read.
const ENTRIES: [(&[u8], u32, u32, Result<u32, Cause>); 6] = [
    (&ENTRY, 0, 32, Ok(20)),
    (&ENTRY, 0, 31, Err(Cause::PastSection)),
    (&ENTRY, 25, 32, Err(Cause::Short)),
    (&[0; 40], 0, 40, Err(Cause::SizeUnder10)),
    (
        b"\0\0\0\x09\x58\x98\x67\xb8123456789....",
        0,
        21,
        Err(Cause::SizeUnder10),
    ),
    (
        b"\xff\xff\xff\xff\xff\xff\xff\xff1234567890....",
        0,
        22,
        Err(Cause::PastSection),
    ),
];

// None where no entry may be sought.
fn entry_at(bytes: &[u8], at: u32, end: u32) -> Option<Result<u32, Cause>> {
    if at < end && end as usize <= bytes.len() {
        return Some(read_entry(bytes, at, end));
    }
    None
}

fn entries_are_read(rt: &impl Abort) {
    for (bytes, at, end, answer) in &ENTRIES {
        assert_eq!(rt; entry_at(bytes, *at, *end), Some(*answer), "{at} to {end}");
    }
}

#[test]
fn markers_and_entries_are_read_in_their_places(rt: HostRuntime) -> Result<(), Fail> {
    for (id, at, answer) in &MARKERS {
        assert_eq!(rt; read_marker(SEGMENT, *id, *at), *answer, "{id} at {at}");
    }
    assert_eq!(rt; read_marker(&[0; 40], 1000, 20), Ok(Marker::End));
    entries_are_read(&rt);
    Ok(())
}

const CAUSES: [(Cause, &str); 11] = [
    (Cause::Short, "Short"),
    (Cause::SizeUnder10, "SizeUnder10"),
    (Cause::SizeCheck, "SizeCheck"),
    (Cause::BodyCheck, "BodyCheck"),
    (Cause::PastSection, "PastSection"),
    (Cause::Version(7), "Version 7"),
    (Cause::Parameters, "Parameters"),
    (Cause::HeaderCheck, "HeaderCheck"),
    (Cause::MarkerCheck, "MarkerCheck"),
    (Cause::MarkerTarget(61), "MarkerTarget 61"),
    (
        Cause::HeaderId(18_446_744_073_709_551_615),
        "HeaderId 18446744073709551615",
    ),
];

#[test]
fn causes_are_printed_by_name_and_number(rt: HostRuntime) -> Result<(), Fail> {
    for (cause, text) in &CAUSES {
        same_bytes(&rt, cause.text().as_bytes(), text.as_bytes());
    }
    Ok(())
}

const FAULTS: [(PayloadFault, &str); 8] = [
    (PayloadFault::Short(2), "Payload Short 2"),
    (PayloadFault::BadTag(28), "Payload BadTag 28"),
    (PayloadFault::Count, "Payload Count"),
    (PayloadFault::NotUtf8(2), "Payload NotUtf8 2"),
    (PayloadFault::Trailing(20), "Payload Trailing 20"),
    (PayloadFault::NameLength(0), "Payload NameLength 0"),
    (PayloadFault::BadTable(6), "Payload BadTable 6"),
    (PayloadFault::OutOfMemory, "Payload OutOfMemory"),
];

#[test]
fn payload_causes_are_printed_behind_their_kind(rt: HostRuntime) -> Result<(), Fail> {
    for (fault, text) in &FAULTS {
        same_bytes(
            &rt,
            Cause::Payload(*fault).text().as_bytes(),
            text.as_bytes(),
        );
    }
    Ok(())
}
