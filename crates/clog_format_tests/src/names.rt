//! Names, sizes and checks against values that were worked out elsewhere.
use super::same::same_bytes;
use clog_base::{
    Name, OutOfMemory, SegmentName, Sizes, Table, Text, archive_name, crc32, crc32_int, crc32_more,
    parse_archive_name, parse_segment_name, parse_table_name, segment_name, table_name,
};
use std::process::Abort;
use std::rt::HostRuntime;

const CHECKS: [(&[u8], u32); 5] = [
    (b"123456789", 0xcbf4_3926),
    (b"\0\0\0\0", 0x2144_df1c),
    (b"", 0),
    (b"\0\0\0\x14", 0x3b9e_0b61),
    (b"\0\0\0\x06\0\0\x03\xe8\0\0\0\0\0\0\0\x02{}", 0x4e72_f27f),
];

#[test]
fn checks_are_those_of_java(rt: HostRuntime) {
    for (bytes, check) in &CHECKS {
        assert_eq!(rt; crc32(bytes), *check);
    }
    assert_eq!(rt; crc32_more(crc32(b"1234"), b"56789"), 0xcbf4_3926);
    assert_eq!(rt; crc32_int(0, 9), 0x5898_67b8);
}

fn a_segments_name_is_read_back(rt: &impl Abort) {
    let name = segment_name(1000);
    same_bytes(rt, name.as_bytes(), b"CommitLog-6-1000.log");
    assert_eq!(rt;
        parse_segment_name(&name),
        Some(SegmentName {
            version: 6,
            id: 1000
        })
    );
}

fn an_archive_name_is_read_back(rt: &impl Abort) {
    let name = archive_name(0);
    same_bytes(rt, name.as_bytes(), b"Archive-CommitLog-6-0.log");
    assert_eq!(rt; parse_archive_name(&name), Some(0));
}

fn a_tables_name_is_read_back(rt: &impl Abort) {
    let name = table_name(Table(15), 9_223_372_036_854_775_807);
    same_bytes(rt, name.as_bytes(), b"Table-15-9223372036854775807.tbl");
    assert_eq!(rt;
        parse_table_name(&name),
        Some((Table(15), 9_223_372_036_854_775_807))
    );
}

#[test]
fn names_are_written_and_read_back(rt: HostRuntime) {
    a_segments_name_is_read_back(&rt);
    an_archive_name_is_read_back(&rt);
    a_tables_name_is_read_back(&rt);
}

fn said(bytes: &[u8]) -> (bool, bool, bool) {
    match Name::make(bytes) {
        Some(name) => (
            parse_segment_name(&name).is_some(),
            parse_archive_name(&name).is_some(),
            parse_table_name(&name).is_some(),
        ),
        None => (false, false, false),
    }
}

const OTHERS: [(&[u8], (bool, bool, bool)); 14] = [
    (b"CommitLog-7-1.log", (true, false, false)),
    (
        b"CommitLog-4294967295-9223372036854775807.log",
        (true, false, false),
    ),
    (b"CommitLog-4294967296-1.log", (false, false, false)),
    (
        b"CommitLog-6-9223372036854775808.log",
        (false, false, false),
    ),
    (b"CommitLog-6-01.log", (false, false, false)),
    (b"CommitLog-6-+1.log", (false, false, false)),
    (b"CommitLog-6-.log", (false, false, false)),
    (b"CommitLog-6-1.log~", (false, false, false)),
    (b"CommitLog-6-1-2.log", (false, false, false)),
    (b"Archive-CommitLog-7-1.log", (false, false, false)),
    (b"Archive-CommitLog-6-1.log", (false, true, false)),
    (b"Table-0-1.tbl", (false, false, true)),
    (b"Table-16-1.tbl", (false, false, false)),
    (b"Table-0-0.tbl", (false, false, false)),
];

#[test]
fn other_names_say_nothing(rt: HostRuntime) {
    for (bytes, wanted) in &OTHERS {
        assert_eq!(rt; said(bytes), *wanted);
    }
}

#[test]
fn a_text_is_copied(rt: HostRuntime) -> Result<(), OutOfMemory> {
    let copy = Text::copy_of(rt.alloc(), "ab")?;
    assert_eq!(rt; copy.as_str(), "ab");
    Ok(())
}

// Whether a file may have such a name.
const NAMES: [(&[u8], bool); 8] = [
    (b"", false),
    (b"a/b", false),
    (&[b'a'; 64], true),
    (&[b'a'; 65], false),
    (b"a\0", false),
    (b"\x80", false),
    (b"\x01", true),
    (b"\x7f", true),
];

// Whether a run may have such numbers of tables and writers, such a capacity, and such a number of
// ordinals.
const SIZES: [(u8, u8, u32, u32, bool); 10] = [
    (16, 64, 33_554_432, 2_147_483_647, true),
    (1, 1, 4096, 1, true),
    (0, 1, 4096, 1, false),
    (17, 1, 4096, 1, false),
    (1, 0, 4096, 1, false),
    (1, 65, 4096, 1, false),
    (1, 1, 4095, 1, false),
    (1, 1, 33_554_433, 1, false),
    (1, 1, 4096, 0, false),
    (1, 1, 4096, 2_147_483_648, false),
];

#[test]
fn names_and_sizes_have_their_limits(rt: HostRuntime) {
    for (bytes, good) in &NAMES {
        assert!(rt; Name::make(bytes).is_some() == *good);
    }
    for (tables, writers, capacity, ordinals, good) in &SIZES {
        let sizes = Sizes::make(*tables, *writers, *capacity, *ordinals);
        assert!(rt; sizes.is_some() == *good);
    }
}
