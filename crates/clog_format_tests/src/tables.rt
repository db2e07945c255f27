//! Table files, whole and damaged. Each fault was worked out by the rules of the format.
use super::same::{same_bytes, same_text};
use clog_cells::{Cell, CellKey};
use clog_table::{FaultText, Table, TableFault, TableFile, check_file, decode, encode};
use std::alloc::Global;
use std::process::Abort;
use std::test::Fail;

// The files are made by Python's struct and zlib. The first holds one deletion: key `ab`, column
// `cd`, timestamp 5, interval (1000, 0) to (1000, 60).
const EXAMPLE: [u8; 58] = [
    0x00, 0x00, 0x00, 0x01, 0x00, 0x00, 0x00, 0x00, 0x00, 0x00, 0x00, 0x03, 0xe8, 0x00, 0x00, 0x00,
    0x00, 0x00, 0x00, 0x00, 0x00, 0x00, 0x00, 0x03, 0xe8, 0x00, 0x00, 0x00, 0x3c, 0x00, 0x00, 0x00,
    0x01, 0x72, 0x03, 0x75, 0xd8, 0x00, 0x02, 0x61, 0x62, 0x00, 0x02, 0x63, 0x64, 0x00, 0x00, 0x00,
    0x00, 0x00, 0x00, 0x00, 0x05, 0x00, 0x58, 0x4f, 0x3f, 0xb8,
];

// The same with a live value `z`, timestamp 9.
const LIVE: [u8; 63] = [
    0x00, 0x00, 0x00, 0x01, 0x00, 0x00, 0x00, 0x00, 0x00, 0x00, 0x00, 0x03, 0xe8, 0x00, 0x00, 0x00,
    0x00, 0x00, 0x00, 0x00, 0x00, 0x00, 0x00, 0x03, 0xe8, 0x00, 0x00, 0x00, 0x3c, 0x00, 0x00, 0x00,
    0x01, 0x72, 0x03, 0x75, 0xd8, 0x00, 0x02, 0x61, 0x62, 0x00, 0x02, 0x63, 0x64, 0x00, 0x00, 0x00,
    0x00, 0x00, 0x00, 0x00, 0x09, 0x01, 0x00, 0x00, 0x00, 0x01, 0x7a, 0xe2, 0x4e, 0x51, 0x2c,
];

// Three cells of table 2, the last of key `\u{e9}`.
const THREE: [u8; 98] = [
    0x00, 0x00, 0x00, 0x01, 0x02, 0x00, 0x00, 0x00, 0x00, 0x00, 0x00, 0x03, 0xe8, 0x00, 0x00, 0x00,
    0x00, 0x00, 0x00, 0x00, 0x00, 0x00, 0x00, 0x03, 0xe9, 0x00, 0x00, 0x08, 0x1c, 0x00, 0x00, 0x00,
    0x03, 0x60, 0xeb, 0x1f, 0x96, 0x00, 0x01, 0x61, 0x00, 0x01, 0x63, 0xff, 0xff, 0xff, 0xff, 0xff,
    0xff, 0xff, 0xff, 0x00, 0x00, 0x01, 0x61, 0x00, 0x01, 0x64, 0x00, 0x00, 0x00, 0x00, 0x00, 0x00,
    0x00, 0x07, 0x01, 0x00, 0x00, 0x00, 0x00, 0x00, 0x02, 0xc3, 0xa9, 0x00, 0x01, 0x62, 0x7f, 0xff,
    0xff, 0xff, 0xff, 0xff, 0xff, 0xff, 0x01, 0x00, 0x00, 0x00, 0x03, 0x78, 0x79, 0x7a, 0xa4, 0x99,
    0x42, 0xcd,
];

// Columns `cd` and then `cc`.
const DISORDERED: [u8; 75] = [
    0x00, 0x00, 0x00, 0x01, 0x00, 0x00, 0x00, 0x00, 0x00, 0x00, 0x00, 0x03, 0xe8, 0x00, 0x00, 0x00,
    0x00, 0x00, 0x00, 0x00, 0x00, 0x00, 0x00, 0x03, 0xe8, 0x00, 0x00, 0x00, 0x3c, 0x00, 0x00, 0x00,
    0x02, 0xeb, 0x0a, 0x24, 0x62, 0x00, 0x02, 0x61, 0x62, 0x00, 0x02, 0x63, 0x64, 0x00, 0x00, 0x00,
    0x00, 0x00, 0x00, 0x00, 0x05, 0x00, 0x00, 0x02, 0x61, 0x62, 0x00, 0x02, 0x63, 0x63, 0x00, 0x00,
    0x00, 0x00, 0x00, 0x00, 0x00, 0x05, 0x00, 0x2a, 0x2e, 0x44, 0xa2,
];

// The interval (1000, 61) to (1000, 60).
const TURNED: [u8; 58] = [
    0x00, 0x00, 0x00, 0x01, 0x00, 0x00, 0x00, 0x00, 0x00, 0x00, 0x00, 0x03, 0xe8, 0x00, 0x00, 0x00,
    0x3d, 0x00, 0x00, 0x00, 0x00, 0x00, 0x00, 0x03, 0xe8, 0x00, 0x00, 0x00, 0x3c, 0x00, 0x00, 0x00,
    0x01, 0x59, 0x4f, 0x7d, 0x4d, 0x00, 0x02, 0x61, 0x62, 0x00, 0x02, 0x63, 0x64, 0x00, 0x00, 0x00,
    0x00, 0x00, 0x00, 0x00, 0x05, 0x00, 0x58, 0x4f, 0x3f, 0xb8,
];

// The interval (1000, 60) to (1000, 60), whose ends are equal.
const EMPTY: [u8; 58] = [
    0x00, 0x00, 0x00, 0x01, 0x00, 0x00, 0x00, 0x00, 0x00, 0x00, 0x00, 0x03, 0xe8, 0x00, 0x00, 0x00,
    0x3c, 0x00, 0x00, 0x00, 0x00, 0x00, 0x00, 0x03, 0xe8, 0x00, 0x00, 0x00, 0x3c, 0x00, 0x00, 0x00,
    0x01, 0xde, 0xe9, 0xb6, 0x0e, 0x00, 0x02, 0x61, 0x62, 0x00, 0x02, 0x63, 0x64, 0x00, 0x00, 0x00,
    0x00, 0x00, 0x00, 0x00, 0x05, 0x00, 0x58, 0x4f, 0x3f, 0xb8,
];

// The first one, of table 200.
const ABOVE: [u8; 58] = [
    0x00, 0x00, 0x00, 0x01, 0xc8, 0x00, 0x00, 0x00, 0x00, 0x00, 0x00, 0x03, 0xe8, 0x00, 0x00, 0x00,
    0x00, 0x00, 0x00, 0x00, 0x00, 0x00, 0x00, 0x03, 0xe8, 0x00, 0x00, 0x00, 0x3c, 0x00, 0x00, 0x00,
    0x01, 0x47, 0x0c, 0xf3, 0x03, 0x00, 0x02, 0x61, 0x62, 0x00, 0x02, 0x63, 0x64, 0x00, 0x00, 0x00,
    0x00, 0x00, 0x00, 0x00, 0x05, 0x00, 0x58, 0x4f, 0x3f, 0xb8,
];

// Decoding and checking find the same fault.
fn fault_of(alloc: Global, bytes: &[u8], table: u8) -> Option<TableFault> {
    let checked = check_file(bytes, Table(table)).err();
    match decode(alloc, bytes, Table(table)).err() {
        fault if fault == checked => fault,
        _ => Some(TableFault::OutOfMemory),
    }
}

fn written_again(alloc: Global, bytes: &[u8], table: u8) -> Result<Vec<u8>, TableFault> {
    let file = decode(alloc, bytes, Table(table))?;
    Ok(encode(alloc, &file)?)
}

const FILES: [(&[u8], u8); 4] = [(&EXAMPLE, 0), (&EMPTY, 0), (&LIVE, 0), (&THREE, 2)];

#[test]
fn what_is_decoded_is_encoded_as_it_was(rt: HostRuntime) -> Result<(), Fail> {
    let alloc = rt.alloc();
    for (bytes, table) in &FILES {
        let again = written_again(alloc, bytes, *table)?;
        same_bytes(&rt, again.as_slice(), bytes);
    }
    Ok(())
}

fn ends(file: &TableFile) -> [(u64, u32); 2] {
    [
        (file.lower.id, file.lower.offset),
        (file.upper.id, file.upper.offset),
    ]
}

fn is_the_live_cell(rt: &impl Abort, key: &CellKey, cell: &Cell) {
    same_text(rt, key.key.as_str(), "ab");
    same_text(rt, key.column.as_str(), "cd");
    assert_eq!(rt; cell.ts, 9);
    same_text(rt, cell.value.as_str(), "z");
}

#[test]
fn the_example_holds_one_cell(rt: HostRuntime) -> Result<(), Fail> {
    let file = decode(rt.alloc(), &LIVE, Table(0))?;
    assert_eq!(rt; ends(&file), [(1000, 0), (1000, 60)]);
    let rows = file.cells.rows()?;
    assert_eq!(rt; rows.len(), 1);
    for (key, cell) in &rows {
        is_the_live_cell(&rt, key, cell);
    }
    Ok(())
}

// By the rules of the format: of a file cut to `len` bytes.
fn fault_when_cut(len: usize) -> Option<TableFault> {
    match len {
        0..=36 => Some(TableFault::Short),
        37..=53 => Some(TableFault::Cell(37)),
        54..=57 => Some(TableFault::Short),
        _ => None,
    }
}

// By the rules of the format: of a file whose byte `at` is changed by an exclusive or. The version
// is read before the head's check is, and the cells before theirs. A length that is changed is too
// large, 0, or makes the next field one, and so does the tag. A letter that is changed in its
// highest bit is no UTF-8.
fn fault_when_changed(at: usize, by: u8) -> TableFault {
    match at {
        0 => TableFault::Version(1 ^ (u32::from(by) << 24)),
        1 => TableFault::Version(1 ^ (u32::from(by) << 16)),
        2 => TableFault::Version(1 ^ (u32::from(by) << 8)),
        3 => TableFault::Version(1 ^ u32::from(by)),
        4..=36 => TableFault::HeadCheck,
        37 | 38 | 41 | 42 | 53 => TableFault::Cell(37),
        39 | 40 | 43 | 44 if by >= 128 => TableFault::Cell(37),
        _ => TableFault::CellsCheck,
    }
}

fn cut_files_are_refused(rt: &impl Abort, alloc: Global) {
    for len in 0..=58usize {
        let (cut, _) = EXAMPLE.split_at(len);
        assert_eq!(rt;
            fault_of(alloc, cut, 0),
            fault_when_cut(len),
            "cut to {len}"
        );
    }
}

fn changed_files_are_refused(rt: &impl Abort, alloc: Global) {
    for by in [1u8, 128, 255] {
        for at in 0..58usize {
            let mut file = EXAMPLE;
            file[at] ^= by;
            let wanted = Some(fault_when_changed(at, by));
            assert_eq!(rt; fault_of(alloc, &file, 0), wanted, "byte {at} by {by}");
        }
    }
}

// With a byte more.
fn longer(alloc: Global, bytes: &[u8]) -> Result<Vec<u8>, Fail> {
    let mut longer = bytes.to_vec(alloc)?;
    longer.push(0)?;
    Ok(longer)
}

const DAMAGED: [(&[u8], u8, TableFault); 4] = [
    (&EXAMPLE, 1, TableFault::Table),
    (&ABOVE, 200, TableFault::Table),
    (&DISORDERED, 0, TableFault::Order(54)),
    (&TURNED, 0, TableFault::Interval),
];

#[test]
fn damage_is_named_by_the_rules_of_the_format(rt: HostRuntime) -> Result<(), Fail> {
    let alloc = rt.alloc();
    cut_files_are_refused(&rt, alloc);
    changed_files_are_refused(&rt, alloc);
    let longer = longer(alloc, &EXAMPLE)?;
    assert_eq!(rt; fault_of(alloc, &longer, 0), Some(TableFault::Trailing(58)));
    for (bytes, table, fault) in &DAMAGED {
        assert_eq!(rt; fault_of(alloc, bytes, *table), Some(*fault));
    }
    Ok(())
}

// Of two faults the one that comes first in the order of the rules is named.
#[test]
fn of_two_faults_the_first_is_named(rt: HostRuntime) -> Result<(), Fail> {
    let alloc = rt.alloc();
    // Another table, and a turned interval.
    assert_eq!(rt; fault_of(alloc, &TURNED, 1), Some(TableFault::Table));
    // Cells out of order, and a wrong check.
    let mut disordered = DISORDERED;
    disordered[74] ^= 1;
    assert_eq!(rt;
        fault_of(alloc, &disordered, 0),
        Some(TableFault::Order(54))
    );
    // A wrong check, and a byte behind it.
    let mut wrong = EXAMPLE;
    wrong[57] ^= 1;
    let longer = longer(alloc, &wrong)?;
    assert_eq!(rt; fault_of(alloc, &longer, 0), Some(TableFault::CellsCheck));
    Ok(())
}

const PRINTED: [(TableFault, &str); 10] = [
    (TableFault::Short, "Short"),
    (TableFault::Version(3), "Version 3"),
    (TableFault::HeadCheck, "HeadCheck"),
    (TableFault::Table, "Table"),
    (TableFault::Interval, "Interval"),
    (TableFault::Cell(37), "Cell 37"),
    (TableFault::Order(54), "Order 54"),
    (TableFault::CellsCheck, "CellsCheck"),
    (
        TableFault::Trailing(u64::MAX),
        "Trailing 18446744073709551615",
    ),
    (TableFault::OutOfMemory, "OutOfMemory"),
];

#[test]
fn a_fault_is_printed_by_its_name_and_number(rt: HostRuntime) {
    for (fault, text) in &PRINTED {
        same_bytes(&rt, FaultText::new(fault).as_bytes(), text.as_bytes());
    }
}
