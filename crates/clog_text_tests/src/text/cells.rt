//! Printed texts.
use crate::same::{same_bytes, same_text};
use clog_base::{Cell, CellKey, Kind, Table, Text};
use clog_text::{BadLine, CellPrinter, Part, cell_line};
use std::alloc::Global;
use std::test::Fail;

#[test]
fn refusals_print_their_part_in_lower_case(rt: HostRuntime) -> Result<(), Fail> {
    for (cause, want) in [
        (BadLine::NotJson, "NotJson"),
        (BadLine::Field(Part::Line), "Field line"),
        (BadLine::Range(Part::Key), "Range key"),
        (BadLine::Field(Part::Updates), "Field updates"),
        (BadLine::Field(Part::Update), "Field update"),
        (BadLine::NoUpdates, "NoUpdates"),
        (BadLine::Field(Part::Table), "Field table"),
        (BadLine::UnknownTable, "UnknownTable"),
        (BadLine::Range(Part::Column), "Range column"),
        (BadLine::Range(Part::Ts), "Range ts"),
        (BadLine::Field(Part::Value), "Field value"),
    ] {
        let text = format!(in rt.alloc(); "{cause}")?;
        same_text(&rt, text.as_str(), want);
    }
    Ok(())
}

fn key_of(alloc: Global, key: &str) -> Result<CellKey, Fail> {
    Ok(CellKey {
        table: Table(7),
        key: Text::copy_of(alloc, key)?,
        column: Text::copy_of(alloc, "c")?,
    })
}

// The expected texts are those of Rust's serde_json for the same values.
#[test]
fn a_cell_is_one_compact_line(rt: HostRuntime) -> Result<(), Fail> {
    let alloc = rt.alloc();
    let mut all = Vec::new(alloc);
    let mut printer = CellPrinter::new(alloc);
    for (key, ts, kind, value, want) in [
        (
            "k",
            5,
            Kind::Deletion,
            "",
            "\"key\":\"k\",\"table\":7,\"ts\":5,\"value\":null}\n",
        ),
        (
            "k\"",
            -5,
            Kind::Live,
            "",
            "\"key\":\"k\\\"\",\"table\":7,\"ts\":-5,\"value\":\"\"}\n",
        ),
        (
            "\\",
            0,
            Kind::Live,
            "\u{8}\t\n\u{c}\r",
            "\"key\":\"\\\\\",\"table\":7,\"ts\":0,\"value\":\"\\b\\t\\n\\f\\r\"}\n",
        ),
        (
            "\u{0}\u{1f}",
            0,
            Kind::Live,
            "é/\u{7f}\u{2028}😀",
            "\"key\":\"\\u0000\\u001f\",\"table\":7,\"ts\":0,\"value\":\"é/\u{7f}\u{2028}😀\"}\n",
        ),
    ] {
        let key = key_of(alloc, key)?;
        let value = Text::copy_of(alloc, value)?;
        let cell = Cell { ts, kind, value };
        let want = format!(in alloc; "{{\"column\":\"c\",{want}")?;
        let line = cell_line(alloc, &key, &cell)?;
        same_bytes(&rt, line.as_slice(), want.as_bytes());
        let front = all.len();
        assert!(rt; printer.put(&mut all, &key, &cell).is_ok());
        same_bytes(&rt, &all[front..], want.as_bytes());
    }
    Ok(())
}
