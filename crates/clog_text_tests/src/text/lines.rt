//! Each row of the table of refusals, and a line that is taken.
use super::{GOOD, refusal, with_updates};
use crate::same::same_text;
use clog_base::Kind;
use clog_mutation::Update;
use clog_text::{BadLine, Part, read_line};
use std::alloc::{AllocError, Global};
use std::process::Abort;
use std::test::Fail;

const LINES: [(&str, BadLine); 16] = [
    ("", BadLine::NotJson),
    ("{", BadLine::NotJson),
    ("\u{feff}{\"key\":\"k\",\"updates\":[]}", BadLine::NotJson),
    ("{\"key\":\"k\",\"updates\":[]} x", BadLine::NotJson),
    ("{\"key\":\"\\ud800\",\"updates\":[]}", BadLine::NotJson),
    ("{\"key\":\"k\",\"updates\":1e999}", BadLine::NotJson),
    ("null", BadLine::Field(Part::Line)),
    ("[1]", BadLine::Field(Part::Line)),
    ("{\"key\":\"k\"}", BadLine::Field(Part::Line)),
    (
        "{\"keys\":\"k\",\"updates\":[]}",
        BadLine::Field(Part::Line),
    ),
    (
        "{\"key\":1,\"updates\":0,\"x\":0}",
        BadLine::Field(Part::Line),
    ),
    ("{\"key\":1,\"updates\":0}", BadLine::Field(Part::Key)),
    (
        "{\"key\":\"k\",\"key\":0,\"updates\":0}",
        BadLine::Field(Part::Key),
    ),
    ("{\"key\":\"\",\"updates\":0}", BadLine::Range(Part::Key)),
    (
        "{\"key\":\"k\",\"updates\":{}}",
        BadLine::Field(Part::Updates),
    ),
    ("{\"key\":\"k\",\"updates\":[]}", BadLine::NoUpdates),
];

#[test]
fn each_refusal_of_a_line_comes_by_its_row(rt: HostRuntime) {
    for (line, want) in &LINES {
        assert_eq!(rt; refusal(rt.alloc(), line), Some(*want), "{line}");
    }
    for line in [&b"\xff"[..], b"{\"key\":\"\xc3\",\"updates\":[]}"] {
        assert!(rt;
            matches!(read_line(rt.alloc(), line), Err(BadLine::NotJson)),
            "{line:?}"
        );
    }
}

#[test]
fn an_update_has_exactly_its_four_names(rt: HostRuntime) -> Result<(), Fail> {
    for update in [
        "0",
        "{}",
        "{\"table\":16,\"column\":0,\"ts\":0.5}",
        "{\"table\":16,\"column\":0,\"ts\":0.5,\"values\":0}",
        "{\"table\":16,\"column\":0,\"ts\":0.5,\"value\":0,\"more\":0}",
    ] {
        let updates = format!(in rt.alloc(); "{GOOD},{update}")?;
        let line = with_updates(rt.alloc(), updates.as_str())?;
        let want = Some(BadLine::Field(Part::Update));
        assert_eq!(rt; refusal(rt.alloc(), line.as_str()), want, "{update}");
    }
    Ok(())
}

fn update_of(
    alloc: Global,
    table: &str,
    column: &str,
    ts: &str,
    value: &str,
) -> Result<String, AllocError> {
    format!(in alloc; "{{\"table\":{table},\"column\":{column},\"ts\":{ts},\"value\":{value}}}")
}

// A line with a good update, this one, and one that is none.
fn behind_a_good_one(alloc: Global, update: &str) -> Result<String, AllocError> {
    let updates = format!(in alloc; "{GOOD},{update},0")?;
    with_updates(alloc, updates.as_str())
}

const FIELDS: [(&str, &str, &str, &str, BadLine); 21] = [
    ("\"0\"", "0", "0.5", "0", BadLine::Field(Part::Table)),
    ("1.0", "0", "0.5", "0", BadLine::Field(Part::Table)),
    ("1e1", "0", "0.5", "0", BadLine::Field(Part::Table)),
    ("-0", "0", "0.5", "0", BadLine::Field(Part::Table)),
    ("-1", "0", "0.5", "0", BadLine::Field(Part::Table)),
    (
        "18446744073709551616",
        "0",
        "0.5",
        "0",
        BadLine::Field(Part::Table),
    ),
    (
        "18446744073709551615",
        "0",
        "0.5",
        "0",
        BadLine::UnknownTable,
    ),
    ("16", "0", "0.5", "0", BadLine::UnknownTable),
    ("15", "0", "0.5", "0", BadLine::Field(Part::Column)),
    ("15", "\"\"", "0.5", "0", BadLine::Range(Part::Column)),
    ("15", "\"c\"", "1.0", "0", BadLine::Field(Part::Ts)),
    ("15", "\"c\"", "1e3", "0", BadLine::Field(Part::Ts)),
    ("15", "\"c\"", "-0", "0", BadLine::Field(Part::Ts)),
    ("15", "\"c\"", "null", "0", BadLine::Field(Part::Ts)),
    (
        "15",
        "\"c\"",
        "-9223372036854775809",
        "0",
        BadLine::Field(Part::Ts),
    ),
    (
        "15",
        "\"c\"",
        "9223372036854775808",
        "0",
        BadLine::Range(Part::Ts),
    ),
    (
        "15",
        "\"c\"",
        "18446744073709551615",
        "0",
        BadLine::Range(Part::Ts),
    ),
    (
        "15",
        "\"c\"",
        "18446744073709551616",
        "0",
        BadLine::Field(Part::Ts),
    ),
    (
        "15",
        "\"c\"",
        "9223372036854775807",
        "0",
        BadLine::Field(Part::Value),
    ),
    (
        "15",
        "\"c\"",
        "-9223372036854775808",
        "true",
        BadLine::Field(Part::Value),
    ),
    ("15", "\"c\"", "0", "[]", BadLine::Field(Part::Value)),
];

#[test]
fn each_refusal_of_a_field_comes_by_its_row(rt: HostRuntime) -> Result<(), Fail> {
    for (table, column, ts, value, want) in &FIELDS {
        let update = update_of(rt.alloc(), table, column, ts, value)?;
        let line = behind_a_good_one(rt.alloc(), update.as_str())?;
        assert_eq!(rt; refusal(rt.alloc(), line.as_str()), Some(*want), "{update}");
    }
    Ok(())
}

fn is_the_update(rt: &impl Abort, update: &Update) {
    assert_eq!(rt; update.table.0, 15);
    same_text(rt, update.column.as_str(), "é");
    assert_eq!(rt; update.cell.ts, -5);
    assert!(rt; update.cell.kind == Kind::Live);
    same_text(rt, update.cell.value.as_str(), "v\n");
}

#[test]
fn a_line_in_any_spelling_is_its_mutation(rt: HostRuntime) {
    for line in [
        "{\"key\":\"k\",\"updates\":[\
{\"table\":15,\"column\":\"é\",\"ts\":-5,\"value\":\"v\\n\"}]}",
        " {\"updates\":0,\"updates\":[\
{\"value\":\"v\\u000a\",\"ts\":0.5,\"column\":\"\\u00e9\",\
\r\"ts\":-5,\"table\":15 }],\"key\":\"\\u006b\"}\t",
    ] {
        match read_line(rt.alloc(), line.as_bytes()) {
            Ok(mutation) => {
                same_text(&rt, mutation.key.as_str(), "k");
                let [update] = mutation.updates.as_slice() else {
                    assert!(rt; false, "one update");
                    return;
                };
                is_the_update(&rt, update);
            }
            Err(cause) => assert!(rt; false, "{cause}"),
        }
    }
}
