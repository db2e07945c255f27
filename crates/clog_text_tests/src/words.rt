//! Both edges of each option, and words that ask for nothing: since `parse` is exact, these rows
//! are rows of the definition.
use clog_words::{ApplyOptions, Built, ReplayOptions, Request, WordsFault, parse, parse_built};
use std::alloc::Global;
use std::rt::HostRuntime;
use std::test::Fail;
use sync_core::SyncCore;

// What `apply` alone asks for.
const PLAIN: ApplyOptions = ApplyOptions {
    writers: 1,
    sync: SyncCore::Periodic { period_ms: 10_000 },
    segment_kib: 32_768,
    flush_at: None,
    archive: false,
    receipts: false,
    drain: false,
    dump: false,
};

// The words of a line stand between its spaces.
fn words_of(alloc: Global, line: &str) -> Result<Vec<String>, Fail> {
    let mut words = Vec::new(alloc);
    for word in line.split(' ') {
        words.push(String::from_str(alloc, word)?)?;
    }
    Ok(words)
}

fn asked(alloc: Global, line: &str) -> Result<Result<Request, WordsFault>, Fail> {
    Ok(parse(alloc, &words_of(alloc, line)?))
}

#[test]
fn apply_has_its_numbers(rt: HostRuntime) -> Result<(), Fail> {
    for (line, writers, segment_kib, flush_at) in [
        ("apply", 1, 32_768, None),
        ("apply --writers 64", 64, 32_768, None),
        ("apply --writers=0000000001", 1, 32_768, None),
        ("apply --segment-kib 4", 1, 4, None),
        ("apply --segment-kib=32768", 1, 32_768, None),
        ("apply --flush-at 1", 1, 32_768, Some(1)),
        ("apply --flush-at=1000000", 1, 32_768, Some(1_000_000)),
    ] {
        let options = ApplyOptions {
            writers,
            segment_kib,
            flush_at,
            ..PLAIN
        };
        assert!(rt; asked(rt.alloc(), line)? == Ok(Request::Apply(options)));
    }
    Ok(())
}

#[test]
fn apply_has_its_modes(rt: HostRuntime) -> Result<(), Fail> {
    for (line, sync) in [
        ("apply --sync batch", SyncCore::batch()),
        ("apply --period 1 --sync=batch", SyncCore::batch()),
        ("apply --period=1", SyncCore::periodic(1)),
        (
            "apply --sync periodic --period 3600000",
            SyncCore::periodic(3_600_000),
        ),
    ] {
        let options = ApplyOptions { sync, ..PLAIN };
        assert!(rt; asked(rt.alloc(), line)? == Ok(Request::Apply(options)));
    }
    Ok(())
}

#[test]
fn apply_has_its_marks(rt: HostRuntime) -> Result<(), Fail> {
    for (line, archive, receipts, drain, dump) in [
        ("apply --archive", true, false, false, false),
        ("apply --drain --receipts", false, true, true, false),
        ("apply --dump", false, false, false, true),
    ] {
        let options = ApplyOptions {
            archive,
            receipts,
            drain,
            dump,
            ..PLAIN
        };
        assert!(rt; asked(rt.alloc(), line)? == Ok(Request::Apply(options)));
    }
    Ok(())
}

#[test]
fn the_other_commands_have_theirs(rt: HostRuntime) -> Result<(), Fail> {
    let alloc = rt.alloc();
    for (line, workers, ignore_errors) in [
        ("replay", 1, false),
        ("replay --ignore-errors --workers 64", 64, true),
        ("replay --workers=0000000064 --ignore-errors", 64, true),
    ] {
        let options = ReplayOptions {
            workers,
            ignore_errors,
        };
        assert!(rt; asked(alloc, line)? == Ok(Request::Replay(options)));
    }
    for (line, seed, count) in [
        ("drill 0 0", 0, 0),
        ("drill 4294967295 1000000", u32::MAX, 1_000_000),
    ] {
        assert!(rt; asked(alloc, line)? == Ok(Request::Drill { seed, count }));
    }
    for (line, readers, rounds) in [("orders 1 0", 1, 0), ("orders 63 100000", 63, 100_000)] {
        assert!(rt; asked(alloc, line)? == Ok(Request::Orders { readers, rounds }));
    }
    assert!(rt;
        matches!(
            asked(alloc, "scan CommitLog-6-0.log")?,
            Ok(Request::Scan(_))
        )
    );
    Ok(())
}

const OTHERS: [&str; 58] = [
    "",
    "aply",
    "help",
    "--help",
    "apply more",
    "apply --help",
    "apply --",
    "apply --dump --",
    "apply --writers -- 1",
    "apply -d",
    "apply -",
    "apply --sync -",
    "apply --=1",
    "--dump apply",
    "apply --write 1",
    "apply --workers 1",
    "apply --writers",
    "apply --writers=",
    "apply --writers 0",
    "apply --writers 65",
    "apply --writers -1",
    "apply --writers=+1",
    "apply --writers 00000000001",
    "apply --writers 1 --writers=1",
    "apply --writers --dump",
    "apply --sync fast",
    "apply --sync",
    "apply --period 0",
    "apply --period 3600001 --sync batch",
    "apply --segment-kib 3",
    "apply --segment-kib 32769",
    "apply --flush-at 0",
    "apply --flush-at 1000001",
    "apply --dump=",
    "apply --dump yes",
    "apply --dump --dump",
    "apply --writers 65 --segment-kib 3",
    "replay --workers 0",
    "replay --workers 65",
    "replay --workers",
    "replay --workers 00000000001",
    "replay --workers --ignore-errors",
    "replay --ignore-errors=",
    "replay --ignore-errors --ignore-errors",
    "replay --dump",
    "scan",
    "scan CommitLog-7-0.log",
    "scan CommitLog-6-0.log more",
    "drill 1",
    "drill 1 2 3",
    "drill -1 2",
    "drill 4294967296 1",
    "drill 1 1000001",
    "orders 1",
    "orders 1 2 3",
    "orders 0 1",
    "orders 64 1",
    "orders 1 100001",
];

#[test]
fn other_words_ask_for_nothing(rt: HostRuntime) -> Result<(), Fail> {
    for line in &OTHERS {
        assert!(rt; asked(rt.alloc(), line)? == Err(WordsFault::Usage));
    }
    Ok(())
}

#[test]
fn what_is_built_is_asked_for(rt: HostRuntime) -> Result<(), Fail> {
    let alloc = rt.alloc();
    let options = ReplayOptions {
        workers: 64,
        ignore_errors: true,
    };
    for (line, built) in [
        (
            "apply --receipts --segment-kib 4",
            Built::Apply(ApplyOptions {
                receipts: true,
                segment_kib: 4,
                ..PLAIN
            }),
        ),
        (
            "apply --drain --archive",
            Built::Apply(ApplyOptions {
                archive: true,
                drain: true,
                ..PLAIN
            }),
        ),
        (
            "apply --dump --writers 64",
            Built::Apply(ApplyOptions {
                writers: 64,
                dump: true,
                ..PLAIN
            }),
        ),
        (
            "apply --writers 2 --sync batch --period 1",
            Built::Apply(ApplyOptions {
                writers: 2,
                sync: SyncCore::batch(),
                ..PLAIN
            }),
        ),
        (
            "apply --period 10 --writers 2",
            Built::Apply(ApplyOptions {
                writers: 2,
                sync: SyncCore::periodic(10),
                ..PLAIN
            }),
        ),
        (
            "apply --drain --flush-at 1000000",
            Built::Apply(ApplyOptions {
                flush_at: Some(1_000_000),
                drain: true,
                ..PLAIN
            }),
        ),
        ("scan CommitLog-6-1000.log", Built::Scan { id: 1000 }),
        (
            "replay --ignore-errors --workers=64",
            Built::Replay(options),
        ),
        ("drill 7 2", Built::Drill { seed: 7, count: 2 }),
    ] {
        assert!(rt; parse_built(alloc, &words_of(alloc, line)?) == Ok(built));
    }
    Ok(())
}

#[test]
fn what_asks_for_nothing_is_not_built(rt: HostRuntime) -> Result<(), Fail> {
    let alloc = rt.alloc();
    for line in [
        "apply --writers 2 --period 0",
        "apply --period 5 --flush-at 0",
        "scan CommitLog-7-0.log",
        "drill 7 1000001",
        "drill 7",
        "help",
    ] {
        assert!(rt; parse_built(alloc, &words_of(alloc, line)?) == Err(WordsFault::Usage));
    }
    Ok(())
}
