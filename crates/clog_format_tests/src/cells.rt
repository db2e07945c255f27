//! What comes of a few cells, in any order.
use super::same::same_text;
use clog_cells::{Cell, CellBatches, CellKey, CellMap, Kind, LentCell, Table, Text, newer};
use std::alloc::Global;
use std::process::Abort;
use std::test::Fail;

fn key(alloc: Global, table: u8, key: &str, column: &str) -> Result<CellKey, Fail> {
    Ok(CellKey {
        table: Table(table),
        key: Text::copy_of(alloc, key)?,
        column: Text::copy_of(alloc, column)?,
    })
}

fn cell(alloc: Global, ts: i64, kind: Kind, value: &str) -> Result<Cell, Fail> {
    Ok(Cell {
        ts,
        kind,
        value: Text::copy_of(alloc, value)?,
    })
}

// Whether a cell of the second of these is newer than one of the first.
fn is_newer(alloc: Global, old: &Version, new: &Version) -> Result<bool, Fail> {
    let old = cell(alloc, old.0, old.1, old.2)?;
    let new = cell(alloc, new.0, new.1, new.2)?;
    Ok(newer(&new, &old))
}

type Version = (i64, Kind, &'static str);

const ASCENDING: [Version; 9] = [
    (i64::MIN, Kind::Live, "z"),
    (-1, Kind::Live, "z"),
    (9, Kind::Live, ""),
    (9, Kind::Live, "a"),
    (9, Kind::Live, "aa"),
    (9, Kind::Live, "b"),
    (9, Kind::Live, "é"),
    (9, Kind::Deletion, ""),
    (i64::MAX, Kind::Live, "a"),
];

#[test]
fn a_cell_is_newer_by_timestamp_then_deletion_then_bytes(rt: HostRuntime) -> Result<(), Fail> {
    for (i, older) in ASCENDING.iter().enumerate() {
        for (j, other) in ASCENDING.iter().enumerate() {
            assert_eq!(rt; is_newer(rt.alloc(), older, other)?, i < j);
        }
    }
    Ok(())
}

fn put(
    alloc: Global,
    cells: &mut CellMap,
    place: (u8, &str, &str),
    ts: i64,
    kind: Kind,
    value: &str,
) -> Result<(), Fail> {
    let key = key(alloc, place.0, place.1, place.2)?;
    let cell = cell(alloc, ts, kind, value)?;
    match cells.put(key, cell) {
        Ok(()) => Ok(()),
        Err(_) => Err("no memory")?,
    }
}

#[test]
fn a_deletion_wins_a_tie_in_any_order(rt: HostRuntime) -> Result<(), Fail> {
    let alloc = rt.alloc();
    let found = [(Kind::Live, "a"), (Kind::Live, "b"), (Kind::Deletion, "")];
    for order in [
        [0, 1, 2],
        [0, 2, 1],
        [1, 0, 2],
        [1, 2, 0],
        [2, 0, 1],
        [2, 1, 0],
    ] {
        let mut cells = CellMap::new(alloc);
        for which in order {
            if let Some((kind, value)) = found.get(which) {
                put(alloc, &mut cells, (0, "k", "c"), 9, *kind, value)?;
            }
        }
        assert_eq!(rt; cells.len(), 1);
        for (_, cell) in cells.entries() {
            assert_eq!(rt; cell.kind, Kind::Deletion);
        }
    }
    Ok(())
}

// Live cells at 9.
fn map_of(alloc: Global, rows: &[(u8, &str, &str, &str)]) -> Result<CellMap, Fail> {
    let mut cells = CellMap::new(alloc);
    for (table, key, column, value) in rows {
        put(
            alloc,
            &mut cells,
            (*table, key, column),
            9,
            Kind::Live,
            value,
        )?;
    }
    Ok(cells)
}

fn is_row(rt: &impl Abort, row: Option<&(CellKey, Cell)>, wanted: &(u8, &str, &str, &str)) {
    let Some(row) = row else {
        assert!(rt; false, "no row");
        return;
    };
    assert!(rt; row.0.table == Table(wanted.0));
    same_text(rt, row.0.key.as_str(), wanted.1);
    same_text(rt, row.0.column.as_str(), wanted.2);
    same_text(rt, row.1.value.as_str(), wanted.3);
}

const MERGED: [(u8, &str, &str, &str); 4] = [
    (0, "a", "ab", "4"),
    (0, "a", "b", "b"),
    (0, "b", "a", "2"),
    (1, "a", "a", "1"),
];

#[test]
fn merged_rows_ascend_by_table_key_and_column(rt: HostRuntime) -> Result<(), Fail> {
    let alloc = rt.alloc();
    let mut cells = map_of(
        alloc,
        &[(1, "a", "a", "1"), (0, "b", "a", "2"), (0, "a", "b", "a")],
    )?;
    let others = map_of(alloc, &[(0, "a", "b", "b"), (0, "a", "ab", "4")])?;
    cells.merge(others)?;
    let rows = cells.copy()?.rows()?;
    assert_eq!(rt; rows.len(), 4);
    for (i, wanted) in MERGED.iter().enumerate() {
        is_row(&rt, rows.get(i), wanted);
    }
    Ok(())
}

// An older cell stands behind a newer one of its key.
const PAIRS: [(u8, &str, &str, &str); 5] = [
    (1, "a", "a", "1"),
    (0, "a", "b", "b"),
    (0, "b", "a", "2"),
    (0, "a", "b", "a"),
    (0, "a", "ab", "4"),
];

#[test]
fn a_map_of_pairs_has_the_newest_of_each_key(rt: HostRuntime) -> Result<(), Fail> {
    let alloc = rt.alloc();
    let mut pairs = Vec::new(alloc);
    for (table, name, column, value) in &PAIRS {
        let cell = cell(alloc, 9, Kind::Live, value)?;
        pairs.push((key(alloc, *table, name, column)?, cell))?;
    }
    let rows = CellMap::of_pairs(alloc, pairs)?.rows()?;
    assert_eq!(rt; rows.len(), 4);
    for (i, wanted) in MERGED.iter().enumerate() {
        is_row(&rt, rows.get(i), wanted);
    }
    Ok(())
}

// More cells than wait for their merge, of two keys in turn, by rising timestamps.
fn put_many(alloc: Global) -> Result<CellMap, Fail> {
    let mut cells = CellBatches::new(alloc);
    for n in 0..65_600i64 {
        let name = if n % 2 == 0 { "even" } else { "odd" };
        cells.put(key(alloc, 0, name, "c")?, cell(alloc, n, Kind::Live, "v")?)?;
    }
    Ok(cells.into_map()?)
}

#[test]
fn many_cells_of_few_keys_merge_to_the_newest(rt: HostRuntime) -> Result<(), Fail> {
    let rows = put_many(rt.alloc())?.rows()?;
    assert_eq!(rt; rows.len(), 2);
    for (row, wanted) in rows.iter().zip([65_598, 65_599]) {
        assert_eq!(rt; row.1.ts, wanted);
    }
    Ok(())
}

// How many cells are taken off below a table, and how many are left.
fn taken(cells: &mut CellMap, below: u8) -> Result<(usize, usize), Fail> {
    let taken = cells.take_below(Table(below))?;
    Ok((taken.len(), cells.len()))
}

const TAKEN: [(u8, usize, usize); 5] = [(0, 0, 4), (1, 1, 3), (3, 2, 1), (3, 0, 1), (255, 1, 0)];

#[test]
fn the_cells_of_lower_tables_are_taken_off(rt: HostRuntime) -> Result<(), Fail> {
    let rows = [
        (3, "a", "c", "v"),
        (0, "z", "c", "v"),
        (1, "b", "c", "v"),
        (1, "a", "c", "v"),
    ];
    let mut cells = map_of(rt.alloc(), &rows)?;
    for (below, off, left) in &TAKEN {
        assert_eq!(rt; taken(&mut cells, *below)?, (*off, *left), "below {below}");
    }
    Ok(())
}

#[test]
fn a_map_holds_thousands_of_cells(rt: HostRuntime) -> Result<(), Fail> {
    let alloc = rt.alloc();
    let mut cells = CellMap::new(alloc);
    for n in 0..5000u64 {
        // Each number below 5000 once, in no order.
        let name = format!(in alloc; "{}", n * 7919 % 5000)?;
        put(
            alloc,
            &mut cells,
            (0, name.as_str(), "c"),
            9,
            Kind::Live,
            "v",
        )?;
    }
    assert_eq!(rt; cells.len(), 5000);
    assert_eq!(rt; cells.copy()?.len(), 5000);
    Ok(())
}

// A live cell that is lent, with its timestamp.
const LENT: [(i64, &str); 3] = [(9, "first"), (8, "older"), (10, "newer")];

#[test]
fn a_cell_that_is_lent_is_kept_where_it_is_newer(rt: HostRuntime) -> Result<(), Fail> {
    let alloc = rt.alloc();
    let mut cells = CellMap::new(alloc);
    let place = key(alloc, 0, "k", "c")?;
    for (ts, value) in LENT.iter() {
        let cell = LentCell {
            ts: *ts,
            kind: Kind::Live,
            value,
        };
        cells.put_lent(&place, cell)?;
    }
    assert_eq!(rt; cells.len(), 1);
    let rows = cells.rows()?;
    is_row(&rt, rows.first(), &(0, "k", "c", "newer"));
    Ok(())
}
