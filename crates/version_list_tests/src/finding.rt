//! A read of one key: its value after all the rows that the seat has seen then.
ghost use Rattle.std.specs.Prelude.{◌≡◌, IfOk};
ghost use mathlib.Core.List.{IsPrefix};
ghost use Rattle.version_list_tests.specs.Values.{value_of};

use crate::row::Row;
use crate::rows::Rows;
use std::sync::Wait;
use std::sync::ledger::Ledger;
use version_list::{Naming, NoWriter, ReadSeat, VersionList};

// The value of a key after these rows.
fn find(rows: &[Row], key: u64) -> Option<u64>
    ensures { result ≡ value_of key rows.now }
{
    let mut value = None;
    for row in rows {
        if row.key == key {
            value = Some(row.value);
        }
    }
    value
}

pub fn read_key<R: Wait, J: Naming, L: Ledger, W: Drop>(
    rt: &R,
    list: &VersionList<Row, J, L, W>,
    seat: &mut ReadSeat<Rows, Row, J>,
    key: u64,
) -> Result<Option<u64>, NoWriter>
    ensures seen { IsPrefix seat.old seat.new }
    ensures value { IfOk result (λ v. v ≡ value_of key seat.new) }
{
    list.read(
        rt,
        seat,
        &|rows: &Rows| -> Option<u64>
            ensures { result ≡ value_of key rows.now.list.items }
        { find(rows.list.as_slice(), key) },
    )
}
