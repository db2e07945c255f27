//! A row that finds no memory is shown by the next publication, before the row of that.
ghost use Rattle.std.specs.Prelude.{◌≡◌};

use crate::finding::read_key;
use crate::hold::Hold;
use crate::row::Row;
use crate::rows::two_empty;
use std::alloc::Global;
use std::marker::Brand;
use std::sync::ledger::{Blank, Ledger};
use std::sync::{Arc, Wait};
use std::test::*;
use version_list::{Naming, NewHistory, Show, VersionList};

// What two publications did of which the first finds no memory, what a seat reads of it before the
// second and behind it, and how many rows there are.
fn late<J: Naming, L: Ledger, R: Wait>(
    rt: &R,
    alloc: Global,
    history: NewHistory<Row>,
    made: Blank,
) -> Result<(Show, Option<u64>, Show, Option<u64>, Option<u64>), Fail>
    requires history { history.seen.book ≡ J.book }
    requires ledger { (made.name ≡ L.name) × (made.parts ≡ L.parts) × (L.parts ≡ 1) }
{
    let hold = Arc::new(alloc, Hold::new())?;
    let values = two_empty(alloc, &hold)?;
    let (list, mut writer) = VersionList::<Row, J, L, _>::open(
        alloc, rt, values, 2, history, made,
    )?;
    let mut seat = writer.view.again()?;
    let first = list.publish(rt, &mut writer, Row { key: 9, value: 90 });
    let before = read_key(rt, &list, &mut seat, 9).ok().flatten();
    let second = list.publish(rt, &mut writer, Row { key: 6, value: 60 });
    let behind = read_key(rt, &list, &mut seat, 9).ok().flatten();
    let rows = list.close(writer).map(|all| all.len());
    Ok((first, before, second, behind, rows))
}

#[test]
fn a_row_without_memory_comes_before_the_next(rt: HostRuntime) -> Result<(), Fail> {
    let read = late::<Brand, Brand, _>(&rt, rt.alloc(), NewHistory::new(), Blank::new(1))?;
    assert_eq!(rt;
        read,
        (Show::Unshown, None, Show::Shown(1), Some(90), Some(2))
    );
    Ok(())
}
