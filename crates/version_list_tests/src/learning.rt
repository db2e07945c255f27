//! Two seats publish in two threads, and a third one that learns from both reads what each wrote.
ghost use Rattle.std.specs.Prelude.{◌≡◌, ◌<◌};

use crate::finding::read_key;
use crate::hold::Hold;
use crate::row::Row;
use crate::rows::{Rows, two_empty};
use std::alloc::Global;
use std::marker::Brand;
use std::sync::ledger::{Blank, Ledger};
use std::sync::{Arc, Wait};
use std::test::*;
use std::thread::{Threads, join};
use version_list::{Naming, NewHistory, Show, Sides, VersionList, WriteSeat};

// A row is published.
fn put<R: Wait, J: Naming, L: Ledger, W: Wait + Drop>(
    rt: &R,
    list: &VersionList<Row, J, L, Sides<Rows, Row, J, W>>,
    mut seat: WriteSeat<Rows, Row, J, L>,
    row: Row,
) -> (WriteSeat<Rows, Row, J, L>, Show)
    requires { 0 < seat.share.parts }
    ensures { result.0.share.parts ≡ seat.share.parts }
{
    let show = list.publish(rt, &mut seat, row);
    (seat, show)
}

// Whether two seats published, what a third one reads of both then, and how many rows there are.
fn both<J: Naming + Send + Sync, L: Ledger + Send + Sync, R: Threads + Wait + Sync>(
    rt: &R,
    alloc: Global,
    history: NewHistory<Row>,
    made: Blank,
) -> Result<(bool, Option<u64>, Option<u64>, Option<u64>), Fail>
    requires history { history.seen.book ≡ J.book }
    requires ledger { (made.name ≡ L.name) × (made.parts ≡ L.parts) × (L.parts ≡ 2) }
{
    let hold = Arc::new(alloc, Hold::new())?;
    let values = two_empty(alloc, &hold)?;
    let (list, mut one) = VersionList::<Row, J, L, _>::open(alloc, rt, values, 3, history, made)?;
    let mut seat = one.view.again()?;
    let two = one.split()?;
    let ((mut one, a), (mut two, b)) = join(
        rt,
        || -> (WriteSeat<Rows, Row, J, L>, Show)
            requires { one.share.parts ≡ 1 }
            ensures { result.0.share.parts ≡ 1 }
        { put(rt, &list, one, Row { key: 6, value: 60 }) },
        || -> (WriteSeat<Rows, Row, J, L>, Show)
            requires { two.share.parts ≡ 1 }
            ensures { result.0.share.parts ≡ 1 }
        { put(rt, &list, two, Row { key: 7, value: 70 }) },
    );
    list.learn(&mut seat, &mut one.view);
    list.learn(&mut seat, &mut two.view);
    let six = read_key(rt, &list, &mut seat, 6).ok().flatten();
    let seven = read_key(rt, &list, &mut seat, 7).ok().flatten();
    one.merge(two);
    let rows = list.close(one).map(|all| all.len());
    Ok((a != Show::Unshown && b != Show::Unshown, six, seven, rows))
}

#[test]
fn who_learns_reads_what_others_wrote(rt: HostRuntime) -> Result<(), Fail> {
    let read = both::<Brand, Brand, _>(&rt, rt.alloc(), NewHistory::new(), Blank::new(2))?;
    assert_eq!(rt; read, (true, Some(60), Some(70), Some(2)));
    Ok(())
}
