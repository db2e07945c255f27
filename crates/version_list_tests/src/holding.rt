//! A seat reads while a publication is held in the midst of it: it finds what was shown before.
ghost use Rattle.std.specs.Prelude.{◌≡◌, ◌<◌};

use crate::finding::read_key;
use crate::hold::Hold;
use crate::row::Row;
use crate::rows::two_empty;
use std::alloc::Global;
use std::marker::Brand;
use std::sync::ledger::{Blank, Ledger};
use std::sync::{Arc, Wait};
use std::test::*;
use std::thread::{Threads, join};
use version_list::{Naming, NewHistory, Show, VersionList};

// What a seat reads of a row that is shown and of one whose publication is held, and whether that
// was held.
fn beside<J: Naming + Send + Sync, L: Ledger + Send + Sync, R: Threads + Wait + Sync>(
    rt: &R,
    alloc: Global,
    history: NewHistory<Row>,
    made: Blank,
) -> Result<(Option<u64>, Option<u64>, Show, bool), Fail>
    requires history { history.seen.book ≡ J.book }
    requires ledger { (made.name ≡ L.name) × (made.parts ≡ L.parts) × (0 < L.parts) }
{
    let hold = Arc::new(alloc, Hold::new())?;
    let values = two_empty(alloc, &hold)?;
    let (list, mut writer) = VersionList::<Row, J, L, _>::open(
        alloc, rt, values, 2, history, made,
    )?;
    let mut seat = writer.view.again()?;
    list.publish(rt, &mut writer, Row { key: 6, value: 60 });
    let ((shown, held), show) = join(
        rt,
        || -> (Option<u64>, Option<u64>) {
            hold.reader_comes();
            let shown = read_key(rt, &list, &mut seat, 6).ok().flatten();
            let held = read_key(rt, &list, &mut seat, 8).ok().flatten();
            hold.reader_goes();
            (shown, held)
        },
        || -> Show
            requires { 0 < writer.share.parts }
        { list.publish(rt, &mut writer, Row { key: 8, value: 80 }) },
    );
    Ok((shown, held, show, hold.ended_well()))
}

#[test]
fn a_seat_reads_while_a_publication_is_held(rt: HostRuntime) -> Result<(), Fail> {
    let read = beside::<Brand, Brand, _>(&rt, rt.alloc(), NewHistory::new(), Blank::new(1))?;
    assert_eq!(rt; read, (Some(60), None, Show::Shown(1), true));
    Ok(())
}
