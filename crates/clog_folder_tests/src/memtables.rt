//! A memtable to which nothing was written. What a filled one holds is the contract.
use clog_base::{Key, OutOfMemory, Table};
use clog_memtable::{Interval, cells_within};

#[test]
fn no_entries_fill_no_cell(rt: HostRuntime) -> Result<(), OutOfMemory> {
    let interval = Interval {
        table: Table(15),
        lower: Key(0),
        upper: Key(100),
    };
    let cells = cells_within(rt.alloc(), &[], interval)?;
    assert_eq!(rt; cells.len(), 0);
    Ok(())
}
