//! Which updates table files stand for.
ghost use Rattle.std.specs.Prelude.{◌↔◌, IsTrue};
ghost use Rattle.clog_crash.specs.Restore.{IsInInterval};
ghost use Rattle.replay_merge.specs.Skipping.{IsFiled, StandsFor};

use clog_base::{Position, Table};
use clog_folder::TableHeld;
use clog_table::TableFile;

/// Whether the file's interval holds the position: it is above the lower end and up to the upper.
fn is_inside(file: &TableFile, at: Position) -> bool
    ensures { IsTrue result ↔ IsInInterval file.now at }
{
    file.lower.is_below(at) && at.is_up_to(file.upper)
}

/// Whether the file stands for a position of the table.
fn stands_for(held: &TableHeld, table: Table, at: Position) -> bool
    ensures { IsTrue result ↔ StandsFor held.now table at }
{
    held.file.table == table && is_inside(&held.file, at)
}

/// Whether one of the files stands for a position of the table.
pub(crate) fn is_filed(tables: &[TableHeld], table: Table, at: Position) -> bool
    ensures { IsTrue result ↔ IsFiled tables.now table at }
{
    tables.iter().any(
        |held: &TableHeld| -> bool
            ensures { IsTrue result ↔ StandsFor held.now table at }
        { stands_for(held, table, at) },
    )
}
