//! A table file that a store has put, as what is counted has it.
ghost use Rattle.clog_due.specs.Dropping.{IsPublished};

use clog_cells::CellMap;
use clog_segments::Published;
use std::marker::Model;
use std::snapshot::Snapshot;

/// A table file that a store has put: its interval, and its cells for contracts alone.
#[derive(Drop)]
pub struct StoredFile {
    /// A table, and from where to where.
    pub interval: Published,
    /// Its cells, for contracts alone.
    pub cells: Snapshot<CellMap>,
}

impl Model for StoredFile {
    ghost use Rattle.path_core.specs.Keeper.{PutFile};

    ghost Value = { PutFile };

    ghost view = { λ f. record {
      table = f.interval.table.0;
      lower = f.interval.lower.0;
      upper = f.interval.upper.0;
      cells = f.cells.value;
    } };
}

impl StoredFile {
    /// Its interval, without its cells.
    pub fn interval(&self) -> Published
        ensures { IsPublished self.now result }
    {
        self.interval
    }
}
