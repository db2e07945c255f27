//! A store is the keeper of a path's log.
use crate::store::Store;
use clog_base::{Key, Table};
use clog_cells::CellMap;
use clog_disk::Disk;
use path_core::{EntryNote, Keeper, KeeperFault};

impl<D: Disk> Keeper for Store<D> {
    ghost use Rattle.clog_segments.specs.StoreState.{holding_of};

    ghost holds = { λ s. holding_of D.files D.changes D.moment D.faults D.row.coded.code s };

    fn sync(&mut self, pending: &mut Vec<EntryNote>, upto: Key) -> Result<(), KeeperFault> {
        self.make_lasting(pending, upto)
    }

    fn publish(
        &mut self,
        table: Table,
        lower: Key,
        upper: Key,
        cells: &CellMap,
    ) -> Result<(), KeeperFault> {
        self.put_table(table, lower, upper, cells)
    }

    fn discard(&mut self, closed: u32) -> Result<u32, KeeperFault> {
        self.drop_due(closed)
    }

    fn at_open(&self) -> u64 {
        self.at_open
    }
}
