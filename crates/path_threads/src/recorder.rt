//! A keeper that records what it made lasting, and how often it was called for that. Before each
//! sync it lets other threads run, as a keeper over a slow disk would.
ghost use Rattle.std.specs.Prelude.{◌≡◌};

use clog_base::{Key, Table};
use clog_cells::CellMap;
use path_core::{EntryNote, Keeper, KeeperFault};
use std::thread::yield_now;

/// An entry that was made lasting.
#[derive(Clone, Copy, Debug, PartialEq, Eq)]
pub struct Row {
    /// The line of its write.
    pub line: u32,
    /// Its writer.
    pub writer: u8,
    /// Where its range of the log begins.
    pub start: Key,
    /// Where it ends, exclusive.
    pub end: Key,
    /// The number of the call that made it lasting, from 1.
    pub sync: u64,
}

/// What a keeper was lent.
#[derive(Drop)]
pub struct Lent {
    /// A row for each entry that was made lasting, in the order of the syncs. One for which there
    /// was no memory is missing.
    pub rows: Vec<Row>,
    /// How often the keeper was called to sync.
    pub syncs: u64,
}

/// A keeper, and what it was lent.
#[derive(Drop)]
pub struct Recorder<K> {
    keeper: K,
    lent: Lent,
    /// How often other threads are let run before each sync.
    turns: u8,
}

impl<K> Recorder<K> {
    /// A recorder over a keeper, which lets other threads run so often before each sync.
    pub fn new(keeper: K, rows: Vec<Row>, turns: u8) -> Recorder<K>
        ensures { result.keeper ≡ keeper }
    {
        Recorder {
            keeper,
            lent: Lent { rows, syncs: 0 },
            turns,
        }
    }

    /// The keeper, and what it was lent.
    pub fn into_parts(self) -> (K, Lent)
        ensures { result.0 ≡ self.keeper }
    {
        let Recorder {
            keeper,
            lent,
            turns: _,
        } = self;
        (keeper, lent)
    }
}

// Adds a row for each entry up to a key that a call makes lasting, or as many as there is memory
// for.
fn add_rows(rows: &mut Vec<Row>, pending: &[EntryNote], upto: Key, sync: u64) {
    for note in pending {
        let row = Row {
            line: note.line,
            writer: note.writer.0,
            start: note.start,
            end: note.end,
            sync,
        };
        if note.end <= upto && rows.push(row).is_err() {
            return;
        }
    }
}

// Lets other threads run, so often.
fn let_others_run(turns: u8) {
    for _ in 0..turns {
        yield_now();
    }
}

impl<K: Keeper> Keeper for Recorder<K> {
    ghost holds = { λ r. K.holds r.keeper };

    fn sync(&mut self, pending: &mut Vec<EntryNote>, upto: Key) -> Result<(), KeeperFault> {
        let_others_run(self.turns);
        let before = self.lent.rows.len();
        self.lent.syncs = self.lent.syncs.saturating_add(1);
        let number = self.lent.syncs;
        add_rows(&mut self.lent.rows, pending.as_slice(), upto, number);
        let synced = self.keeper.sync(pending, upto);
        if synced.is_err() {
            self.lent.rows.truncate(before);
        }
        synced
    }

    fn publish(
        &mut self,
        table: Table,
        lower: Key,
        upper: Key,
        cells: &CellMap,
    ) -> Result<(), KeeperFault> {
        self.keeper.publish(table, lower, upper, cells)
    }

    fn discard(&mut self, closed: u32) -> Result<u32, KeeperFault> {
        self.keeper.discard(closed)
    }

    fn at_open(&self) -> u64 {
        self.keeper.at_open()
    }
}
