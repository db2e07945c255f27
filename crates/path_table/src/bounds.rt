//! Up to which key the memtables of each table were switched, as a closed table tells it.
ghost use Rattle.std.specs.Prelude.{◌≡◌, ◌+◌, ◌*◌, ◌<◌, ◌≤◌, ℕ, slice_index};
ghost use Rattle.std.specs.Slots.{slots_items, slots_len, IsFull};
ghost use Rattle.path_rule.specs.Layout.{numbers_end};
ghost use Rattle.path_table.specs.ClosedBounds.{last_key};

use crate::words::{BOUNDS, NEWEST, RAISING};
use atomic_table::Closed;
use clog_base::{Key, Table};
use path_rule::Slot;
use std::alloc::Global;

/// Of each table its last final bound: that of the memtable below its newest one, key 0 where there
/// is none.
#[derive(Clone, Copy, Debug, PartialEq, Eq)]
pub struct TableBounds {
    /// By the table's number.
    keys: [u64; 16],
}

impl TableBounds {
    /// That of a table.
    pub fn of(&self, table: Table) -> Key
        requires { table.0 < 16 }
        ensures { result.0 ≡ slice_index self.now.keys table.0 }
    {
        let key = self.keys[table.0 as usize];
        Key(key)
    }
}

// That of one table, as its words tell it.
fn last_bound<K>(closed: &Closed<Slot<K>, Global>, table: usize) -> u64
    requires full { IsFull closed.now.words }
    requires wide { 704 ≤ slots_len closed.now.words }
    requires table { table < 16 }
    requires few { slice_index (slots_items closed.now.words) (64 + 4 * table) ≤ numbers_end }
    ensures { result ≡ last_key (slots_items closed.now.words) table }
{
    let newest = closed.word(NEWEST + 4 * table);
    if newest == 0 {
        return 0;
    }
    let word = closed.word(BOUNDS + 16 * ((newest - 1) % 4) as usize + table);
    word % RAISING
}

// Those of all tables.
pub(crate) fn last_bounds<K>(closed: &Closed<Slot<K>, Global>) -> TableBounds
    requires full { IsFull closed.now.words }
    requires wide { 704 ≤ slots_len closed.now.words }
    requires few { (t : ℕ) → t < 16
        → slice_index (slots_items closed.now.words) (64 + 4 * t) ≤ numbers_end }
    ensures { (t : ℕ) → t < 16
        → slice_index result.keys t ≡ last_key (slots_items closed.now.words) t }
{
    let mut keys = [0; 16];
    for table in 0..16 {
        keys[table] = last_bound(closed, table);
    }
    TableBounds { keys }
}
