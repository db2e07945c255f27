//! What a keeper shows of the machine, and what it has beside its log. They are ghosts: no value of
//! them is made.
ghost use base.Fml.{ftrue};
ghost use base.Stored.{Gv};
ghost use Rattle.path_rule.specs.Codes.{itself};

use clog_cells::CellMap;
use path_core::EntryNote;
use std::collections::LinkedList;
use std::marker::Model;

/// What a keeper has beside its log. No call changes it.
#[derive(Drop)]
pub struct Beside {
    /// How many tables there are.
    pub tables: u64,
    /// How many writers there may be.
    pub writers: u64,
    /// Whether a segment that it drops gets its archive name first.
    pub archives: bool,
    /// Its disk when it was opened, by the code of the disk's type.
    pub ghost disk: { Gv } by { itself },
}

impl Model for Beside {
    ghost also_owns = { λ _. ftrue };
}

/// A table file that a keeper has put: it stands for the entries of a table that end above one key
/// and not above another.
#[derive(Drop)]
pub struct PutTable {
    /// The table.
    pub table: u64,
    /// The key above which its entries end.
    pub lower: u64,
    /// The key at or below which they end.
    pub upper: u64,
    /// The newest cell of each key in them.
    pub cells: CellMap,
}

/// What a keeper has done beside its log.
#[derive(Drop)]
pub struct Filed {
    /// The table files that it has put, the first one in front.
    pub files: LinkedList<PutTable>,
    /// Whether the keeper has a refused table file in mind.
    pub refused: bool,
    /// The ordinals of the segments that got their archive names: one counts again where its
    /// removal was refused behind the name.
    pub archived: LinkedList<u64>,
}

/// What a keeper has made of the log.
#[derive(Drop)]
pub struct Lasting {
    /// The entries that it made lasting, in the order of the log.
    pub logged: LinkedList<EntryNote>,
    /// The key up to which it made the log lasting.
    pub synced: u64,
    /// The ordinals of the segments that it dropped.
    pub dropped: LinkedList<u64>,
    /// The entries of a sync that was refused, until one ends well.
    pub kept: LinkedList<EntryNote>,
    /// Its disk's count of faults, once it has stopped. No call is made of it then.
    pub stopped: Option<u64>,
    /// That count when it was opened.
    pub at_open: u64,
    /// The bytes of a segment.
    pub capacity: u64,
    /// How many segments its log may have.
    pub ordinals: u64,
    /// The id of the first one.
    pub base: u64,
    /// What it has done beside its log.
    pub filed: Filed,
    /// What it has beside its log.
    pub beside: Beside,
}
