//! A table's part of the log: the union of the intervals of its files, and the hull of its entries
//! in each segment. A place of the log is a position whose id is the segment's ordinal.
ghost use Rattle.std.specs.Prelude.{◌↔◌, ◌<◌, ◌≤◌, [], IsTrue, IfOk, OnOk, length, take};
ghost use Rattle.std.specs.List.{All};
ghost use Rattle.clog_spec.specs.Sizes.{most_tables};
ghost use Rattle.clog_due.specs.Counting.{AreTables, IsTableOf};
ghost use Rattle.clog_due.specs.Dropping.{ArePlaced, IsFiledAt};

mod growing;

use crate::hulls::Hulls;
use crate::stored_file::StoredFile;
use crate::table_log::growing::{add_entries, add_files};
use clog_base::{MOST_TABLES, OutOfMemory, Table};
use clog_intervals::Cleans;
use path_core::EntryNote;
use std::alloc::Global;

/// A table's part of the log: what files hold of it, and its hull in the segment of each ordinal.
#[derive(Drop)]
pub(crate) struct TableLog {
    pub hulls: Hulls,
    pub cleans: Cleans,
    pub table: Table,
}

impl TableLog {
    // Nothing of a table; takes no memory.
    fn empty(alloc: Global, table: Table) -> TableLog
        requires { table.0 < most_tables }
        ensures { IsTableOf table.0 [] [] result }
    {
        TableLog {
            table,
            cleans: Cleans::new(alloc),
            hulls: Hulls::new(alloc),
        }
    }

    // With the entries and the files from these on too.
    fn grow(
        &mut self,
        notes: &[EntryNote],
        first_note: usize,
        files: &[StoredFile],
        first_file: usize,
    ) -> Result<(), OutOfMemory>
        requires placed { ArePlaced notes.now }
        requires few_notes { first_note ≤ length notes.now }
        requires few_files { first_file ≤ length files.now }
        requires is { IsTableOf self.old.table.0 (take first_note notes.now)
            (take first_file files.now) self.old }
        ensures { OnOk result (IsTableOf self.old.table.0 notes.now files.now self.new) }
    {
        add_entries(&mut self.hulls, notes, first_note, self.table)?;
        add_files(&mut self.cleans, files, first_file, self.table)
    }

    // Whether files hold the table's part of a segment, from its first position to its last.
    fn is_filed(&self, ordinal: u64) -> bool
        ensures { IsTrue result ↔ IsFiledAt ordinal self.now }
    {
        self.cleans.covers(&self.hulls.at(ordinal))
    }
}

/// All tables' parts of an empty log, in the order of tables.
pub(crate) fn no_tables(alloc: Global) -> Result<Vec<TableLog>, OutOfMemory>
    ensures { IfOk result (λ tables. AreTables 0 most_tables [] [] tables.items) }
{
    let mut tables = Vec::new(alloc);
    for number in 0..MOST_TABLES {
        tables.push(TableLog::empty(alloc, Table(number)))?;
    }
    Ok(tables)
}

/// All tables' parts with the entries and the files from these on too.
pub(crate) fn grown_tables(
    alloc: Global,
    tables: Vec<TableLog>,
    notes: &[EntryNote],
    first_note: usize,
    files: &[StoredFile],
    first_file: usize,
) -> Result<Vec<TableLog>, OutOfMemory>
    requires placed { ArePlaced notes.now }
    requires few_notes { first_note ≤ length notes.now }
    requires few_files { first_file ≤ length files.now }
    requires are { AreTables 0 most_tables (take first_note notes.now) (take first_file files.now)
        tables.items }
    ensures { IfOk result (λ grown. AreTables 0 most_tables notes.now files.now grown.items) }
{
    let mut grown = Vec::new(alloc);
    for table in tables {
        let mut log = table;
        log.grow(notes, first_note, files, first_file)?;
        grown.push(log)?;
    }
    Ok(grown)
}

/// Whether all tables' files hold their parts of a segment.
pub(crate) fn are_filed(tables: &[TableLog], ordinal: u64) -> bool
    ensures { IsTrue result ↔ All (IsFiledAt ordinal) tables.now }
{
    tables.iter().all(|table| table.is_filed(ordinal))
}
