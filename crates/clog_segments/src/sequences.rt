//! The greatest sequence of each table's files: it decides which name a further file gets.
ghost use Rattle.std.specs.Prelude.{
  ◌≡◌,
  ◌+◌,
  ◌<◌,
  ◌^◌,
  List,
  Option,
  Some,
  get_or,
  max,
  set,
  ℕ,
};
ghost use Rattle.clog_spec.specs.Names.{table_name_of};
ghost use Rattle.clog_spec.specs.Sizes.{most_tables};
ghost use Rattle.clog_crash.specs.Folder.{IsBase};
ghost use Rattle.clog_disk.specs.Files.{Files, PutsAt};
ghost use Rattle.clog_segments.specs.Named.{HasSequence, OneHas};
ghost use Rattle.clog_segments.specs.Numbering.{AreGreatest, KeepsSequences};

use crate::naming::next_sequence;
use clog_base::{MOST_TABLES, Name, Table};

/// The greatest sequence of each table's files, 0 where a table has none.
#[derive(Clone, Copy)]
pub struct Sequences {
    greatest: [u64; 16],
}

fn greatest_of(names: &[Name], table: Table) -> u64
    ensures { IsBase (OneHas (HasSequence table) names.now) 1 (result + 1) }
{
    next_sequence(names, table) - 1
}

impl Sequences {
    /// Those of the files that have these names.
    pub(crate) fn of(names: &[Name]) -> Sequences
        ensures { AreGreatest names.now result.greatest }
    {
        let mut greatest = [0; 16];
        for number in 0..MOST_TABLES {
            greatest[usize::from(number)] = greatest_of(names, Table(number));
        }
        Sequences { greatest }
    }

    /// That of a table.
    pub fn greatest(&self, table: Table) -> u64
        ensures { result ≡ get_or self.now.greatest table.0 0 }
    {
        match self.greatest.get(usize::from(table.0)) {
            Some(greatest) => *greatest,
            None => 0,
        }
    }

    // With a file of this sequence too.
    fn raised(self, table: Table, sequence: u64) -> Sequences
        requires { table.0 < most_tables }
        ensures { result.greatest
            ≡ set self.greatest table.0 (max (get_or self.greatest table.0 0) sequence) }
    {
        let mut greatest = self.greatest;
        let place = usize::from(table.0);
        greatest[place] = greatest[place].max(sequence);
        Sequences { greatest }
    }
}

/// What is known once a file of a table has come, with this sequence.
pub(crate) fn with_file(known: Option<Sequences>, table: Table, sequence: u64) -> Option<Sequences>
    requires table { table.0 < most_tables }
    requires starts { 0 < sequence }
    requires fits { sequence < 2 ^ 63 }
    ensures { (told now : Option Files) (bytes : List ℕ) → KeepsSequences told known
        → PutsAt told now (table_name_of table.0 sequence) (Some bytes)
        → KeepsSequences now result }
{
    match known {
        Some(known) => Some(known.raised(table, sequence)),
        None => None,
    }
}
