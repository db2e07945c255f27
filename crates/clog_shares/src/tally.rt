//! How many updates of each table a line has, and how many a writer has logged since its last
//! finished flush of a table.
ghost use Rattle.std.specs.Prelude.{
  ◌≡◌,
  ◌+◌,
  ◌<◌,
  ◌≤◌,
  ◌↔◌,
  ℕ,
  IsTrue,
  false,
  length,
  min,
  slice_index,
  slice_set,
};
ghost use Rattle.std.specs.List.{AllByRecursion};
ghost use Rattle.clog_spec.specs.Sizes.{most_tables, most_updates};
ghost use Rattle.clog_mutation.specs.Limits.{IsWithinLimits, UpdateIsWithinLimits};
ghost use Rattle.clog_shares.specs.Tallied.{HasCounts, IsCountOf};
ghost use Rattle.clog_shares.specs.Tallies.{AddsCounts, HasNone, limit_of};

use clog_base::Table;
use clog_mutation::{Mutation, Update};

/// How many updates of each table a line has.
#[derive(Clone, Copy, Debug)]
pub struct LineCounts {
    /// By the table's number. A line has at most 65,535 of them all.
    pub of_tables: [u16; 16],
}

// Those of a mutation, by their tables.
fn count_updates(updates: &[Update]) -> [u16; 16]
    requires within { AllByRecursion UpdateIsWithinLimits updates.now }
    requires few { length updates.now ≤ most_updates }
    ensures { HasCounts updates.now result }
{
    let mut of_tables = [0; 16];
    for update in updates {
        of_tables[usize::from(update.table.0)] += 1;
    }
    of_tables
}

impl LineCounts {
    /// Those of a line that says this.
    pub(crate) fn of(mutation: &Mutation) -> LineCounts
        requires { IsWithinLimits mutation.now }
        ensures { IsCountOf mutation.now result }
    {
        LineCounts {
            of_tables: count_updates(mutation.updates.as_slice()),
        }
    }
}

/// How many updates of each table a writer has logged since its last finished flush of it.
#[derive(Clone, Copy)]
pub(crate) struct UpdateTally {
    /// The number at which it flushes.
    most: u32,
    /// So many, by the table's number; that number where they are more.
    counts: [u32; 16],
}

impl UpdateTally {
    /// That of a writer that has logged nothing.
    pub(crate) fn new(most: u32) -> UpdateTally
        ensures most { result.most ≡ most }
        ensures none { (t : ℕ) → slice_index result.counts t ≡ 0 }
    {
        UpdateTally {
            most,
            counts: [0; 16],
        }
    }

    /// With those of a further line.
    pub(crate) fn with_line(self, line: LineCounts) -> UpdateTally
        ensures most { result.most ≡ self.most }
        ensures more { (t : ℕ) → t < most_tables → slice_index result.counts t
            ≡ min self.most (slice_index self.counts t + slice_index line.of_tables t) }
    {
        let mut counts = self.counts;
        for table in 0..16 {
            let more = counts[table].saturating_add(u32::from(line.of_tables[table]));
            counts[table] = self.most.min(more);
        }
        UpdateTally {
            most: self.most,
            counts,
        }
    }

    /// With none of a table, which is flushed.
    pub(crate) fn without(self, table: Table) -> UpdateTally
        requires { table.0 < most_tables }
        ensures most { result.most ≡ self.most }
        ensures none { result.counts ≡ slice_set self.counts table.0 0 }
    {
        let mut counts = self.counts;
        counts[usize::from(table.0)] = 0;
        UpdateTally {
            most: self.most,
            counts,
        }
    }

    /// Whether a flush of the table is due.
    pub(crate) fn is_due(&self, table: Table) -> bool
        requires { table.0 < most_tables }
        ensures { IsTrue result ↔ self.now.most ≤ slice_index self.now.counts table.0 }
    {
        self.most <= self.counts[usize::from(table.0)]
    }

    /// Whether a flush of some table is due.
    pub(crate) fn is_any_due(&self) -> bool
        ensures { result ≡ false → (t : ℕ) → t < most_tables
            → slice_index self.now.counts t < self.now.most }
    {
        self.counts.iter().any(|count| self.most <= *count)
    }
}

/// That of a writer that has logged nothing, where it flushes.
pub(crate) fn new_tally(flush_at: Option<u32>) -> Option<UpdateTally>
    ensures limit { limit_of result ≡ flush_at }
    ensures none { HasNone result }
{
    match flush_at {
        Some(most) => Some(UpdateTally::new(most)),
        None => None,
    }
}

/// With the updates of a further line, where they were counted.
pub(crate) fn tally_with(
    tally: Option<UpdateTally>,
    counts: Option<LineCounts>,
) -> Option<UpdateTally>
    ensures limit { limit_of result ≡ limit_of tally }
    ensures adds { AddsCounts tally counts result }
{
    let known = tally?;
    match counts {
        Some(counts) => Some(known.with_line(counts)),
        None => Some(known),
    }
}
