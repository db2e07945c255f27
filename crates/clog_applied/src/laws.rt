//! What follows for a run whose path is closed and whose store is left.
ghost use Rattle.std.specs.Prelude.{ℕ, List, length};
ghost use Rattle.clog_base.specs.declared.cell.Cell.{Cell};
ghost use Rattle.clog_base.specs.declared.cell.CellKey.{CellKey};
ghost use Rattle.clog_disk.specs.declared.change.Change.{Change};
ghost use Rattle.clog_disk.specs.Files.{Files};
ghost use Rattle.clog_mutation.specs.declared.mutation.Mutation.{Mutation};
ghost use Rattle.clog_words.specs.declared.request.ApplyOptions.{ApplyOptions};
ghost use Rattle.clog_crash.specs.Restore.{IsAdded, IsRestored};
ghost use Rattle.clog_applied.specs.Applied.{IsAppliedRun, MergeIsKept};
ghost use Rattle.clog_applied.specs.Asked.{flushes};
ghost use Rattle.clog_applied.specs.Closed.{ClosedRun};
ghost use Rattle.clog_applied.specs.Early.{NothingGoesEarly};
ghost use Rattle.clog_applied.specs.Filed.{TableFilesAreTrue};
ghost use Rattle.clog_applied.specs.Flushed.{FlushLimitIsMet};
ghost use Rattle.clog_applied.specs.Log.{LogHoldsEachLineOnce};
ghost use Rattle.clog_applied.specs.Printed.{ReportIsPrinted};

/// What a run promises follows from what its closed path tells and its store keeps; with a report
/// that is printed right, all of it.
pub fn closed_runs_keep_their_promises()
    ensures merge_is_kept { (o : ApplyOptions) (before after : Files) (changes : List Change)
        (mutations : List Mutation) → ClosedRun o before after changes mutations
        → MergeIsKept before after mutations }
    ensures log_holds_each_line_once { (o : ApplyOptions) (before after : Files)
        (changes : List Change) (mutations : List Mutation)
        → (c : ClosedRun o before after changes mutations)
        → LogHoldsEachLineOnce o before after changes mutations c.ids c.history }
    ensures table_files_are_true { (o : ApplyOptions) (before after : Files)
        (changes : List Change) (mutations : List Mutation)
        → (c : ClosedRun o before after changes mutations)
        → TableFilesAreTrue (flushes o) before after c.base c.ids c.history c.files }
    ensures flush_limit_is_met { (o : ApplyOptions) (before after : Files) (changes : List Change)
        (mutations : List Mutation) → (c : ClosedRun o before after changes mutations)
        → FlushLimitIsMet o c.base mutations c.history c.files }
    ensures nothing_goes_early { (o : ApplyOptions) (before after : Files) (changes : List Change)
        (mutations : List Mutation) → (c : ClosedRun o before after changes mutations)
        → NothingGoesEarly o.archive o.drain before after changes c.ids c.history c.files }
    ensures all_with_its_report { (o : ApplyOptions) (before after : Files)
        (changes : List Change) (mutations : List Mutation) (report : List ℕ)
        → (c : ClosedRun o before after changes mutations)
        → ReportIsPrinted o after (length mutations) c.history report
        → IsAppliedRun o before after changes mutations report }
{}

/// Where a folder restored rows before, a run that keeps the merge has added its lines to these.
pub fn kept_merges_are_added()
    ensures { (before after : Files) (mutations : List Mutation) (rows : List (CellKey × Cell))
        → MergeIsKept before after mutations → IsRestored before rows
        → IsAdded before after mutations }
{}
