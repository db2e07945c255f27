//! Worked rows: what runs over an empty folder do keeps what a run promises.
ghost use Rattle.std.specs.Prelude.{◌≡◌, ◌++◌, false, length, true};
ghost use Rattle.sync_core.specs.declared.SyncCore.TheVariants.{Batch, Periodic};
ghost use Rattle.clog_disk.specs.Files.{no_files};
ghost use Rattle.clog_mutation.specs.declared.mutation.Mutation.{Mutation};
ghost use Rattle.clog_mutation.specs.Payload.{payload_of};
ghost use Rattle.clog_mutation.specs.Stored.{IsStored};
ghost use Rattle.clog_applied.specs.Applied.{IsAppliedRun};
ghost use Rattle.clog_applied.specs.Worked.{
  archived_changes,
  asked,
  asked_to_archive,
  both_bytes,
  both_changes,
  drained_changes,
  each_changes,
  first_bytes,
  one_line,
  report_of_one,
  report_of_two,
  second_bytes,
  two_lines,
  with_file,
  with_log,
};
ghost use Rattle.clog_applied.specs.WorkedRuns.{
  asked_for_small,
  asked_to_flush,
  large_changes,
  large_lines,
  next_changes,
  report_of_large,
  report_of_next,
  with_archive,
  with_both,
  with_next,
};

/// Two lines, each with an entry of 32 bytes. With one sync they stand in one section, from 28 to
/// 60 and from 60 to 92. In batch mode a marker stands between: from 28 to 60 and from 68 to 100.
pub fn lines_are_synced_once_or_each()
    ensures once { IsAppliedRun (asked (Periodic 10000) false) no_files (with_log both_bytes)
        both_changes two_lines (report_of_two 92) }
    ensures each { IsAppliedRun (asked Batch false) no_files
        (with_log (first_bytes ++ second_bytes)) each_changes two_lines (report_of_two 100) }
{}

/// One line, drained: its segment gets it, a table file comes up to its end, and the segment goes;
/// where archives are kept, behind its archive name, under which it stays. The same comes of one
/// update, where the writer flushes at one.
pub fn a_drained_line_is_in_a_table_file()
    ensures applied { IsAppliedRun (asked (Periodic 10000) true) no_files with_file drained_changes
        one_line report_of_one }
    ensures archived { IsAppliedRun asked_to_archive no_files with_archive archived_changes one_line
        report_of_one }
    ensures flushed { IsAppliedRun asked_to_flush no_files with_file drained_changes one_line
        report_of_one }
{}

/// One line over the folder that such a run has left: it stands in the next segment, behind all
/// that the table file stands for.
pub fn a_line_comes_behind_a_table_file()
    ensures { IsAppliedRun (asked (Periodic 10000) false) with_file with_next next_changes one_line
        report_of_next }
{}

/// Two lines whose entries have 2048 bytes each, in segments of at most 4096: the second line
/// stands in the next segment. There is such a line.
pub fn lines_go_on_in_the_next_segment()
    ensures applied { (m : Mutation) → IsStored m → length (payload_of m) ≡ 2036
        → IsAppliedRun asked_for_small no_files (with_both m) (large_changes m) (large_lines m)
        report_of_large }
    ensures a_line { (m : Mutation) × IsStored m × (length (payload_of m) ≡ 2036) }
{}
