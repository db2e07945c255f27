//! What an opening may refuse a folder for: its first bad table file, and its first damage.
ghost use Rattle.std.specs.Prelude.{◌≡◌, [], ◌∷◌, ℕ, List};
ghost use Rattle.clog_spec.specs.Names.{segment_name_of};
ghost use Rattle.clog_base.specs.declared.fault.PayloadFault.TheVariants.{BadTag};
ghost use Rattle.clog_disk.specs.Files.{Files};
ghost use Rattle.clog_entry.specs.declared.cause.Cause.{Cause};
ghost use Rattle.clog_entry.specs.declared.cause.Cause.TheVariants.{MarkerCheck, Payload};
ghost use Rattle.clog_table.specs.declared.fault.TableFault.{TableFault};
ghost use Rattle.clog_crash.specs.Damage.{AreSegmentFiles, IsFirstDamage};
ghost use Rattle.clog_crash.specs.Folder.{AreGoodTables, IsFirstBad};
ghost use Rattle.clog_crash.specs.Restore.{IsRestored, IsUndamaged};
ghost use Rattle.clog_crash.specs.Worked.{logged};
ghost use Rattle.clog_crash.specs.WorkedTorn.{bad_alone, torn_alone, torn_and_next};

/// A folder has one first bad table file at most, and none where all table files are good.
pub fn a_folder_has_one_first_bad_table()
    ensures one { (files : Files) (name name' : List ℕ) (fault fault' : TableFault)
        → IsFirstBad files name fault → IsFirstBad files name' fault'
        → (name ≡ name') × (fault ≡ fault') }
    ensures good { (files : Files) (name : List ℕ) (fault : TableFault) → AreGoodTables files
        → ¬ IsFirstBad files name fault }
{}

/// A folder has one first damage at most, and none where it is not damaged.
pub fn a_folder_has_one_first_damage()
    ensures one { (files : Files) (name name' : List ℕ) (at at' : ℕ) (cause cause' : Cause)
        → AreSegmentFiles files → IsFirstDamage files name at cause
        → IsFirstDamage files name' at' cause'
        → (name ≡ name') × (at ≡ at') × (cause ≡ cause') }
    ensures undamaged { (files : Files) (name : List ℕ) (at : ℕ) (cause : Cause)
        → AreSegmentFiles files → IsUndamaged files → ¬ IsFirstDamage files name at cause }
{}

/// A worked row: segment 1000 has a wrong check in its first marker. Where it is the only segment,
/// it is a crash's tail, and the folder is not damaged. With an empty segment 1001 behind it, it is
/// damage, at 20.
pub fn a_torn_segment_is_a_tail_or_damage()
    ensures alone { IsUndamaged torn_alone }
    ensures next { IsFirstDamage torn_and_next (segment_name_of 6 1000) 20 MarkerCheck }
{}

/// A worked row: of the two entries of segment 1000 the first has a payload with a wrong tag, at
/// 19. That is damage, at the entry's start, although no other segment is there. Past it the second
/// entry counts.
pub fn a_bad_payload_is_damage()
    ensures first { IsFirstDamage bad_alone (segment_name_of 6 1000) 28 (Payload (BadTag 19)) }
    ensures past { IsRestored bad_alone (logged ∷ []) }
{}
