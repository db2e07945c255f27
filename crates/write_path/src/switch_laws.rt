//! What the answers of a switch say, on worked rows, and what it leaves. Nothing here runs.
ghost use Rattle.std.specs.Prelude.{◌≡◌, ◌≢◌, ℕ, ◌+◌, ◌++◌, List, [], Option, None};
ghost use Rattle.clog_base.specs.declared.cell.Table.{Table};
ghost use Rattle.path_rule.specs.declared.answer.SyncAnswer.{SyncAnswer};
ghost use Rattle.path_rule.specs.declared.view.OwnStep.{OwnStep};
ghost use Rattle.path_rule.specs.declared.view.PathSize.{PathSize};
ghost use Rattle.path_rule.specs.declared.view.View.{View};
ghost use Rattle.path_rule.specs.Calls.{acts};
ghost use Rattle.path_rule.specs.FindsBounds.{Retires};
ghost use Rattle.path_rule.specs.TrailRows.{retired};
ghost use Rattle.sync_core.specs.declared.SyncCore.{SyncCore};
ghost use Rattle.write_path.specs.declared.commit.Commit.{Commit};
ghost use Rattle.write_path.specs.declared.prepared.Prepared.{Prepared};
ghost use Rattle.path_flush.specs.OwnWrites.{writes_of};
ghost use Rattle.path_flush.specs.Opens.{opens};
ghost use Rattle.write_path.specs.SwitchedRows.{found_alone, found_both, found_taken, switched_at};
ghost use Rattle.path_flush.specs.FlushSteps.{AreFlushSteps, Finalises, FlushSteps, SwitchesAlone};
ghost use Rattle.path_flush.specs.FlushSteps.{SwitchesNone};
ghost use Rattle.write_path.specs.Receipts.{IsCommitted};
ghost use Rattle.write_path.specs.Syncs.{Syncs};
ghost use Rattle.write_path.specs.Unretired.{GrowsUnretired};

/// What the steps of a switch tell.
pub fn what_a_switch_tells()
    // A switch behind an entry of 32 bytes, at [28, 60), makes memtable 0 final at 60, and at no
    // other key; behind a marker the next one is final at 68.
    ensures first { Finalises 0 0 0 60 (switched_at 0 60) }
    ensures at_no_other { (key : ℕ) → Finalises 0 0 0 key (switched_at 0 60) → key ≡ 60 }
    ensures second { Finalises 0 0 1 68 (switched_at 1 68) }
    // Such steps leave the seat's list as it was.
    ensures list { (before : List OwnStep) → AreFlushSteps 0 0 (switched_at 0 60)
        × (writes_of (switched_at 0 60 ++ before) ≡ writes_of before) }
    // They are of table 0, and none of a switch of table 1.
    ensures other { ¬ AreFlushSteps 0 1 (switched_at 0 60) }
    // A look at a turn that another seat has is no act, and a switch is six steps, of which one
    // is a look.
    ensures looked { (before : List OwnStep) → acts (found_taken ++ before) ≡ acts before }
    ensures acted { acts (switched_at 0 60) ≡ 5 }
    // Finding a memtable the newest and the least one that is not retired switches nothing.
    ensures unswitched { SwitchesNone (found_alone 7) }
    ensures switched { SwitchesNone (switched_at 0 60) → ⊥ }
    // The switch opens one memtable of table 0, and none of table 1.
    ensures opened { opens 0 (switched_at 0 60) ≡ 1 }
    ensures opened_other { opens 1 (switched_at 0 60) ≡ 0 }
    ensures found { opens 0 (found_alone 7) ≡ 0 }
    // What a flush makes final it had found alone: memtable 0 behind looks that found it so, but
    // neither without them nor in place of one that was found. Of another table nothing is asked.
    ensures alone { SwitchesAlone 0 (switched_at 0 60 ++ found_alone 0) }
    ensures unlooked { ¬ SwitchesAlone 0 (switched_at 0 60) }
    ensures passed_over { ¬ SwitchesAlone 0 (switched_at 1 68 ++ found_alone 0) }
    // Nor where another one is the least that is not retired, or the newest, or was found so later.
    ensures left { ¬ SwitchesAlone 0 (switched_at 1 68 ++ found_both 0 1) }
    ensures older { ¬ SwitchesAlone 0 (switched_at 0 60 ++ found_both 0 1) }
    ensures late { ¬ SwitchesAlone 0 (found_alone 0 ++ switched_at 0 60) }
    ensures of_another { SwitchesAlone 1 (switched_at 0 60) }
{}

/// A flush, or a switch, of one table leaves the memtables of all others.
pub fn what_a_flush_leaves()
    // What it makes final is of its table, and so is what it retires.
    ensures finals { (w t u m key n : ℕ) (v after : View) (s : FlushSteps w t n v after)
        → Finalises w u m key s.steps → u ≡ t }
    ensures retired { (w t n : ℕ) (u : Table) (m : ℕ) (gave : Option ℕ) (v after : View)
        (s : FlushSteps w t n v after) → Retires u m gave s.steps → u.0 ≡ t }
    // It opens no memtable of another one.
    ensures opened { (w t u n : ℕ) (v after : View) (s : FlushSteps w t n v after) → u ≢ t
        → opens u s.steps ≡ 0 }
{}

/// Which steps open no memtable.
pub fn what_opens_no_memtable()
    // Steps of which none is one of a switch, as those of a write and of its commit.
    ensures unswitched { (t : ℕ) (steps : List OwnStep) → SwitchesNone steps → opens t steps ≡ 0 }
    // Those of a sync.
    ensures synced { (w t opened : ℕ) (v after : View) (a : SyncAnswer)
        (s : Syncs w opened v a after) → opens t s.answers.steps.steps ≡ 0 }
    // Steps of two calls together open what each of them does.
    ensures both { (t : ℕ) (newer older : List OwnStep)
        → opens t (newer ++ older) ≡ opens t newer + opens t older }
{}

/// Memtables are switched and retired by flushes and switches alone: commits and syncs make no such
/// step.
pub fn only_flushes_retire()
    // A commit, whatever it answers.
    ensures committed { (mode : SyncCore) (size : PathSize) (w : ℕ) (before : List OwnStep)
        (p : Prepared) (c : Commit) (after : View) → IsCommitted mode size w before p c after
        → GrowsUnretired before after.trail }
    // A sync.
    ensures synced { (w opened : ℕ) (before : View) (a : SyncAnswer) (after : View)
        → Syncs w opened before a after → GrowsUnretired before.trail after.trail }
    // By the one step that retires a memtable a trail does not grow so.
    ensures flushed { ¬ GrowsUnretired [] (retired 0 None) }
    // Nor by those of a switch.
    ensures switched { ¬ GrowsUnretired [] (switched_at 0 60) }
{}
