//! What holds of the words and the views at each moment, as laws that name the rule.
ghost use Rattle.std.specs.Prelude.{ℕ};
ghost use Rattle.atomic_table.specs.Table.{State};
ghost use Rattle.op_order.specs.declared.view.View.{View};
ghost use Rattle.op_order.specs.Moments.{IsLawfulAt};
ghost use Rattle.op_order.specs.Rule.{Ruled};

use crate::fact::Fact;

/// Each place is free, the root, or retired with one barrier. The words tell the current group, the
/// oldest, and the counts of those between, which stand for their operations; none runs in a group
/// that is passed. While an operation that has looked runs, its place has the value that was
/// published there, is the root or retired behind its group, and is not written next; nor is any
/// other at which the operation has looked.
pub fn each_moment_is_lawful<F: Fact>()
    ensures { (places : ℕ) → (s : State ℕ View) → (rule : Ruled F.fits places s)
        → IsLawfulAt F.fits places rule.part s }
{}
