//! Whether a seat may issue a further barrier, as each commit, sync, switch and flush asks. No test
//! comes near the limit, and so none has to count.
ghost use Rattle.std.specs.Prelude.{◌^◌, ◌≤◌, IfOk};
ghost use Rattle.path_rule.specs.Issued.{issued_in};
ghost use Rattle.path_table.specs.Members.{view_of};

use std::test::*;
use write_path::{MOST_ISSUED, PathSeat};

// Refuses a seat that has issued too many.
pub(crate) fn may_issue<K>(seat: &PathSeat<K>) -> Result<(), Fail>
    ensures { IfOk result (λ _. issued_in (view_of seat.now.member).trail ≤ 2 ^ 40) }
{
    if seat.issued() > MOST_ISSUED {
        return Err(Fail::new("too many barriers"));
    }
    Ok(())
}
