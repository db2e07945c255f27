//! Whether a segment ends as it may.
ghost use Rattle.std.specs.Prelude.{◌↔◌, IsTrue};
ghost use Rattle.clog_entry.specs.Soft.{IsSoft};
ghost use Rattle.clog_folder.specs.Entries.{JudgesEnd};

use crate::fault::OpenFault;
use clog_base::Name;
use clog_scan::{Cause, End};

/// Whether a crash may leave a segment torn for this cause: the checks before it failed, or bytes
/// are missing.
fn is_soft(cause: Cause) -> bool
    ensures { IsTrue result ↔ IsSoft cause }
{
    !matches!(
        cause,
        Cause::Version(_) | Cause::Parameters | Cause::HeaderId(_) | Cause::Payload(_)
    )
}

/// Whether a segment ends as it may: clean, or as a crash leaves the last one. Where damage is
/// passed over, it may end in any way. `Damaged` is the only refusal.
pub fn judge_end(name: &Name, end: End, last: bool, ignore: bool) -> Result<(), OpenFault>
    ensures { JudgesEnd ignore last name.now end result }
{
    match end {
        End::Torn(at, cause) if !ignore && !(last && is_soft(cause)) => {
            Err(OpenFault::Damaged(*name, at, cause))
        }
        _ => Ok(()),
    }
}
