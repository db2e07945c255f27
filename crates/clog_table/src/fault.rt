//! Why bytes are no table file.
use clog_base::OutOfMemory;

/// The first rule of the format that the bytes break. A number is the offset, in bytes, of what is
/// refused, or the version that was found.
#[derive(Clone, Copy, Debug, PartialEq, Eq)]
pub enum TableFault {
    /// Fewer bytes than a head has (37), or fewer than 4 behind the cells.
    Short,
    /// The version is another than 1.
    Version(u32),
    /// The head's check is wrong.
    HeadCheck,
    /// The file is of a table above 15, or of another than was asked for.
    Table,
    /// The lower end of the interval is above the upper one.
    Interval,
    /// No cell stands here: it does not fit, or breaks a limit, UTF-8 or the tag.
    Cell(u64),
    /// The cell here is not above the one before it.
    Order(u64),
    /// The check of the cells is wrong.
    CellsCheck,
    /// Bytes stand behind the last check, from here on.
    Trailing(u64),
    /// Memory was refused.
    OutOfMemory,
}

impl From<OutOfMemory> for TableFault {
    ghost use Rattle.std.specs.Prelude.{◌≡◌};
    ghost use Rattle.clog_table.specs.declared.fault.TableFault.TheVariants.{
      OutOfMemory as no_memory,
    };

    ghost from_gives = { λ _ e. e ≡ no_memory };

    fn from(_: OutOfMemory) -> Self {
        TableFault::OutOfMemory
    }
}
