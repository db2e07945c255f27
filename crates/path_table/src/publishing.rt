//! What the keeper on a desk is asked as a memtable goes to a table file.
ghost use Rattle.std.specs.Prelude.{
  ◌≡◌,
  ◌==◌,
  ◌<◌,
  ℕ,
  if◌then◌else◌,
  slice_index,
  IfOk,
  OnErr,
  OnOk,
};
ghost use Rattle.path_core.specs.Keeper.{
  DropRefused,
  Drops,
  MayPublish,
  PublishRefused,
  Publishes,
};
ghost use Rattle.path_rule.specs.Desks.{pending_on};
ghost use Rattle.path_rule.specs.Lasts.{stopped_with};
ghost use Rattle.path_rule.specs.SyncEnd.{stopped_by, TellsFaults};

use clog_base::{Key, Table};
use clog_cells::CellMap;
use path_core::{Keeper, KeeperFault};
use path_rule::Desk;

// Puts a table file by the keeper of a desk, which tells then where the table's files end.
pub(crate) fn publish_on<K: Keeper>(
    desk: &mut Desk<K>,
    table: Table,
    lower: Key,
    upper: Key,
    cells: &CellMap,
) -> Result<(), KeeperFault>
    requires there { table.0 < 16 }
    requires may { MayPublish (K.holds desk.old.keeper) (record {
      table = table.0;
      lower = lower.0;
      upper = upper.0;
      cells = cells.now;
    }) }
    ensures same { (pending_on desk.new ≡ pending_on desk.old)
        × (desk.new.progress ≡ desk.old.progress) }
    ensures publishes { OnOk result (Publishes (K.holds desk.old.keeper)
        (K.holds desk.new.keeper) (record {
          table = table.0;
          lower = lower.0;
          upper = upper.0;
          cells = cells.now;
        }) × ((t : ℕ) → t < 16 → slice_index desk.new.uppers t
        ≡ (if table.0 == t then upper.0 else slice_index desk.old.uppers t))) }
    ensures refused { OnErr result (PublishRefused (K.holds desk.old.keeper)
        (K.holds desk.new.keeper) (record {
          table = table.0;
          lower = lower.0;
          upper = upper.0;
          cells = cells.now;
        }) × (desk.new.uppers ≡ desk.old.uppers)) }
    ensures counts { TellsFaults (K.holds desk.old.keeper).at_open result }
    ensures stopped { stopped_with (K.holds desk.new.keeper).stopped
        (K.holds desk.new.keeper).faults
        ≡ stopped_by (stopped_with (K.holds desk.old.keeper).stopped
        (K.holds desk.old.keeper).faults) result }
{
    let done = desk.keeper.publish(table, lower, upper, cells);
    if done.is_ok() {
        desk.uppers[table.0 as usize] = upper.0;
    }
    done
}

// Drops the segments below an ordinal that may go, by the keeper of a desk.
pub(crate) fn discard_on<K: Keeper>(desk: &mut Desk<K>, closed: u32) -> Result<u32, KeeperFault>
    ensures same { (pending_on desk.new ≡ pending_on desk.old)
        × (desk.new.progress ≡ desk.old.progress) × (desk.new.uppers ≡ desk.old.uppers) }
    ensures drops { IfOk result (Drops (K.holds desk.old.keeper) (K.holds desk.new.keeper)
        closed) }
    ensures refused { OnErr result (DropRefused (K.holds desk.old.keeper)
        (K.holds desk.new.keeper) closed) }
    ensures counts { TellsFaults (K.holds desk.old.keeper).at_open result }
    ensures stopped { stopped_with (K.holds desk.new.keeper).stopped
        (K.holds desk.new.keeper).faults
        ≡ stopped_by (stopped_with (K.holds desk.old.keeper).stopped
        (K.holds desk.old.keeper).faults) result }
{
    desk.keeper.discard(closed)
}
