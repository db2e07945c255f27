//! What the holder of the Sync turn and of a table's Flush turn does with a memtable that it has
//! read whole: the keeper on the desk puts a table file of what was seen, the memtable is retired,
//! and the segments that files hold go. What the keeper does is no step; the desk is told of it at
//! the step behind.
ghost use Rattle.std.specs.Prelude.{◌≡◌, ◌≢◌, ◌+◌, ◌^◌, ◌<◌, ◌≤◌, ℕ, true, List, [], length, Some};
ghost use Rattle.std.specs.Prelude.{None, IfOk, OnErr, OnOk};
ghost use Rattle.atomic_table.specs.Table.{rest};
ghost use Rattle.clog_base.specs.declared.cell.Cell.{Cell};
ghost use Rattle.clog_base.specs.declared.cell.CellKey.{CellKey};
ghost use Rattle.path_core.specs.declared.event.Cursor.TheVariants.{OldestLive, Stopped, Synced};
ghost use Rattle.path_core.specs.declared.event.Event.TheVariants.{Look, Put};
ghost use Rattle.path_core.specs.declared.event.Place.TheVariants.{CursorWord};
ghost use Rattle.path_core.specs.declared.note.EntryNote.{EntryNote};
ghost use Rattle.path_core.specs.declared.seat.Issue.TheVariants.{Rest};
ghost use Rattle.path_core.specs.Keeper.{HasRisen};
ghost use Rattle.path_core.specs.Keys.{after};
ghost use Rattle.path_core.specs.Next.{has_filed};
ghost use Rattle.path_rule.specs.declared.lasting.Lasting.{Lasting};
ghost use Rattle.path_rule.specs.declared.lasting.PutTable.{PutTable};
ghost use Rattle.path_rule.specs.declared.view.FlushRead.{FlushRead};
ghost use Rattle.path_rule.specs.Calls.{Holds, IsSyncedTo};
ghost use Rattle.path_rule.specs.Filing.{MayPut, upper_of};
ghost use Rattle.path_rule.specs.FilingTold.{AreSeen, CarriesDropped, CarriesFiled, CarriesNoted};
ghost use Rattle.path_rule.specs.FilingTold.{CarriesUndropped, FoundFinal, HasDropped, SeesAll};
ghost use Rattle.path_rule.specs.FilingTold.{TurnSynced, next_file};
ghost use Rattle.path_rule.specs.Finds.{Finds};
ghost use Rattle.path_rule.specs.HandsAfter.{with_desk, with_reading};
ghost use Rattle.path_rule.specs.Layout.{numbers_end};
ghost use Rattle.path_rule.specs.Lasts.{shows_of};
ghost use Rattle.path_rule.specs.Retires.{RetiresFiledIn};
ghost use Rattle.path_rule.specs.Rule.{Was};
ghost use Rattle.path_rule.specs.SyncEnd.{stopped_by, TellsFaults};
ghost use Rattle.path_rule.specs.TurnTold.{CarriesAs, CarriesDesk};
ghost use Rattle.path_rule.specs.Turns.{FoundRunning};
ghost use Rattle.path_table.specs.Members.{view_of, part_of, hands_of, boxes_of, IsOf, IsSame};
ghost use Rattle.path_table.specs.Members.{KeepsBoxes, Stepped, SteppedFiled, SteppedNoted};

use crate::publishing::{discard_on, publish_on};
use crate::table::{Member, PathTable};
use crate::words::{OLDEST_LIVE, STOPPED, SYNCED};
use clog_base::{Key, Table};
use clog_cells::CellMap;
use path_core::{Keeper, KeeperFault};
use path_rule::{LookFiled, NoteFiling, RetireFiled, Slot, StopFiling};
use std::alloc::Allocator;

impl<K: Keeper, A: Allocator> PathTable<K, A> {
    /// Where a table's last file ends, 0 before the first, as the desk tells it.
    pub fn last_upper(&self, member: Member<K>, table: Table) -> (Member<K>, Key)
        requires table { member.seat.table_id ≡ self.now.table.shared.table_id }
        requires there { table.0 < 16 }
        requires desk { CarriesDesk (shows_of K.holds) member.seat.me }
        ensures same { IsSame member result.0 × (view_of result.0 ≡ view_of member)
            × (boxes_of result.0 ≡ boxes_of member) }
        ensures upper { result.1.0 ≡ upper_of table.0 (hands_of member).lasting.filed.files }
    {
        let Member {
            mut seat,
            number,
            issued,
            last_end,
        } = member;
        let shared = &self.table.shared;
        let upper = match seat.slot_mut(shared, 0) {
            Slot::Turn(desk) => desk.uppers[table.0 as usize],
            Slot::Notes(_) => unreachable!(),
        };
        (
            Member {
                seat,
                number,
                issued,
                last_end,
            },
            Key(upper),
        )
    }

    /// The synced key, once the boxes of all seats of a memtable that is not empty were seen, whose
    /// final bound the member found. The log goes on behind it at or above where it does behind
    /// each synced key that the member had found. Where it is lasting up to that bound, a file of
    /// the newest cells in what was seen may be put: it goes on where the table's last file ended,
    /// up to the bound.
    pub fn look_filed(&self, member: &mut Member<K>, table: Table, memtable: u64, bound: Key) -> u64
        requires table { IsOf self.now.table.shared.table_id self.now.size member.old }
        requires there { table.0 < self.now.size.tables }
        requires turn { FoundRunning (part_of member.old) }
        requires sees { (q : FlushRead)
            × SeesAll self.now.size.seats (hands_of member.old) table.0 memtable q
            × (q.seen ≢ []) }
        requires bound { FoundFinal table.0 (part_of member.old) memtable bound.0 }
        ensures same { KeepsBoxes member.old member.new }
        ensures step { Stepped member.old (Look member.old.number (CursorWord Synced)) result
            member.new }
        ensures found { TurnSynced (part_of member.new) result }
        ensures small { result < 2 ^ 62 }
        ensures rises { (key : ℕ) → Finds (CursorWord Synced) key (view_of member.old).trail
            → after self.now.size.capacity key ≤ after self.now.size.capacity result }
        ensures put { (q : FlushRead) (cells : List (CellKey × Cell))
            → (hands_of member.old).reading ≡ Some q
            → bound.0 ≤ after self.now.size.capacity result → AreSeen q table.0 cells
            → MayPut (hands_of member.old).lasting
            (next_file (hands_of member.old).lasting table.0 bound.0 cells) }
    {
        let _ = (table, memtable, bound);
        self.table
            .shared
            .load::<LookFiled<K>>(&mut member.seat, SYNCED)
    }

    /// Puts a table file by the keeper on the desk, which takes it behind its others. Where it is
    /// refused the keeper may keep that in mind, and may have stopped with the count that it tells.
    pub fn put_table(
        &self,
        member: Member<K>,
        table: Table,
        lower: Key,
        upper: Key,
        cells: &CellMap,
    ) -> (Member<K>, Result<(), KeeperFault>)
        requires table { member.seat.table_id ≡ self.now.table.shared.table_id }
        requires there { table.0 < 16 }
        requires desk { CarriesDesk (shows_of K.holds) member.seat.me }
        requires put { MayPut (hands_of member).lasting (record {
          table = table.0;
          lower = lower.0;
          upper = upper.0;
          cells = cells.now;
        }) }
        ensures same { IsSame member result.0 × (view_of result.0 ≡ view_of member)
            × (rest (boxes_of result.0) ≡ rest (boxes_of member)) }
        ensures put { OnOk result.1 (CarriesFiled (shows_of K.holds) (record {
          table = table.0;
          lower = lower.0;
          upper = upper.0;
          cells = cells.now;
        }) result.0.seat.me) }
        ensures refused { OnErr result.1 (CarriesNoted (shows_of K.holds)
            (stopped_by (hands_of member).lasting.stopped result.1) result.0.seat.me) }
        ensures undropped { OnErr result.1 (CarriesUndropped (shows_of K.holds)
            (stopped_by (hands_of member).lasting.stopped result.1) result.0.seat.me) }
        ensures counts { TellsFaults (hands_of member).lasting.at_open result.1 }
    {
        let Member {
            mut seat,
            number,
            issued,
            last_end,
        } = member;
        let shared = &self.table.shared;
        let done = match seat.slot_mut(shared, 0) {
            Slot::Turn(desk) => publish_on(desk, table, lower, upper, cells),
            Slot::Notes(_) => unreachable!(),
        };
        (
            Member {
                seat,
                number,
                issued,
                last_end,
            },
            done,
        )
    }

    /// Retires the least memtable of a table that is not retired, once its table file is put on the
    /// desk: the boxes of all seats were seen, something was placed in it, and the log is lasting
    /// up to its bound. The step gives the key above which the file begins, where the table's last
    /// file ended. The desk tells of the file then.
    pub fn retire_filed(&self, member: &mut Member<K>, table: Table, memtable: u64, bound: Key)
        requires table { IsOf self.now.table.shared.table_id self.now.size member.old }
        requires there { (table.0 < self.now.size.tables) × (memtable < numbers_end) }
        requires files { self.now.size.files ≡ true }
        requires turn { (key : ℕ) × TurnSynced (part_of member.old) key
            × (bound.0 ≤ after self.now.size.capacity key)
            × ((hands_of member.old).box_taken ≡ None) }
        requires bound { FoundFinal table.0 (part_of member.old) memtable bound.0 }
        requires file { (q : FlushRead) × (cells : List (CellKey × Cell))
            × SeesAll self.now.size.seats (hands_of member.old) table.0 memtable q
            × (q.seen ≢ []) × AreSeen q table.0 cells
            × CarriesFiled (shows_of K.holds)
            (next_file (hands_of member.old).lasting table.0 bound.0 cells) member.old.seat.me }
        ensures same { KeepsBoxes member.old member.new }
        ensures step { (lasting : Lasting) (pending : List EntryNote)
            → CarriesAs (shows_of K.holds) lasting pending (hands_of member.old).progress
            member.old.seat.me
            → SteppedFiled member.old (Put member.old.number (OldestLive table) (memtable + 1))
            (memtable + 1) (upper_of table.0 (hands_of member.old).lasting.filed.files)
            (with_reading None
            (with_desk lasting pending (hands_of member.old).progress (hands_of member.old)))
            member.new }
        ensures was { (f : PutTable) → CarriesFiled (shows_of K.holds) f member.old.seat.me
            → (was : Was (view_of member.old) member.old.number
            (Put member.old.number (OldestLive table) (memtable + 1)))
            × RetiresFiledIn was.core (Put member.old.number (OldestLive table) (memtable + 1))
            table.0 memtable f }
        ensures filed { has_filed (part_of member.new) ≡ true }
        ensures turn { (key : ℕ) → TurnSynced (part_of member.old) key
            → TurnSynced (part_of member.new) key }
        ensures give { Holds Rest (view_of member.old) → Holds Rest (view_of member.new) }
        ensures desk { CarriesDesk (shows_of K.holds) member.new.seat.me }
    {
        let _ = bound;
        self.table.shared.store::<RetireFiled<K>>(
            &mut member.seat,
            OLDEST_LIVE + 4 * table.0 as usize,
            memtable + 1,
        );
    }

    /// Drops the segments that may go, by the keeper on the desk: those below that of the synced
    /// key, which the member found in its turn, of which table files hold all that they hold. It
    /// has filed a memtable in that turn. The keeper's own count of them is answered; where it
    /// refuses, the first of them may have gone.
    pub fn drop_due(&self, member: Member<K>, synced: Key) -> (Member<K>, Result<u32, KeeperFault>)
        requires table { member.seat.table_id ≡ self.now.table.shared.table_id }
        requires turn { TurnSynced (part_of member) synced.0
            × (has_filed (part_of member) ≡ true) }
        requires small { synced.0 < 2 ^ 62 }
        requires desk { CarriesDesk (shows_of K.holds) member.seat.me }
        ensures same { IsSame member result.0 × (view_of result.0 ≡ view_of member)
            × (rest (boxes_of result.0) ≡ rest (boxes_of member)) }
        ensures dropped { CarriesNoted (shows_of K.holds)
            (stopped_by (hands_of member).lasting.stopped result.1) result.0.seat.me }
        ensures all { OnOk result.1 (HasDropped (shows_of K.holds) synced.0 (view_of member)
            result.0.seat.me) }
        ensures gone { (ordinals : List ℕ) × CarriesDropped (shows_of K.holds)
            (stopped_by (hands_of member).lasting.stopped result.1) synced.0 ordinals
            result.0.seat.me × IfOk result.1 (λ count. count ≡ length ordinals) }
        ensures counts { TellsFaults (hands_of member).lasting.at_open result.1 }
    {
        let closed = (synced.0 >> 31) as u32;
        let Member {
            mut seat,
            number,
            issued,
            last_end,
        } = member;
        let shared = &self.table.shared;
        let done = match seat.slot_mut(shared, 0) {
            Slot::Turn(desk) => discard_on(desk, closed),
            Slot::Notes(_) => unreachable!(),
        };
        (
            Member {
                seat,
                number,
                issued,
                last_end,
            },
            done,
        )
    }

    /// The keeper's count of faults as the path tells it, after the keeper on the desk refused a
    /// file, or dropped segments. The member knows then what it shows.
    pub fn note_filing(&self, member: &mut Member<K>) -> u64
        requires table { IsOf self.now.table.shared.table_id self.now.size member.old }
        requires files { self.now.size.files ≡ true }
        requires turn { FoundRunning (part_of member.old)
            × ((hands_of member.old).box_taken ≡ None) }
        requires desk { CarriesNoted (shows_of K.holds) (hands_of member.old).lasting.stopped
            member.old.seat.me }
        ensures same { KeepsBoxes member.old member.new }
        ensures step { SteppedNoted (hands_of member.old).lasting.stopped member.old
            (Look member.old.number (CursorWord Stopped)) result member.new }
        ensures shown { (lasting : Lasting) (pending : List EntryNote)
            → CarriesAs (shows_of K.holds) lasting pending (hands_of member.old).progress
            member.old.seat.me
            → hands_of member.new ≡ with_desk lasting pending (hands_of member.old).progress
            (hands_of member.old) }
        ensures runs { (result ≡ 0) × FoundRunning (part_of member.new) }
        ensures turn { (key : ℕ) → TurnSynced (part_of member.old) key
            → TurnSynced (part_of member.new) key }
        ensures filed { has_filed (part_of member.new) ≡ has_filed (part_of member.old) }
        ensures give { Holds Rest (view_of member.old) → Holds Rest (view_of member.new) }
        ensures desk { CarriesDesk (shows_of K.holds) member.new.seat.me }
    {
        self.table
            .shared
            .load::<NoteFiling<K>>(&mut member.seat, STOPPED)
    }

    /// Stops the log, which the member found running, after the keeper on the desk has stopped as
    /// it put a file or dropped segments. The value is the count of faults with which it did.
    pub fn stop_filing(&self, member: &mut Member<K>, value: u64)
        requires table { IsOf self.now.table.shared.table_id self.now.size member.old }
        requires files { self.now.size.files ≡ true }
        requires turn { FoundRunning (part_of member.old)
            × ((hands_of member.old).box_taken ≡ None) }
        requires desk { CarriesNoted (shows_of K.holds) (Some value) member.old.seat.me }
        requires value { HasRisen (hands_of member.old).lasting.at_open value }
        ensures same { KeepsBoxes member.old member.new }
        ensures step { SteppedNoted (Some value) member.old
            (Put member.old.number Stopped value) value member.new }
        ensures shown { (lasting : Lasting) (pending : List EntryNote)
            → CarriesAs (shows_of K.holds) lasting pending (hands_of member.old).progress
            member.old.seat.me
            → hands_of member.new ≡ with_desk lasting pending (hands_of member.old).progress
            (hands_of member.old) }
        ensures synced { (upto : ℕ) → IsSyncedTo (view_of member.old) upto
            → IsSyncedTo (view_of member.new) upto }
        ensures filed { has_filed (part_of member.new) ≡ has_filed (part_of member.old) }
        ensures give { Holds Rest (view_of member.old) → Holds Rest (view_of member.new) }
        ensures desk { CarriesDesk (shows_of K.holds) member.new.seat.me }
    {
        self.table
            .shared
            .store::<StopFiling<K>>(&mut member.seat, STOPPED, value);
    }
}
