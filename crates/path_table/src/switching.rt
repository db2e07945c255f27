//! The steps of a memtable's switch, by the holder of its table's Flush turn: the next memtable is
//! made, and the one below it is marked, raised to a log key that was found since, and made final.
//! `stage_of` tells how far the switch is.
ghost use Rattle.std.specs.Prelude.{◌≡◌, ◌≢◌, ℕ, suc, ◌+◌, ◌^◌, ◌<◌, ◌≤◌, Bool, true, false};
ghost use Rattle.std.specs.Prelude.{Option, Some, None, IsTrue, is_some};
ghost use Rattle.path_core.specs.declared.event.Event.TheVariants.{Finalise, Look, Raise, Switch};
ghost use Rattle.path_core.specs.declared.event.Place.TheVariants.{Log, Newest};
ghost use Rattle.path_core.specs.declared.event.SwitchPart.TheVariants.{Clear, Mark, Open};
ghost use Rattle.path_core.specs.declared.seat.Switching.TheVariants.{Begun, Marked as MarkedStage};
ghost use Rattle.path_core.specs.declared.seat.Switching.TheVariants.{Waiting};
ghost use Rattle.path_core.specs.declared.state.Bound.TheVariants.{Final};
ghost use Rattle.path_core.specs.Parts.{seat_table, stage_of};
ghost use Rattle.path_rule.specs.Switched.{KeepsMemtables};
ghost use Rattle.path_rule.specs.Issued.{issued_in, opened_in};
ghost use Rattle.path_rule.specs.Layout.{numbers_end};
ghost use Rattle.path_rule.specs.Switches.{FlushCleared, FlushNewest, FlushOldest, FlushRaised};
ghost use Rattle.path_table.specs.Members.{view_of, part_of, IsOf, KeepsBoxes, Stepped};

use crate::table::{Member, PathTable};
use crate::words::{BOUNDS, NEWEST, RAISING};
use clog_base::{Key, Table};
use path_core::Keeper;
use path_rule::{ClearPlace, FinaliseMemtable, LookAt, MarkMemtable, OpenMemtable, RaiseBound};
use std::alloc::Allocator;

impl<K: Keeper, A: Allocator> PathTable<K, A> {
    /// The newest memtable of a table. It is exact while the table's turn is held.
    pub fn look_newest(&self, member: &mut Member<K>, table: Table) -> u64
        requires table { IsOf self.now.table.shared.table_id self.now.size member.old }
        requires there { table.0 < self.now.size.tables }
        ensures same { KeepsBoxes member.old member.new }
        ensures step { Stepped member.old (Look member.old.number (Newest table)) result
            member.new }
        ensures below { result < numbers_end }
        ensures turn { IsTrue (is_some (seat_table (part_of member.old) table.0).flush)
            → FlushNewest table.0 (part_of member.new) result }
        ensures keeps { (n : ℕ) → FlushOldest table.0 (part_of member.old) n
            → FlushOldest table.0 (part_of member.new) n }
        ensures others { (t : ℕ) → t ≢ table.0
            → seat_table (part_of member.new) t ≡ seat_table (part_of member.old) t }
    {
        self.table
            .shared
            .load::<LookAt<K>>(&mut member.seat, NEWEST + 4 * table.0 as usize)
    }

    /// Clears the place of the next memtable of a table, where the newest one is the only one not
    /// retired.
    pub fn clear_place(&self, member: &mut Member<K>, table: Table, memtable: u64)
        requires table { IsOf self.now.table.shared.table_id self.now.size member.old }
        requires there { table.0 < self.now.size.tables }
        requires turn { (n : ℕ) × FlushNewest table.0 (part_of member.old) n
            × FlushOldest table.0 (part_of member.old) n × (memtable ≡ suc n)
            × (memtable ≤ numbers_end) }
        ensures same { KeepsBoxes member.old member.new }
        ensures step { Stepped member.old (Switch member.old.number table memtable Clear) 0
            member.new }
        ensures stage { stage_of (part_of member.new) table.0 ≡ stage_of (part_of member.old)
            table.0 }
        ensures cleared { FlushCleared table.0 (part_of member.new) memtable }
        ensures keeps { KeepsMemtables table.0 (part_of member.old) (part_of member.new) }
        ensures others { (t : ℕ) → t ≢ table.0
            → seat_table (part_of member.new) t ≡ seat_table (part_of member.old) t }
    {
        self.table.shared.store::<ClearPlace<K>>(
            &mut member.seat,
            BOUNDS + 16 * (memtable % 4) as usize + table.0 as usize,
            0,
        );
    }

    /// Makes the next memtable of a table, which is live and the newest, where the one that was the
    /// newest is the only one not retired.
    pub fn open_memtable(&self, member: &mut Member<K>, table: Table, memtable: u64)
        requires table { IsOf self.now.table.shared.table_id self.now.size member.old }
        requires there { table.0 < self.now.size.tables }
        requires cleared { FlushCleared table.0 (part_of member.old) memtable }
        requires turn { (n : ℕ) × FlushNewest table.0 (part_of member.old) n
            × FlushOldest table.0 (part_of member.old) n × (memtable ≡ suc n)
            × (opened_in (view_of member.old).trail ≤ issued_in (view_of member.old).trail) }
        ensures same { KeepsBoxes member.old member.new }
        ensures step { Stepped member.old (Switch member.old.number table memtable Open) memtable
            member.new }
        ensures stage { stage_of (part_of member.new) table.0 ≡ Some (Begun memtable) }
        ensures newest { FlushNewest table.0 (part_of member.new) memtable }
        ensures keeps { (n : ℕ) → FlushOldest table.0 (part_of member.old) n
            → FlushOldest table.0 (part_of member.new) n }
        ensures others { (t : ℕ) → t ≢ table.0
            → seat_table (part_of member.new) t ≡ seat_table (part_of member.old) t }
    {
        self.table
            .shared
            .store::<OpenMemtable<K>>(&mut member.seat, NEWEST + 4 * table.0 as usize, memtable);
    }

    /// Marks the memtable below the one that was just made: it is raising from now on.
    pub fn mark_memtable(&self, member: &mut Member<K>, table: Table, memtable: u64)
        requires table { IsOf self.now.table.shared.table_id self.now.size member.old }
        requires there { (table.0 < self.now.size.tables) × (memtable < numbers_end) }
        requires stage { stage_of (part_of member.old) table.0 ≡ Some (Begun (suc memtable)) }
        ensures same { KeepsBoxes member.old member.new }
        ensures step { Stepped member.old (Switch member.old.number table memtable Mark)
            (2 ^ 62) member.new }
        ensures stage { stage_of (part_of member.new) table.0 ≡ Some
            (MarkedStage (record { memtable = memtable; key = None; raised = false })) }
        ensures keeps { KeepsMemtables table.0 (part_of member.old) (part_of member.new) }
        ensures others { (t : ℕ) → t ≢ table.0
            → seat_table (part_of member.new) t ≡ seat_table (part_of member.old) t }
    {
        self.table.shared.store::<MarkMemtable<K>>(
            &mut member.seat,
            BOUNDS + 16 * (memtable % 4) as usize + table.0 as usize,
            RAISING,
        );
    }

    /// The log key, found since a memtable was marked, which may be raised to it then.
    pub fn look_marked(&self, member: &mut Member<K>, table: Table, memtable: u64) -> Key
        requires table { IsOf self.now.table.shared.table_id self.now.size member.old }
        requires there { table.0 < self.now.size.tables }
        requires stage { (key : Option ℕ) × (raised : Bool)
            × (stage_of (part_of member.old) table.0 ≡ Some
            (MarkedStage (record { memtable = memtable; key = key; raised = raised }))) }
        ensures same { KeepsBoxes member.old member.new }
        ensures step { Stepped member.old (Look member.old.number Log) result.0 member.new }
        ensures small { result.0 < 2 ^ 62 }
        ensures stage { (raised : Bool) × (stage_of (part_of member.new) table.0 ≡ Some
            (MarkedStage (record { memtable = memtable; key = Some result.0; raised = raised }))) }
        ensures keeps { KeepsMemtables table.0 (part_of member.old) (part_of member.new) }
    {
        let _ = memtable;
        let key = self.look_log(member);
        Key(key)
    }

    /// Raises the marked memtable to the log key that was found since.
    pub fn raise_marked(&self, member: &mut Member<K>, table: Table, memtable: u64, key: Key)
        requires table { IsOf self.now.table.shared.table_id self.now.size member.old }
        requires there { (table.0 < self.now.size.tables) × (memtable < numbers_end)
            × (key.0 < 2 ^ 62) }
        requires stage { (raised : Bool) × (stage_of (part_of member.old) table.0 ≡ Some
            (MarkedStage (record { memtable = memtable; key = Some key.0; raised = raised }))) }
        ensures same { KeepsBoxes member.old member.new }
        ensures step { (n : ℕ) × Stepped member.old
            (Raise member.old.number table memtable key) n member.new }
        ensures stage { stage_of (part_of member.new) table.0 ≡ Some
            (MarkedStage (record { memtable = memtable; key = Some key.0; raised = true })) }
        ensures raised { FlushRaised table.0 (part_of member.new) memtable key.0 }
        ensures keeps { KeepsMemtables table.0 (part_of member.old) (part_of member.new) }
        ensures others { (t : ℕ) → t ≢ table.0
            → seat_table (part_of member.new) t ≡ seat_table (part_of member.old) t }
    {
        let _found = self.table.shared.fetch_max::<RaiseBound<K>>(
            &mut member.seat,
            BOUNDS + 16 * (memtable % 4) as usize + table.0 as usize,
            key.0 + RAISING,
        );
    }

    /// Makes the marked memtable final, once it was raised. Returns its bound: what is logged above
    /// it goes into later memtables.
    pub fn finalise_memtable(&self, member: &mut Member<K>, table: Table, memtable: u64) -> Key
        requires table { IsOf self.now.table.shared.table_id self.now.size member.old }
        requires there { (table.0 < self.now.size.tables) × (memtable < numbers_end) }
        requires stage { (key : Option ℕ) × (stage_of (part_of member.old) table.0 ≡ Some
            (MarkedStage (record { memtable = memtable; key = key; raised = true }))) }
        ensures same { KeepsBoxes member.old member.new }
        ensures step { Stepped member.old (Finalise member.old.number table memtable)
            (result.0 + 2 ^ 62) member.new }
        ensures stage { stage_of (part_of member.new) table.0 ≡ Some (Waiting memtable) }
        ensures bound { (seat_table (part_of member.new) table.0).bound
            ≡ Some (record { memtable = memtable; bound = Final result }) }
        ensures above { (key : ℕ) → FlushRaised table.0 (part_of member.old) memtable key
            → key ≤ result.0 }
        ensures keeps { KeepsMemtables table.0 (part_of member.old) (part_of member.new) }
        ensures others { (t : ℕ) → t ≢ table.0
            → seat_table (part_of member.new) t ≡ seat_table (part_of member.old) t }
    {
        let word = self.table.shared.fetch_add::<FinaliseMemtable<K>>(
            &mut member.seat,
            BOUNDS + 16 * (memtable % 4) as usize + table.0 as usize,
            RAISING,
        );
        Key(word.saturating_sub(RAISING))
    }
}
