//! What the desk of the Sync turn tells of the last barrier, in the hand of the turn's holder,
//! which has no other box. Each step that changes what the holder knows of it is followed by a note
//! of it on the desk, so that a later holder is told.
ghost use Rattle.std.specs.Prelude.{◌≡◌};
ghost use Rattle.path_rule.specs.declared.view.Progress.{Progress};
ghost use Rattle.path_rule.specs.Desks.{HasDesk};
ghost use Rattle.path_rule.specs.Lasts.{shows_of};
ghost use Rattle.path_table.specs.Members.{view_of, hands_of, boxes_of, IsSame};

use crate::table::{Member, PathTable};
use path_core::Keeper;
use path_rule::{Progress, Slot};
use std::alloc::Allocator;

impl<K: Keeper, A: Allocator> PathTable<K, A> {
    /// What the desk tells.
    pub fn progress(&self, member: Member<K>) -> (Member<K>, Progress)
        requires table { member.seat.table_id ≡ self.now.table.shared.table_id }
        requires desk { HasDesk (shows_of K.holds) (hands_of member).lasting
            (hands_of member).pending (hands_of member).progress (boxes_of member) }
        ensures same { IsSame member result.0 × (view_of result.0 ≡ view_of member)
            × (boxes_of result.0 ≡ boxes_of member) }
        ensures found { result.1 ≡ (hands_of member).progress }
    {
        let Member {
            mut seat,
            number,
            issued,
            last_end,
        } = member;
        let shared = &self.table.shared;
        let progress = match seat.slot_mut(shared, 0) {
            Slot::Turn(desk) => desk.progress,
            Slot::Notes(_) => unreachable!(),
        };
        (
            Member {
                seat,
                number,
                issued,
                last_end,
            },
            progress,
        )
    }

    /// Notes on the desk how far the last barrier has got.
    pub fn note_progress(&self, member: Member<K>, progress: Progress) -> Member<K>
        requires table { member.seat.table_id ≡ self.now.table.shared.table_id }
        requires desk { (before : Progress) × HasDesk (shows_of K.holds) (hands_of member).lasting
            (hands_of member).pending before (boxes_of member) }
        ensures same { IsSame member result × (view_of result ≡ view_of member) }
        ensures desk { HasDesk (shows_of K.holds) (hands_of member).lasting
            (hands_of member).pending progress (boxes_of result) }
    {
        let Member {
            mut seat,
            number,
            issued,
            last_end,
        } = member;
        let shared = &self.table.shared;
        match seat.slot_mut(shared, 0) {
            Slot::Turn(desk) => desk.progress = progress,
            Slot::Notes(_) => unreachable!(),
        }
        Member {
            seat,
            number,
            issued,
            last_end,
        }
    }
}
