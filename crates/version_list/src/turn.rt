//! What lies under the lock of publishing.
ghost use Rattle.std.specs.Prelude.{◌≡◌, ◌<◌, ◌≤◌, ◌^◌, ◌++◌, ◌∷◌, [], length};
ghost use Rattle.std.specs.Prelude.{IfSome, IfNone, MatchBool};
ghost use mathlib.Core.List.{IsPrefix};
ghost use Rattle.left_right.specs.Handles.{pending, published};
ghost use Rattle.version_list.specs.Shows.{Adds, IsAdded, IsPublished, Shows};

use crate::history::{Front, History, Naming};
use crate::record::Record;
use crate::side::{Gathers, Side};
use crate::write_seat::WriteSeat;
use left_right::WriteHandle;
use std::sync::ledger::{Ledger, Share};
use std::sync::{Wait, ledger};

/// How many entries there may be.
const MOST: u64 = 1 << 62;

/// What a publication did.
#[derive(Clone, Copy, Debug, PartialEq, Eq)]
pub enum Show {
    /// The entry is shown, as this member of the list, from 0.
    Shown(u64),
    /// For want of memory. It may be shown by a later publication, before the entry of that.
    Unshown,
}

/// What writes the two copies.
pub type Sides<T, E, J, R> = WriteHandle<Side<T, E, J>, Record<E, J>, R>;

/// The whole history, with a record of it that found no memory yet, what writes the two copies
/// (`W`, `Sides`), and the book in which each seat counts what it added.
#[derive(Drop)]
pub struct Turn<E: Drop, J: Naming, L: Ledger, W: Drop> {
    late: Option<Record<E, J>>,
    front: Front<E, J>,
    writer: W,
    made: ledger::Book<L>,
    pub ghost counted: { made.total ≡ length front },
}

impl<E: Drop, J: Naming, L: Ledger, W: Drop> Turn<E, J, L, W> {
    // A turn over an empty history.
    pub(crate) fn over(front: Front<E, J>, writer: W, made: ledger::Book<L>) -> Turn<E, J, L, W>
        requires { (front ≡ []) × (made.total ≡ 0) }
    {
        Turn {
            late: None,
            front,
            writer,
            made,
        }
    }

    // Adds an entry to the history, and tells who added it.
    fn add(
        &mut self,
        history: &History<E, J>,
        added: &mut Front<E, J>,
        share: &mut Share<L>,
        entry: E,
    ) -> Option<Record<E, J>>
        requires room { length self.old.front < 2 ^ 62 }
        requires behind { length added.old ≤ length self.old.front }
        requires part { 0 < share.old.parts }
        ensures some { IfSome result (λ r. (r ≡ self.old.front ++ entry ∷ [])
            × IsAdded entry added.old added.new share.old.amount share.new.amount
            (length self.old.front)) }
        ensures none { IfNone result ((added.new ≡ added.old)
            × (share.new.amount ≡ share.old.amount)) }
        ensures parts { share.new.parts ≡ share.old.parts }
        ensures writer { self.new.writer ≡ self.old.writer }
    {
        let mut front = self.front.again();
        if !front.add(history, &entry) {
            return None;
        }
        self.made.add(share, 1);
        self.front = front.again();
        *added = front.longer(added);
        Some(Record { entry, front })
    }

    // All entries, which are as many as all seats together added. `None` where a seat knows of
    // more, which no seat does.
    pub(crate) fn last<T: Gathers<E> + Drop>(
        self,
        all: WriteSeat<T, E, J, L>,
    ) -> Option<Front<E, J>>
        requires { all.share.parts ≡ L.parts }
        ensures { IfSome result (λ f. IsPrefix all.view f × IsPrefix all.added f
            × (length f ≡ all.share.amount)) }
    {
        let Turn {
            late: _late,
            front,
            writer: _writer,
            mut made,
        } = self;
        let WriteSeat {
            view,
            added,
            mut share,
        } = all;
        made.audit(&mut share);
        if view.len() > front.len() || added.len() > front.len() {
            return None;
        }
        Some(front.longer(&view.seen).longer(&added))
    }
}

impl<T: Gathers<E> + Drop, E: Drop, J: Naming, L: Ledger, R: Wait + Drop> Turn<
    E,
    J,
    L,
    Sides<T, E, J, R>,
> {
    // Hands the writer a record, and says whether it did. It is kept where there is no memory.
    fn hand(&mut self, late: Record<E, J>) -> bool
        ensures pending { MatchBool result
            (pending self.new.writer ≡ pending self.old.writer ++ late ∷ []) (Unit {0}) }
        ensures published { published self.new.writer ≡ published self.old.writer }
    {
        match self.writer.append(late) {
            Ok(()) => true,
            Err(late) => {
                self.late = Some(late);
                false
            }
        }
    }

    // Publishes an entry, behind one that was late.
    pub(crate) fn publish(
        &mut self,
        history: &History<E, J>,
        seat: &mut WriteSeat<T, E, J, L>,
        entry: E,
    ) -> Show
        requires { 0 < seat.old.share.parts }
        ensures shows { Shows result entry seat.old.view seat.new.view }
        ensures published { IsPublished result (published self.new.writer) seat.new.view }
        ensures adds { Adds result entry seat.old.added seat.new.added seat.old.share.amount
            seat.new.share.amount }
        ensures parts { seat.new.share.parts ≡ seat.old.share.parts }
    {
        if let Some(late) = self.late.take() {
            if !self.hand(late) {
                return Show::Unshown;
            }
        }
        let number = self.front.len();
        if number >= MOST || seat.view.len() > number || seat.added.len() > number {
            return Show::Unshown;
        }
        let Some(next) = self.add(history, &mut seat.added, &mut seat.share, entry) else {
            return Show::Unshown;
        };
        let front = next.front.again();
        if !self.hand(next) || self.writer.publish().is_err() {
            return Show::Unshown;
        }
        seat.view.see(&front);
        Show::Shown(number)
    }
}
