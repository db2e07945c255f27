//! The list that threads share.
ghost use Rattle.std.specs.Prelude.{◌≡◌, ◌<◌, ◌^◌, ◌⊎◌, [], fold, length, IfOk, IfSome};
ghost use Rattle.std.specs.Fn.{FnReturnsAt};
ghost use mathlib.Core.List.{IsPrefix};
ghost use Rattle.version_list.specs.Shows.{Adds, Shows};

use crate::history::{Front, History, Naming, NewHistory};
use crate::seat::{NoWriter, ReadSeat};
use crate::side::{Gathers, Side};
use crate::turn::{Show, Sides, Turn};
use crate::write_seat::WriteSeat;
use left_right::WriteHandle;
use std::alloc::{AllocError, Global};
use std::sync::ledger::{Blank, Ledger};
use std::sync::{Mutex, Wait};
use std::thread;

/// The entries, in the order of their publication. `W` is what writes the two copies (`Sides`).
#[derive(Drop)]
pub struct VersionList<E: Drop, J: Naming, L: Ledger, W: Drop> {
    history: History<E, J>,
    turn: Mutex<Turn<E, J, L, W>>,
}

impl<E: Drop, J: Naming, L: Ledger, W: Drop> VersionList<E, J, L, W> {
    /// The seat has seen what another one has, beside what it had seen.
    pub fn learn<T: Gathers<E> + Drop>(
        &self,
        seat: &mut ReadSeat<T, E, J>,
        other: &mut ReadSeat<T, E, J>,
    )
        ensures own { IsPrefix seat.old seat.new }
        ensures told { IsPrefix other.old seat.new }
        ensures one { (seat.new ≡ seat.old) ⊎ (seat.new ≡ other.old) }
        ensures other { other.new ≡ other.old }
    {
        seat.see(&other.seen);
    }

    /// Answers by what was gathered of all that the seat has seen then, which begins with all that
    /// it had seen or was told of. `Err` where the seat finds no writer, as it does while the list
    /// stands.
    pub fn read<T: Gathers<E> + Drop, X, F: Fn(&T) -> X, W2: Wait>(
        &self,
        rt: &W2,
        seat: &mut ReadSeat<T, E, J>,
        ask: &F,
    ) -> Result<X, NoWriter>
        requires { F.IsAlwaysCallable ask.now }
        ensures seen { IsPrefix seat.old seat.new }
        ensures answer { IfOk result (λ x. (value : T)
            × (T.state value ≡ fold T.applied T.start seat.new)
            × FnReturnsAt F.Fn ask.now value x) }
    {
        for _ in rt.forever() {
            if let Some(answer) = seat.try_read(ask)? {
                return Ok(answer);
            }
            thread::yield_now();
        }
        Err(NoWriter)
    }

    /// Closes the list, with all seats that write taken into one. Answers the list, of which each of
    /// these has seen a beginning: it has as many entries as all of them together added. `None`
    /// where a seat knows of more, which no seat does.
    pub fn close<T: Gathers<E> + Drop>(self, all: WriteSeat<T, E, J, L>) -> Option<Front<E, J>>
        requires { all.share.parts ≡ L.parts }
        ensures { IfSome result (λ f. IsPrefix all.view f × IsPrefix all.added f
            × (length f ≡ all.share.amount)) }
    {
        let Self {
            history: _history,
            turn,
        } = self;
        turn.into_inner().last(all)
    }
}

impl<T: Gathers<E> + Drop, E: Drop, J: Naming, L: Ledger, R: Wait + Drop> VersionList<
    E,
    J,
    L,
    Sides<T, E, J, R>,
> {
    /// Opens an empty list, with a seat that has seen and added nothing. There is room for so many
    /// seats at once. `Err` for want of memory.
    pub fn open(
        alloc: Global,
        rt: R,
        values: (T, T),
        seats: usize,
        opened: NewHistory<E>,
        made: Blank,
    ) -> Result<
        (
            VersionList<E, J, L, Sides<T, E, J, R>>,
            WriteSeat<T, E, J, L>,
        ),
        AllocError,
    >
        requires seats { (0 < seats) × (seats < 2 ^ 32) }
        requires start { (T.state values.0 ≡ T.start) × (T.state values.1 ≡ T.start) }
        requires book { opened.seen.book ≡ J.book }
        requires ledger { (made.name ≡ L.name) × (made.parts ≡ L.parts) }
        ensures seat { IfOk result (λ r. (r.1.view ≡ []) × (r.1.added ≡ [])) }
        ensures share { IfOk result (λ r. (r.1.share.parts ≡ L.parts) × (r.1.share.amount ≡ 0)) }
    {
        let (made, share) = made.open::<L>();
        let (history, front) = opened.named::<J>();
        let first = Side::over(values.0, &front);
        let second = Side::over(values.1, &front);
        let writer = WriteHandle::new(alloc, rt, first, second, seats)?;
        let view = ReadSeat::over(writer.handle()?, front.again());
        let added = front.again();
        let list = VersionList {
            history,
            turn: Mutex::new(Turn::over(front, writer, made)),
        };
        Ok((list, WriteSeat { view, added, share }))
    }

    /// Publishes an entry. After Shown(n) the seat has seen it as member n, behind all that it had
    /// seen and added. After Unshown it has seen what it had seen, and may have added the entry.
    pub fn publish<W2: Wait>(&self, rt: &W2, seat: &mut WriteSeat<T, E, J, L>, entry: E) -> Show
        requires { 0 < seat.old.share.parts }
        ensures shows { Shows result entry seat.old.view seat.new.view }
        ensures adds { Adds result entry seat.old.added seat.new.added seat.old.share.amount
            seat.new.share.amount }
        ensures parts { seat.new.share.parts ≡ seat.old.share.parts }
    {
        self.turn.lock(rt).publish(&self.history, seat, entry)
    }
}
