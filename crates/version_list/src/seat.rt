//! A seat that reads: what it has seen of the history, and its way to the copy that is shown.
ghost use Rattle.std.specs.Prelude.{◌≡◌, ◌≤◌, ◌⊎◌, fold, length, IfOk, IfSome};
ghost use Rattle.std.specs.Fn.{FnReturnsAt};
ghost use mathlib.Core.List.{IsPrefix};

use crate::history::{Front, Naming};
use crate::side::{Gathers, Side};
use left_right::ReadHandle;
use std::alloc::AllocError;
use std::marker::Model;

/// Why a seat reads nothing: it finds no writer.
#[derive(Clone, Copy, Debug, PartialEq, Eq)]
pub struct NoWriter;

/// A seat that reads. Contracts see it as the entries that it has seen or was told of.
#[derive(Drop)]
pub struct ReadSeat<T: Gathers<E> + Drop, E: Drop, J: Naming> {
    handle: ReadHandle<Side<T, E, J>>,
    pub(crate) seen: Front<E, J>,
}

impl<T: Gathers<E> + Drop, E: Drop, J: Naming> Model for ReadSeat<T, E, J> {
    ghost use Rattle.std.specs.Prelude.{List};

    ghost Value = { List E };

    ghost view = { λ r. r.seen };
}

// What is asked of a value.
fn ask_of<T, X, F: Fn(&T) -> X>(ask: &F, value: &T) -> X
    requires { F.IsAlwaysCallable ask.now }
    ensures { FnReturnsAt F.Fn ask.now value.now result }
{
    ask(value)
}

impl<T: Gathers<E> + Drop, E: Drop, J: Naming> ReadSeat<T, E, J> {
    // A seat that has seen this.
    pub(crate) fn over(handle: ReadHandle<Side<T, E, J>>, seen: Front<E, J>) -> ReadSeat<T, E, J>
        ensures { result ≡ seen }
    {
        ReadSeat { handle, seen }
    }

    /// A further seat, which has seen as much. `Err` where there is no room for one more seat, or
    /// for want of memory.
    pub fn again(&self) -> Result<ReadSeat<T, E, J>, AllocError>
        ensures { IfOk result (λ r. r ≡ self.now) }
    {
        let handle = self.handle.clone()?;
        Ok(ReadSeat {
            handle,
            seen: self.seen.again(),
        })
    }

    // How many entries it has seen.
    pub(crate) fn len(&self) -> u64
        ensures { result ≡ length self.now }
    {
        self.seen.len()
    }

    // It has seen what it had seen, and this.
    pub(crate) fn see(&mut self, front: &Front<E, J>)
        ensures own { IsPrefix self.old self.new }
        ensures told { IsPrefix front.now self.new }
        ensures one { (self.new ≡ self.old) ⊎ (self.new ≡ front.now) }
        ensures longer { length self.old ≤ length front.now → self.new ≡ front.now }
    {
        self.seen = front.longer(&self.seen);
    }

    // Answers by what is shown, once that has all that the seat has seen or was told of. `Err`
    // where the seat finds no writer.
    pub(crate) fn try_read<X, F: Fn(&T) -> X>(&mut self, ask: &F) -> Result<Option<X>, NoWriter>
        requires { F.IsAlwaysCallable ask.now }
        ensures seen { IsPrefix self.old self.new }
        ensures answer { IfOk result (λ r. IfSome r (λ x. (value : T)
            × (T.state value ≡ fold T.applied T.start self.new)
            × FnReturnsAt F.Fn ask.now value x)) }
    {
        let Some(guard) = self.handle.enter() else {
            return Err(NoWriter);
        };
        let side: &Side<T, E, J> = &guard;
        if side.front.len() < self.seen.len() {
            return Ok(None);
        }
        self.seen = side.front.longer(&self.seen);
        Ok(Some(ask_of(ask, &side.value)))
    }
}
