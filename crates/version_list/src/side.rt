//! One of the two copies of what the list's entries are gathered into.
ghost use Rattle.std.specs.Prelude.{◌≡◌, ◌+◌, [], length, IsTrue, MatchResult};

use crate::history::{Front, Naming};
use crate::record::Record;
use left_right::Absorb;
use std::alloc::AllocError;
use std::marker::Model;

/// A value that takes in entries, from a beginning that its type knows.
pub trait Gathers<E: Drop>: Absorb<E> {
    ghost start: { Self.State };
}

/// What was gathered, with the beginning of the history that it was gathered from. Contracts see it
/// as the entries of that.
#[derive(Drop)]
pub struct Side<T: Gathers<E> + Drop, E: Drop, J: Naming> {
    pub(crate) value: T,
    pub(crate) front: Front<E, J>,
}

impl<T: Gathers<E> + Drop, E: Drop, J: Naming> Model for Side<T, E, J> {
    ghost use Rattle.std.specs.Prelude.{◌≡◌, List, fold};

    ghost Value = { List E };

    ghost view = { λ s. s.front };

    ghost invariant = { λ s. T.state s.value ≡ fold T.applied T.start s.front };
}

impl<T: Gathers<E> + Drop, E: Drop, J: Naming> Side<T, E, J> {
    // Nothing gathered yet.
    pub(crate) fn over(value: T, first: &Front<E, J>) -> Side<T, E, J>
        requires front { first.now ≡ [] }
        requires start { T.state value ≡ T.start }
        ensures { result ≡ [] }
    {
        Side {
            value,
            front: first.again(),
        }
    }

    // Whether the record is the next one.
    fn is_before(&self, next: &Record<E, J>) -> bool
        ensures { IsTrue result → (length next.now ≡ length self.now + 1) }
    {
        next.front.len() != 0 && next.front.len() - 1 == self.front.len()
    }

    // Takes a record in, where it is the next one.
    fn take(&mut self, record: &Record<E, J>, other: &T) -> Result<(), AllocError>
        ensures { MatchResult result (λ _. self.new ≡ «record».now) (λ _. self.new ≡ self.old) }
    {
        if !self.is_before(record) {
            return Err(AllocError);
        }
        if self.value.absorb_first(&record.entry, other).is_err() {
            return Err(AllocError);
        }
        self.front = record.front.longer(&self.front);
        Ok(())
    }
}

impl<T: Gathers<E> + Drop, E: Drop, J: Naming> Absorb<Record<E, J>> for Side<T, E, J> {
    // A clause reads an array as a list, of any length.
    type State = [E; 0];

    ghost state = { λ s. s };

    ghost applied = { λ list longer. longer };

    fn absorb_first(
        &mut self,
        operation: &Record<E, J>,
        other: &Side<T, E, J>,
    ) -> Result<(), AllocError> {
        self.take(operation, &other.value)
    }

    fn absorb_second(
        &mut self,
        operation: Record<E, J>,
        other: &Side<T, E, J>,
    ) -> Result<(), Record<E, J>> {
        if !self.is_before(&operation) {
            return Err(operation);
        }
        let Record { entry, front } = operation;
        match self.value.absorb_second(entry, &other.value) {
            Ok(()) => {
                self.front = front.longer(&self.front);
                Ok(())
            }
            Err(entry) => Err(Record { entry, front }),
        }
    }
}
