//! A value at rest. A struct with a seat in a field cannot be shared between threads; one with a
//! seat at rest can, since nobody sees it until it is taken out. What is taken out is what was laid
//! to rest.
//!
//! It is a table of one slot and no word, on which no step is made.
ghost use Rattle.std.specs.Prelude.{◌≡◌, MatchResult};

use atomic_table::{Refused, Table, TableRule};
use std::alloc::{AllocFailed, Global};
use std::marker::PhantomData;
use std::snapshot::Snapshot;

/// The rule of such a table: the slot is at home, and has the value.
pub struct Untouched<T> {
    value: PhantomData<T>,
}

impl<T> TableRule<T, (), Snapshot<T>> for Untouched<T> {
    ghost use Rattle.std.specs.Prelude.{◌≡◌, [], ◌∷◌};
    ghost use mathlib.Core.Option.{some};

    ghost holds = { λ key s. s.homes ≡ some key.value ∷ [] };

    ghost first = { λ _. tt };
}

/// A value at rest.
#[derive(Drop)]
pub struct Resting<T> {
    table: Table<T, (), Snapshot<T>, Untouched<T>, Global>,
    ghost one: { table.shared.table_id.slots ≡ 1 },
}

impl<T: Drop> Resting<T> {
    /// Lays a value to rest. Where memory is refused it comes back.
    pub(crate) fn lay(alloc: Global, value: T) -> Result<Resting<T>, T>
        ensures { MatchResult result (λ r. r.table.shared.key.value ≡ value) (λ v. v ≡ value) }
    {
        let key = Snapshot::of(&value);
        let mut slots = Vec::new(alloc);
        if let Err(AllocFailed { value }) = slots.push(value) {
            return Err(value);
        }
        match Table::new(alloc, &[], slots, &key) {
            Ok((table, _)) => Ok(Resting { table }),
            Err(Refused { mut slots }) => match slots.pop() {
                Some(value) => Err(value),
                None => unreachable!(),
            },
        }
    }

    /// Takes the value out.
    pub(crate) fn take(self) -> T
        ensures { result ≡ self.table.shared.key.value }
    {
        let Resting { table } = self;
        let mut closed = table.close();
        let value = closed.take(0);
        closed.free();
        value
    }
}
