//! The history of all that was published, and its beginnings.
ghost use Rattle.std.specs.Prelude.{◌≡◌, ◌<◌, ◌≤◌, ◌^◌, ◌++◌, ◌∷◌, ◌⊎◌, [], length, MatchBool};
ghost use mathlib.Core.List.{IsPrefix};
ghost use Rattle.version_list.specs.Rules.{IsLonger, head_of};

use crate::rule::{Add, Law, Nothing};
use logbook::{Offer, Seen, Start, Word};
use std::marker::{Brand, Model, PhantomData};

/// Which history it is. Each call of a program picks it.
pub trait Naming {
    ghost use Rattle.logbook.specs.Pages.{Book};

    ghost book: { Book };
}

impl Naming for Brand {
    ghost book = { record { number = 0; log_name = 0; cells_name = 0 } };
}

/// An empty history that has no name yet.
#[derive(Drop)]
pub struct NewHistory<E> {
    head: Word<E, u64, Law>,
    seen: Seen<E, u64, Law>,
    pub ghost empty: { seen.log ≡ [] },
    pub ghost head_is: { head ≡ head_of seen.book },
}

impl<E> NewHistory<E> {
    /// An empty history.
    pub fn new() -> NewHistory<E> {
        let (seen, mut first, _second) = Seen::open(Start::alone(), 0, 0);
        NewHistory {
            head: Word::tracked(0, &mut first),
            seen,
        }
    }

    // The history under a name, and its empty beginning.
    pub(crate) fn named<J: Naming>(self) -> (History<E, J>, Front<E, J>)
        requires { self.seen.book ≡ J.book }
        ensures { result.1 ≡ [] }
    {
        let NewHistory { head, seen } = self;
        (
            History {
                head,
                of: PhantomData,
            },
            Front {
                count: 0,
                seen,
                of: PhantomData,
            },
        )
    }
}

/// The word that all threads share: the length of the history.
#[derive(Drop)]
pub struct History<E, J: Naming> {
    head: Word<E, u64, Law>,
    of: PhantomData<J>,
    ghost head_is: { head ≡ head_of J.book },
}

/// A beginning of the history that was seen. Contracts see it as its entries; what it holds is
/// their count.
#[derive(Drop)]
pub struct Front<E, J: Naming> {
    count: u64,
    seen: Seen<E, u64, Law>,
    of: PhantomData<J>,
}

impl<E, J: Naming> Model for Front<E, J> {
    ghost use Rattle.std.specs.Prelude.{◌≡◌, List, length};

    ghost Value = { List E };

    ghost view = { λ f. f.seen.log };

    ghost invariant = { λ f. (f.count ≡ length f.seen.log) × (f.seen.book ≡ J.book) };
}

impl<E, J: Naming> Front<E, J> {
    /// How many entries it has.
    pub fn len(&self) -> u64
        ensures { result ≡ length self.now }
    {
        self.count
    }

    // A copy.
    pub(crate) fn again(&self) -> Front<E, J>
        ensures { result ≡ self.now }
    {
        Front {
            count: self.count,
            seen: self.seen.again(),
            of: PhantomData,
        }
    }

    // The longer of two, which the other begins.
    pub(crate) fn longer(&self, other: &Front<E, J>) -> Front<E, J>
        ensures one { (result ≡ self.now) ⊎ (result ≡ other.now) }
        ensures longer { length other.now ≤ length self.now → result ≡ self.now }
        ensures this { IsPrefix self.now result }
        ensures that { IsPrefix other.now result }
    {
        let mut both = self.seen.again();
        both.learn(&other.seen);
        if self.count < other.count {
            other.again()
        } else {
            self.again()
        }
    }

    // Adds an entry, and says whether it did. It did not where the history is longer.
    pub(crate) fn add(&mut self, history: &History<E, J>, entry: &E) -> bool
        requires { length self.old < 2 ^ 62 }
        ensures { MatchBool result (self.new ≡ self.old ++ entry.now ∷ [])
            (IsLonger self.old self.new) }
    {
        let mut offer: Offer<E, u64, Law, Nothing> = self.seen.plain::<Nothing, E, Add>(entry);
        let mut pen = self.seen.no_pen();
        let count = self.count;
        let found = history
            .head
            .compare_exchange::<Add, Nothing>(
                count,
                count + 1,
                &mut self.seen,
                &mut offer,
                &mut pen,
            );
        self.count = if found == count { count + 1 } else { found };
        found == count
    }
}
