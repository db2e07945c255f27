//! What the steps of a flush tell, by which it reads a memtable (`specs/Flushes.antt`).
use crate::slot::Slot;
use crate::view::View;
use atomic_table::Play;
use std::marker::PhantomData;

/// The boxes of the last retired memtable of a table are emptied from now on.
pub struct BeginEmptying<K> {
    keeper: PhantomData<K>,
}

impl<K> Play<Slot<K>, View> for BeginEmptying<K> {
    ghost use Rattle.path_rule.specs.Flushes.{EmptyingBegun};

    ghost then = { EmptyingBegun };
}

/// The least memtable that is not retired is read from now on.
pub struct BeginRead<K> {
    keeper: PhantomData<K>,
}

impl<K> Play<Slot<K>, View> for BeginRead<K> {
    ghost use Rattle.path_rule.specs.Flushes.{ReadBegun};

    ghost then = { ReadBegun };
}

/// The box of the next seat is taken.
pub struct TakeRead<K> {
    keeper: PhantomData<K>,
}

impl<K> Play<Slot<K>, View> for TakeRead<K> {
    ghost use Rattle.path_rule.specs.Flushes.{ReadTaken};

    ghost then = { ReadTaken };
}

/// It is given back: empty, where the memtable is retired.
pub struct GiveRead<K> {
    keeper: PhantomData<K>,
}

impl<K> Play<Slot<K>, View> for GiveRead<K> {
    ghost use Rattle.path_rule.specs.Flushes.{ReadGiven};

    ghost then = { ReadGiven };
}

/// No memtable is read any more.
pub struct EndRead<K> {
    keeper: PhantomData<K>,
}

impl<K> Play<Slot<K>, View> for EndRead<K> {
    ghost use Rattle.path_rule.specs.Flushes.{ReadEnded};

    ghost then = { ReadEnded };
}

/// A memtable that holds nothing is retired.
pub struct RetireEmpty<K> {
    keeper: PhantomData<K>,
}

impl<K> Play<Slot<K>, View> for RetireEmpty<K> {
    ghost use Rattle.path_rule.specs.Flushes.{Retired};

    ghost then = { Retired };
}
