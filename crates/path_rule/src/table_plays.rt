//! What the steps on the words of a table tell (`specs/TableTold.antt`).
use crate::slot::Slot;
use crate::view::View;
use atomic_table::Play;
use std::marker::PhantomData;

/// A table's Flush turn is taken.
pub struct TakeFlush<K> {
    keeper: PhantomData<K>,
}

impl<K> Play<Slot<K>, View> for TakeFlush<K> {
    ghost use Rattle.path_rule.specs.TableTold.{FlushTaken};

    ghost then = { FlushTaken };
}

/// It is given back.
pub struct GiveFlush<K> {
    keeper: PhantomData<K>,
}

impl<K> Play<Slot<K>, View> for GiveFlush<K> {
    ghost use Rattle.path_rule.specs.TableTold.{FlushGiven};

    ghost then = { FlushGiven };
}

/// The bound of a memtable is raised.
pub struct RaiseBound<K> {
    keeper: PhantomData<K>,
}

impl<K> Play<Slot<K>, View> for RaiseBound<K> {
    ghost use Rattle.path_rule.specs.TableTold.{BoundRaised};

    ghost then = { BoundRaised };
}

/// The place of the next memtable of a table is cleared.
pub struct ClearPlace<K> {
    keeper: PhantomData<K>,
}

impl<K> Play<Slot<K>, View> for ClearPlace<K> {
    ghost use Rattle.path_rule.specs.TableTold.{PlaceCleared};

    ghost then = { PlaceCleared };
}

/// The next memtable of a table is made.
pub struct OpenMemtable<K> {
    keeper: PhantomData<K>,
}

impl<K> Play<Slot<K>, View> for OpenMemtable<K> {
    ghost use Rattle.path_rule.specs.TableTold.{MemtableOpened};

    ghost then = { MemtableOpened };
}

/// The one below it is marked.
pub struct MarkMemtable<K> {
    keeper: PhantomData<K>,
}

impl<K> Play<Slot<K>, View> for MarkMemtable<K> {
    ghost use Rattle.path_rule.specs.TableTold.{MemtableMarked};

    ghost then = { MemtableMarked };
}

/// A marked memtable is made final.
pub struct FinaliseMemtable<K> {
    keeper: PhantomData<K>,
}

impl<K> Play<Slot<K>, View> for FinaliseMemtable<K> {
    ghost use Rattle.path_rule.specs.TableTold.{MemtableFinal};

    ghost then = { MemtableFinal };
}
