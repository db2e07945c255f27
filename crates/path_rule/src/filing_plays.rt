//! What the steps tell by which a memtable goes to a table file (`specs/FilingTold.antt`).
use crate::slot::Slot;
use crate::view::View;
use atomic_table::Play;
use path_core::Keeper;
use std::marker::PhantomData;

/// A look at the synced key, before a table file is put.
pub struct LookFiled<K> {
    keeper: PhantomData<K>,
}

impl<K> Play<Slot<K>, View> for LookFiled<K> {
    ghost use Rattle.path_rule.specs.FilingTold.{FiledFound};

    ghost then = { FiledFound };
}

/// A memtable is retired with its table file.
pub struct RetireFiled<K> {
    keeper: PhantomData<K>,
}

impl<K: Keeper> Play<Slot<K>, View> for RetireFiled<K> {
    ghost use Rattle.path_rule.specs.FilingTold.{RetiredFiled};
    ghost use Rattle.path_rule.specs.Lasts.{shows_of};

    ghost then = { RetiredFiled (shows_of K.holds) };
}

/// A look, after a file was refused or segments were dropped.
pub struct NoteFiling<K> {
    keeper: PhantomData<K>,
}

impl<K: Keeper> Play<Slot<K>, View> for NoteFiling<K> {
    ghost use Rattle.path_rule.specs.FilingTold.{FilingNoted};
    ghost use Rattle.path_rule.specs.Lasts.{shows_of};

    ghost then = { FilingNoted (shows_of K.holds) };
}

/// The log is stopped, since the keeper has stopped as it put a file or dropped segments.
pub struct StopFiling<K> {
    keeper: PhantomData<K>,
}

impl<K: Keeper> Play<Slot<K>, View> for StopFiling<K> {
    ghost use Rattle.path_rule.specs.FilingTold.{FilingStopped};
    ghost use Rattle.path_rule.specs.Lasts.{shows_of};

    ghost then = { FilingStopped (shows_of K.holds) };
}
