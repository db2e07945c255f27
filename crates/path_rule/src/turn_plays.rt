//! What the steps of the holder of the Sync turn tell (`specs/TurnTold.antt`).
use crate::slot::Slot;
use crate::view::View;
use atomic_table::Play;
use path_core::Keeper;
use std::marker::PhantomData;

/// The Sync turn is given back.
pub struct GiveSync<K> {
    keeper: PhantomData<K>,
}

impl<K> Play<Slot<K>, View> for GiveSync<K> {
    ghost use Rattle.path_rule.specs.TurnTold.{SyncGiven};

    ghost then = { SyncGiven };
}

/// The next group of the append order is the current one.
pub struct MoveAppend<K> {
    keeper: PhantomData<K>,
}

impl<K> Play<Slot<K>, View> for MoveAppend<K> {
    ghost use Rattle.path_rule.specs.TurnTold.{AppendMoved};

    ghost then = { AppendMoved };
}

/// The one before it expires.
pub struct ExpireAppend<K> {
    keeper: PhantomData<K>,
}

impl<K> Play<Slot<K>, View> for ExpireAppend<K> {
    ghost use Rattle.path_rule.specs.TurnTold.{AppendExpired};

    ghost then = { AppendExpired };
}

/// The oldest group moves on.
pub struct AdvanceAppend<K> {
    keeper: PhantomData<K>,
}

impl<K> Play<Slot<K>, View> for AdvanceAppend<K> {
    ghost use Rattle.path_rule.specs.TurnTold.{AppendAdvanced};

    ghost then = { AppendAdvanced };
}

/// The box of another seat is taken.
pub struct GatherBox<K> {
    keeper: PhantomData<K>,
}

impl<K> Play<Slot<K>, View> for GatherBox<K> {
    ghost use Rattle.path_rule.specs.TurnTold.{Gathered};

    ghost then = { Gathered };
}

/// That box is given back empty.
pub struct GiveBack<K> {
    keeper: PhantomData<K>,
}

impl<K> Play<Slot<K>, View> for GiveBack<K> {
    ghost use Rattle.path_rule.specs.TurnTold.{GaveBack};

    ghost then = { GaveBack };
}

/// The Sync turn is taken.
pub struct TakeSync<K> {
    keeper: PhantomData<K>,
}

impl<K: Keeper> Play<Slot<K>, View> for TakeSync<K> {
    ghost use Rattle.path_rule.specs.Lasts.{shows_of};
    ghost use Rattle.path_rule.specs.TurnTold.{SyncTaken};

    ghost then = { SyncTaken (shows_of K.holds) };
}

/// The next group of the write order is made.
pub struct OpenWrite<K> {
    keeper: PhantomData<K>,
}

impl<K> Play<Slot<K>, View> for OpenWrite<K> {
    ghost use Rattle.path_rule.specs.TurnTold.{WriteOpened};

    ghost then = { WriteOpened };
}

/// It is the current one.
pub struct MoveWrite<K> {
    keeper: PhantomData<K>,
}

impl<K> Play<Slot<K>, View> for MoveWrite<K> {
    ghost use Rattle.path_rule.specs.TurnTold.{WriteMoved};

    ghost then = { WriteMoved };
}

/// The one before it expires.
pub struct ExpireWrite<K> {
    keeper: PhantomData<K>,
}

impl<K> Play<Slot<K>, View> for ExpireWrite<K> {
    ghost use Rattle.path_rule.specs.TurnTold.{WriteExpired};

    ghost then = { WriteExpired };
}

/// The oldest group moves on.
pub struct AdvanceWrite<K> {
    keeper: PhantomData<K>,
}

impl<K> Play<Slot<K>, View> for AdvanceWrite<K> {
    ghost use Rattle.path_rule.specs.TurnTold.{WriteAdvanced};

    ghost then = { WriteAdvanced };
}

/// A marker is claimed.
pub struct ClaimMarker<K> {
    keeper: PhantomData<K>,
}

impl<K> Play<Slot<K>, View> for ClaimMarker<K> {
    ghost use Rattle.path_rule.specs.TurnTold.{MarkerClaimed};

    ghost then = { MarkerClaimed };
}

/// A look at the synced key, before the keeper is lent notes.
pub struct LookLent<K> {
    keeper: PhantomData<K>,
}

impl<K> Play<Slot<K>, View> for LookLent<K> {
    ghost use Rattle.path_rule.specs.TurnTold.{LentFound};

    ghost then = { LentFound };
}

/// The next group of the append order is made.
pub struct OpenAppend<K> {
    keeper: PhantomData<K>,
}

impl<K> Play<Slot<K>, View> for OpenAppend<K> {
    ghost use Rattle.path_rule.specs.TurnTold.{AppendOpened};

    ghost then = { AppendOpened };
}

/// The synced key is put.
pub struct PutSynced<K> {
    keeper: PhantomData<K>,
}

impl<K: Keeper> Play<Slot<K>, View> for PutSynced<K> {
    ghost use Rattle.path_rule.specs.Lasts.{shows_of};
    ghost use Rattle.path_rule.specs.TurnTold.{SyncedPut};

    ghost then = { SyncedPut (shows_of K.holds) };
}

/// The log is stopped.
pub struct PutStopped<K> {
    keeper: PhantomData<K>,
}

impl<K: Keeper> Play<Slot<K>, View> for PutStopped<K> {
    ghost use Rattle.path_rule.specs.Lasts.{shows_of};
    ghost use Rattle.path_rule.specs.TurnTold.{StoppedPut};

    ghost then = { StoppedPut (shows_of K.holds) };
}

/// A look, after a sync that was refused.
pub struct KeepRefused<K> {
    keeper: PhantomData<K>,
}

impl<K: Keeper> Play<Slot<K>, View> for KeepRefused<K> {
    ghost use Rattle.path_rule.specs.Lasts.{shows_of};
    ghost use Rattle.path_rule.specs.TurnTold.{RefusedKept};

    ghost then = { RefusedKept (shows_of K.holds) };
}
