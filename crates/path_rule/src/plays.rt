//! What the steps of a seat tell: each is a relation of the word's step, of what the seat knew, of
//! the number that was found, and of what it knows then (`specs/Told.antt`). Beside them stands how
//! seats are handed out and taken in.
use crate::slot::Slot;
use crate::view::View;
use atomic_table::{Join, Play, Split};
use std::marker::PhantomData;

/// A look at a word.
pub struct LookAt<K> {
    keeper: PhantomData<K>,
}

impl<K> Play<Slot<K>, View> for LookAt<K> {
    ghost use Rattle.path_rule.specs.Told.{Looked};

    ghost then = { Looked };
}

/// A seat joins a group of the write order.
pub struct RegisterIn<K> {
    keeper: PhantomData<K>,
}

impl<K> Play<Slot<K>, View> for RegisterIn<K> {
    ghost use Rattle.path_rule.specs.Told.{Registered};

    ghost then = { Registered };
}

/// It leaves that group.
pub struct StopIn<K> {
    keeper: PhantomData<K>,
}

impl<K> Play<Slot<K>, View> for StopIn<K> {
    ghost use Rattle.path_rule.specs.Told.{Stopped};

    ghost then = { Stopped };
}

/// It leaves it once its write was accepted.
pub struct FinishIn<K> {
    keeper: PhantomData<K>,
}

impl<K> Play<Slot<K>, View> for FinishIn<K> {
    ghost use Rattle.path_rule.specs.Told.{Finished};

    ghost then = { Finished };
}

/// It joins a group of the append order, and takes its box.
pub struct JoinIn<K> {
    keeper: PhantomData<K>,
}

impl<K> Play<Slot<K>, View> for JoinIn<K> {
    ghost use Rattle.path_rule.specs.Told.{Joined};

    ghost then = { Joined };
}

/// It leaves that group, with nothing.
pub struct WithdrawFrom<K> {
    keeper: PhantomData<K>,
}

impl<K> Play<Slot<K>, View> for WithdrawFrom<K> {
    ghost use Rattle.path_rule.specs.Told.{Withdrew};

    ghost then = { Withdrew };
}

/// It leaves it with a note.
pub struct DepositIn<K> {
    keeper: PhantomData<K>,
}

impl<K> Play<Slot<K>, View> for DepositIn<K> {
    ghost use Rattle.path_rule.specs.Told.{Deposited};

    ghost then = { Deposited };
}

/// It claims the range of an entry.
pub struct ClaimAt<K> {
    keeper: PhantomData<K>,
}

impl<K> Play<Slot<K>, View> for ClaimAt<K> {
    ghost use Rattle.path_rule.specs.Told.{Claimed};

    ghost then = { Claimed };
}

/// It takes its box of a memtable.
pub struct TakeMemtable<K> {
    keeper: PhantomData<K>,
}

impl<K> Play<Slot<K>, View> for TakeMemtable<K> {
    ghost use Rattle.path_rule.specs.Applying.{MemtableTaken};

    ghost then = { MemtableTaken };
}

/// It gives that box back, with its entry.
pub struct GiveMemtable<K> {
    keeper: PhantomData<K>,
}

impl<K> Play<Slot<K>, View> for GiveMemtable<K> {
    ghost use Rattle.path_rule.specs.Applying.{MemtableGiven};

    ghost then = { MemtableGiven };
}

/// A seat is handed out.
pub struct Deal;

impl Split<View> for Deal {
    ghost use Rattle.path_rule.specs.Sharing.{handing, handed};

    ghost left = { handing };

    ghost right = { handed };
}

/// A seat takes in another.
pub struct Merge;

impl Join<View> for Merge {
    ghost use Rattle.path_rule.specs.Sharing.{taking, spent};

    ghost both = { taking };

    ghost spent = { spent };
}
