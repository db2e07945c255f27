//! What each kind of step tells its seat (`specs/Told.antt`).
use crate::fact::Fact;
use crate::view::View;
use atomic_table::{Play, Split};
use std::marker::PhantomData;

/// A reader looks at the current group.
pub struct LookCurrent;

impl Play<u64, View> for LookCurrent {
    ghost use Rattle.op_order.specs.Told.{saw_current};

    ghost then = { saw_current };
}

/// A reader looks at the count of a group.
pub struct LookCount;

impl Play<u64, View> for LookCount {
    ghost use Rattle.op_order.specs.Told.{saw_count};

    ghost then = { saw_count };
}

/// A reader joins a group.
pub struct RegisterIn;

impl Play<u64, View> for RegisterIn {
    ghost use Rattle.op_order.specs.Told.{registered};

    ghost then = { registered };
}

/// An operation looks at the root.
pub struct LookRoot;

impl Play<u64, View> for LookRoot {
    ghost use Rattle.op_order.specs.Told.{saw_root};

    ghost then = { saw_root };
}

/// An operation ends.
pub struct StopIn;

impl Play<u64, View> for StopIn {
    ghost use Rattle.op_order.specs.Told.{stopped};

    ghost then = { stopped };
}

/// The owner puts a value into a free place.
pub struct StorePlace;

impl Play<u64, View> for StorePlace {
    ghost use Rattle.op_order.specs.Told.{stored};

    ghost then = { stored };
}

/// That place becomes the root.
pub struct StoreRoot;

impl Play<u64, View> for StoreRoot {
    ghost use Rattle.op_order.specs.Told.{rooted};

    ghost then = { rooted };
}

/// The owner makes the next group.
pub struct OpenGroup;

impl Play<u64, View> for OpenGroup {
    ghost use Rattle.op_order.specs.Told.{opened};

    ghost then = { opened };
}

/// That group becomes the current one.
pub struct MoveCurrent;

impl Play<u64, View> for MoveCurrent {
    ghost use Rattle.op_order.specs.Told.{moved};

    ghost then = { moved };
}

/// The group before is expired.
pub struct ExpireGroup;

impl Play<u64, View> for ExpireGroup {
    ghost use Rattle.op_order.specs.Told.{expired_group};

    ghost then = { expired_group };
}

/// The owner looks at the count of the oldest group.
pub struct LookOldest;

impl Play<u64, View> for LookOldest {
    ghost use Rattle.op_order.specs.Told.{saw_oldest};

    ghost then = { saw_oldest };
}

/// The oldest group moves on.
pub struct AdvanceOldest;

impl Play<u64, View> for AdvanceOldest {
    ghost use Rattle.op_order.specs.Told.{advanced};

    ghost then = { advanced };
}

/// An operation that has looked reads the value of its place.
pub struct LookValue<F> {
    fact: PhantomData<F>,
}

impl<F: Fact> Play<u64, View> for LookValue<F> {
    ghost use Rattle.op_order.specs.Told.{saw_value};

    ghost then = { saw_value F.fits };
}

/// A reader is handed out by the owner.
pub struct Deal;

impl Split<View> for Deal {
    ghost use Rattle.op_order.specs.Told.{dealing, dealt};

    ghost left = { dealing };

    ghost right = { dealt };
}
