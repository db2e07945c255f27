//! The two orders of groups, as one value.
ghost use Rattle.std.specs.Prelude.{◌≡◌, ◌↔◌, ◌≤◌, IfOk, IsTrue};
ghost use Rattle.op_core.specs.Tallies.{IsPassed};
ghost use Rattle.op_core.specs.Chains.{
  tallies_of,
  with_tallies,
  first_group,
  IsBelow,
  Registers,
  Closes,
  Expires,
  Opens,
};

use crate::chain::Groups;
use crate::count::{GroupFault, Order};
use clog_base::OutOfMemory;
use std::alloc::Global;
use std::marker::Model;

/// The groups of both orders (Cassandra's `OpOrder`, twice). At first group 0 of each is open.
#[derive(Drop)]
pub struct Orders {
    write: Groups,
    append: Groups,
}

impl Model for Orders {
    ghost use Rattle.op_core.specs.Chains.{OrderTallies};

    ghost Value = { OrderTallies };

    ghost use Rattle.std.specs.Prelude.{◌≡◌};

    ghost view = { λ o. record {
      write = o.write.tallies;
      append = o.append.tallies;
      limit = o.write.limit;
    } };

    ghost invariant = { λ o. o.append.limit ≡ o.write.limit };
}

impl Orders {
    /// Group 0 of each order; at most `limit` groups of each may be made.
    pub fn new(alloc: Global, limit: u32) -> Result<Orders, OutOfMemory>
        requires { 1 ≤ limit }
        ensures { IfOk result (λ o. o ≡
            record { write = first_group; append = first_group; limit = limit }) }
    {
        let write = Groups::new(alloc, limit as usize)?;
        let append = Groups::new(alloc, limit as usize)?;
        Ok(Orders { write, append })
    }

    /// One more operation runs in the group, whose count is answered. Expired where none may
    /// register in it any more, NoGroup where it was not made; nothing changes then.
    pub fn register(&mut self, order: Order, group: u64) -> Result<i64, GroupFault>
        requires { IsBelow (tallies_of self.old order) group }
        ensures { Registers result (tallies_of self.old order) group
            (λ ts. self.new ≡ with_tallies self.old order ts) }
    {
        match order {
            Order::Write => self.write.register(group),
            Order::Append => self.append.register(group),
        }
    }

    /// One operation of the group is over; its count is answered. Idle where none runs in it,
    /// NoGroup where it was not made; nothing changes then.
    pub fn close(&mut self, order: Order, group: u64) -> Result<i64, GroupFault>
        ensures { Closes result (tallies_of self.old order) group
            (λ ts. self.new ≡ with_tallies self.old order ts) }
    {
        match order {
            Order::Write => self.write.close(group),
            Order::Append => self.append.close(group),
        }
    }

    /// No more operations may register in the group, whose count is answered. Expired where none
    /// may already, NoGroup where it was not made; nothing changes then.
    pub fn expire(&mut self, order: Order, group: u64) -> Result<i64, GroupFault>
        ensures { Expires result (tallies_of self.old order) group
            (λ ts. self.new ≡ with_tallies self.old order ts) }
    {
        match order {
            Order::Write => self.write.expire(group),
            Order::Append => self.append.expire(group),
        }
    }

    /// Makes the next group of the order. Last where `limit` were made; nothing changes then. It
    /// takes no memory.
    pub fn open_next(&mut self, order: Order) -> Result<u64, GroupFault>
        ensures { Opens result self.old.limit (tallies_of self.old order)
            (λ ts. self.new ≡ with_tallies self.old order ts) }
    {
        match order {
            Order::Write => self.write.open_next(),
            Order::Append => self.append.open_next(),
        }
    }

    /// Whether the barrier of the group is passed: it and all earlier groups are finished.
    pub fn passed(&self, order: Order, group: u64) -> bool
        ensures { IsTrue result ↔ IsPassed (tallies_of self.now order) group }
    {
        match order {
            Order::Write => self.write.passed(group),
            Order::Append => self.append.passed(group),
        }
    }
}
