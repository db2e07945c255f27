//! The groups of one order, from the first. There is room for all that may be made, so that a group
//! is made without memory.
ghost use Rattle.std.specs.Prelude.{◌≡◌, ◌↔◌, ◌≤◌, IfOk, IsTrue};
ghost use Rattle.std.specs.List.{list_all};
ghost use Rattle.op_core.specs.Tallies.{running_of, number_of, is_finished, IsPassed};
ghost use Rattle.op_core.specs.Chains.{first_group, IsBelow, Registers, Closes, Expires, Opens};

use crate::count::{GroupFault, Tally};
use std::alloc::{AllocError, Global};
use std::marker::Model;

#[derive(Drop)]
pub(crate) struct Groups {
    tallies: Vec<Tally>,
    limit: usize,
}

impl Model for Groups {
    ghost use Rattle.op_core.specs.Chains.{Chain};

    ghost Value = { Chain };

    ghost use Rattle.op_core.specs.ChainFields.{chain_of, HasRoom};

    ghost view = { chain_of };

    ghost invariant = { HasRoom };
}

/// A count as the signed number that stands for it.
fn number(tally: Tally) -> i64
    requires { running_of tally ≤ 4611686018427387904 }
    ensures { result ≡ number_of tally }
{
    match tally {
        Tally::Open(running) => running as i64,
        Tally::Expired(left) => -1 - left as i64,
    }
}

impl Groups {
    /// Group 0 alone, open and empty.
    pub(crate) fn new(alloc: Global, limit: usize) -> Result<Groups, AllocError>
        requires { 1 ≤ limit }
        ensures { IfOk result (λ g. (g.tallies ≡ first_group) × (g.limit ≡ limit)) }
    {
        let mut tallies = Vec::with_capacity(alloc, limit)?;
        tallies.push_reserved(Tally::Open(0));
        Ok(Groups { tallies, limit })
    }

    /// One more operation runs in the group. Expired where none may register, NoGroup where it was
    /// not made.
    pub(crate) fn register(&mut self, group: u64) -> Result<i64, GroupFault>
        requires { IsBelow self.old.tallies group }
        ensures { Registers result self.old.tallies group
            (λ ts. self.new ≡ record self.old { tallies = ts }) }
    {
        if group >= self.tallies.len() as u64 {
            return Err(GroupFault::NoGroup);
        }
        match self.tallies[group as usize] {
            Tally::Open(running) => {
                let tally = Tally::Open(running + 1);
                self.tallies[group as usize] = tally;
                Ok(number(tally))
            }
            Tally::Expired(left) => Err(GroupFault::Expired(number(Tally::Expired(left)))),
        }
    }

    /// One operation of the group is over. Idle where none runs in it, NoGroup where it was not
    /// made.
    pub(crate) fn close(&mut self, group: u64) -> Result<i64, GroupFault>
        ensures { Closes result self.old.tallies group
            (λ ts. self.new ≡ record self.old { tallies = ts }) }
    {
        if group >= self.tallies.len() as u64 {
            return Err(GroupFault::NoGroup);
        }
        let tally = match self.tallies[group as usize] {
            Tally::Open(0) => return Err(GroupFault::Idle(0)),
            Tally::Expired(0) => return Err(GroupFault::Idle(-1)),
            Tally::Open(running) => Tally::Open(running - 1),
            Tally::Expired(left) => Tally::Expired(left - 1),
        };
        self.tallies[group as usize] = tally;
        Ok(number(tally))
    }

    /// No more operations may register in the group. Expired where none may already, NoGroup where
    /// it was not made.
    pub(crate) fn expire(&mut self, group: u64) -> Result<i64, GroupFault>
        ensures { Expires result self.old.tallies group
            (λ ts. self.new ≡ record self.old { tallies = ts }) }
    {
        if group >= self.tallies.len() as u64 {
            return Err(GroupFault::NoGroup);
        }
        match self.tallies[group as usize] {
            Tally::Open(running) => {
                let tally = Tally::Expired(running);
                self.tallies[group as usize] = tally;
                Ok(number(tally))
            }
            Tally::Expired(left) => Err(GroupFault::Expired(number(Tally::Expired(left)))),
        }
    }

    /// Makes the next group. Last where as many were made as may be.
    pub(crate) fn open_next(&mut self) -> Result<u64, GroupFault>
        ensures { Opens result self.old.limit self.old.tallies
            (λ ts. self.new ≡ record self.old { tallies = ts }) }
    {
        let made = self.tallies.len();
        if made == self.limit {
            return Err(GroupFault::Last);
        }
        self.tallies.push_reserved(Tally::Open(0));
        Ok(made as u64)
    }

    /// Whether the group and all earlier ones are finished; not where it was not made.
    pub(crate) fn passed(&self, group: u64) -> bool
        ensures { IsTrue result ↔ IsPassed self.now.tallies group }
    {
        is_passed(&self.tallies, group)
    }
}

/// Whether the barrier of a group is passed over these counts: the group was made, and it and all
/// earlier ones are finished.
pub fn is_passed(tallies: &[Tally], group: u64) -> bool
    ensures { IsTrue result ↔ IsPassed tallies.now group }
{
    if group >= tallies.len() as u64 {
        return false;
    }
    are_finished(&tallies[..group as usize + 1])
}

/// Whether each of these groups is finished.
fn are_finished(tallies: &[Tally]) -> bool
    ensures { result ≡ list_all is_finished tallies.now }
{
    tallies.iter().all(|tally| *tally == Tally::Expired(0))
}
