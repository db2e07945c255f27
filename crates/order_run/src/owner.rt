//! What the owner does.
ghost use Rattle.std.specs.Prelude.{◌≡◌, ◌+◌, ◌<◌, ◌≤◌, suc};
ghost use Rattle.op_order.specs.Owners.{IsOwnerOf};

use crate::products::{Products, product};
use op_order::{OpOrder, Owner, Publish};
use std::sync::Wait;
use std::thread::yield_now;

// Publishes the next value. While no place is free it takes places back, and tries again. Returns
// how many places were freed. No clause says that it returns.
fn publish_next<R: Wait>(rt: &R, order: &OpOrder<Products>, owner: &mut Owner) -> u64
    requires owner { IsOwnerOf order.now.table.shared.table_id order.now.places owner.old }
    requires few { owner.old.sequence < 1000000 }
    ensures owner { IsOwnerOf order.now.table.shared.table_id order.now.places owner.new }
    ensures published { owner.new.sequence ≡ suc owner.old.sequence }
    ensures freed { owner.new.oldest ≡ owner.old.oldest + result }
{
    let value = product(owner.published() + 1);
    let mut freed = 0;
    for _ in rt.forever() {
        if let Publish::Published(_) = order.publish(owner, value) {
            return freed;
        }
        freed += u64::from(order.reclaim(owner).freed);
        yield_now();
    }
    unreachable!()
}

/// Publishes so many values, and returns how many places were freed.
pub fn publish_all<R: Wait>(
    rt: &R,
    order: &OpOrder<Products>,
    owner: Owner,
    rounds: u32,
) -> (Owner, u64)
    requires owner { IsOwnerOf order.now.table.shared.table_id order.now.places owner }
    requires first { (owner.sequence ≡ 0) × (owner.oldest ≡ 0) }
    requires few { rounds ≤ 1000000 }
    ensures owner { IsOwnerOf order.now.table.shared.table_id order.now.places result.0 }
    ensures published { result.0.sequence ≡ rounds }
    ensures freed { result.0.oldest ≡ result.1 }
{
    let mut owner = owner;
    let mut freed = 0;
    for _ in 0..rounds {
        freed += publish_next(rt, order, &mut owner);
    }
    (owner, freed)
}

/// Takes back each place that is retired, and returns how many these were: once no operation runs
/// one call of `reclaim` does. No clause says that it returns.
pub(crate) fn reclaim_all<R: Wait>(rt: &R, order: &OpOrder<Products>, owner: &mut Owner) -> u64
    requires { IsOwnerOf order.now.table.shared.table_id order.now.places owner.old }
    ensures owner { IsOwnerOf order.now.table.shared.table_id order.now.places owner.new }
    ensures same { owner.new.sequence ≡ owner.old.sequence }
    ensures freed { owner.new.sequence ≡ owner.old.oldest + result }
{
    let mut freed = 0;
    for _ in rt.forever() {
        let reclaimed = order.reclaim(owner);
        freed += u64::from(reclaimed.freed);
        if reclaimed.running.is_none() {
            return freed;
        }
        yield_now();
    }
    unreachable!()
}
