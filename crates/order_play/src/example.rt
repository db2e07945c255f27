//! One reader and three places, step by step.
ghost use Rattle.std.specs.Prelude.{◌<◌, ◌≤◌, ◌+◌};
ghost use Rattle.op_order.specs.Owners.{IsOwnerOf};

use anyhow::{Result, bail};
use op_order::{Fact, OpOrder, Owner, Publish, Reclaim};

// A value is 7 more than its sequence, so none is taken for that.
struct Sevens;

impl Fact for Sevens {
    ghost use Rattle.std.specs.Prelude.{◌≡◌, ◌+◌};

    ghost fits = { λ sequence value. value ≡ sequence + 7 };
}

// Publishes the next value.
fn put(order: &OpOrder<Sevens>, owner: &mut Owner) -> Publish
    requires owner { IsOwnerOf order.now.table.shared.table_id order.now.places owner.old }
    requires few { owner.old.sequence < 1000 }
    ensures owner { IsOwnerOf order.now.table.shared.table_id order.now.places owner.new }
    ensures few { owner.new.sequence ≤ owner.old.sequence + 1 }
{
    order.publish(owner, owner.published() + 8)
}

fn tell_put(rt: &HostRuntime, answer: Publish) -> Result<()> {
    match answer {
        Publish::Published(sequence) => println!(rt; "published {sequence}")?,
        Publish::Full { retired } => println!(rt; "full, {retired} retired")?,
    }
    Ok(())
}

fn tell_reclaim(rt: &HostRuntime, answer: Reclaim) -> Result<()> {
    let freed = answer.freed;
    match answer.running {
        Some((group, count)) => println!(rt; "freed {freed}, group {group} counts {count}")?,
        None => println!(rt; "freed {freed}")?,
    }
    Ok(())
}

/// While its operation runs the reader's place is not written: the owner fills the other two, finds
/// no third, and takes nothing back. Once the operation has ended both are free.
pub(crate) fn show(rt: &HostRuntime) -> Result<()> {
    let Ok((order, mut owner, mut readers)) = OpOrder::<Sevens>::open(rt.alloc(), 1, 3, 7) else {
        bail!("out of memory");
    };
    let Some(reader) = readers.pop() else {
        bail!("no reader");
    };
    let Ok(mut op) = order.start(reader) else {
        bail!("refused");
    };
    println!(rt; "looked {}", order.look(&mut op))?;
    tell_put(rt, put(&order, &mut owner))?;
    tell_put(rt, put(&order, &mut owner))?;
    tell_put(rt, put(&order, &mut owner))?;
    tell_reclaim(rt, order.reclaim(&mut owner))?;
    println!(rt; "value {}", order.value(&mut op))?;
    readers.push(order.end(op))?;
    tell_reclaim(rt, order.reclaim(&mut owner))?;
    tell_put(rt, put(&order, &mut owner))?;
    println!(rt; "free {}, retired {}", owner.free(), owner.retired())?;
    println!(rt; "closed {}", order.close(owner, readers))?;
    Ok(())
}
