//! Groups and barriers, what no clause says: each call once with ample memory, on worked cases.
use op_core::{GroupFault, Order, Orders};
use std::process::Abort;
use std::test::Fail;

// Three operations leave an expired group, which is passed then.
fn close_three(rt: &impl Abort, orders: &mut Orders) {
    let before = orders.passed(Order::Write, 0);
    let first = orders.close(Order::Write, 0);
    let second = orders.close(Order::Write, 0);
    let third = orders.close(Order::Write, 0);
    assert_eq!(rt; [first, second, third], [Ok(-3), Ok(-2), Ok(-1)]);
    let after = orders.passed(Order::Write, 0);
    let other = orders.passed(Order::Append, 0);
    assert_eq!(rt; [before, after, other], [false, true, false]);
}

#[test]
fn three_operations_pass_a_barrier(rt: HostRuntime) -> Result<(), Fail> {
    let mut orders = Orders::new(rt.alloc(), 2)?;
    let first = orders.register(Order::Write, 0);
    let second = orders.register(Order::Write, 0);
    let third = orders.register(Order::Write, 0);
    let opened = orders.open_next(Order::Write);
    assert_eq!(rt; [first, second, third], [Ok(1), Ok(2), Ok(3)]);
    let expired = orders.expire(Order::Write, 0);
    let late = orders.register(Order::Write, 0);
    let refused = Err(GroupFault::Expired(-4));
    assert_eq!(rt; (opened, [expired, late]), (Ok(1), [Ok(-4), refused]));
    close_three(&rt, &mut orders);
    Ok(())
}

#[test]
fn a_registration_before_the_expiry_counts_as_before_the_barrier(
    rt: HostRuntime,
) -> Result<(), Fail> {
    let mut orders = Orders::new(rt.alloc(), 2)?;
    let opened = orders.open_next(Order::Append);
    let registered = orders.register(Order::Append, 0);
    let expired = orders.expire(Order::Append, 0);
    let before = orders.passed(Order::Append, 0);
    assert_eq!(rt; (opened, registered, expired), (Ok(1), Ok(1), Ok(-2)));
    let closed = orders.close(Order::Append, 0);
    let after = orders.passed(Order::Append, 0);
    let again = orders.expire(Order::Append, 0);
    assert_eq!(rt; [before, after], [false, true]);
    assert_eq!(rt; [closed, again], [Ok(-1), Err(GroupFault::Expired(-1))]);
    Ok(())
}

#[test]
fn what_is_not_there_is_refused(rt: HostRuntime) -> Result<(), Fail> {
    let mut orders = Orders::new(rt.alloc(), 1)?;
    let opened = orders.open_next(Order::Write);
    assert_eq!(rt; opened, Err(GroupFault::Last));
    let idle = orders.close(Order::Append, 0);
    let none = orders.close(Order::Append, 1);
    let registered = orders.register(Order::Write, 1);
    let expired = orders.expire(Order::Write, 7);
    let no_group = Err(GroupFault::NoGroup);
    let refused = [Err(GroupFault::Idle(0)), no_group, no_group, no_group];
    assert_eq!(rt; [idle, none, registered, expired], refused);
    assert!(rt; !orders.passed(Order::Write, 1));
    Ok(())
}
