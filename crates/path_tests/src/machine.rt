//! A bound on worked cases, and a path that keeps the law. Runs of steps are played by `path_play`.
use clog_base::{Key, OutOfMemory, Sizes};
use path_core::{Bound, Event, Place, Turn};
use path_machine::{LawfulPath, StepFault, accepts};
use std::test::Fail;

#[test]
fn a_final_bound_takes_what_is_at_or_below_it(rt: HostRuntime) {
    let bound = Bound::Final(Key(60));
    let (at, above) = (accepts(bound, Key(60)), accepts(bound, Key(61)));
    assert_eq!(rt; (at, above), ((true, bound), (false, bound)));
}

#[test]
fn a_raising_bound_rises_to_what_it_takes(rt: HostRuntime) {
    let live = accepts(Bound::Live, Key(60));
    let raised = accepts(Bound::Raising(Key(0)), Key(60));
    let kept = accepts(Bound::Raising(Key(92)), Key(60));
    let wanted = [
        (true, Bound::Live),
        (true, Bound::Raising(Key(60))),
        (true, Bound::Raising(Key(92))),
    ];
    assert_eq!(rt; [live, raised, kept], wanted);
}

#[test]
fn a_lawful_path_makes_what_is_allowed_alone(rt: HostRuntime) -> Result<(), Fail> {
    let sizes = Sizes::make(1, 1, 4096, 1).ok_or(OutOfMemory)?;
    let mut path = LawfulPath::new(rt.alloc(), sizes, 1000)?;
    let look = Event::Look {
        by: 0,
        at: Place::Log,
    };
    let looked = path.step(&look).is_ok();
    let log = path.state().log;
    let give = Event::GiveTurn {
        by: 0,
        turn: Turn::Sync,
    };
    let is_refused = path.step(&give) == Err(StepFault::NotAllowed);
    assert_eq!(rt; (looked, log, is_refused), (true, 28, true));
    Ok(())
}
