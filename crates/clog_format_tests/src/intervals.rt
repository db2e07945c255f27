//! Which places intervals cover, by hand.
ghost use Rattle.std.specs.Prelude.{◌≡◌};

use clog_intervals::{Cleans, Hull, Position};
use std::alloc::Global;
use std::test::Fail;

fn at(id: u64, offset: u32) -> Position
    ensures id { result.id ≡ id }
    ensures offset { result.offset ≡ offset }
{
    Position { id, offset }
}

#[test]
fn touching_intervals_cover_the_places_between_them(rt: HostRuntime) -> Result<(), Fail> {
    let mut cleans = Cleans::new(rt.alloc());
    cleans.reserve()?;
    cleans.add(at(7, 10), at(7, 20))?;
    cleans.add(at(7, 20), at(7, 35))?;
    let mut hull = Hull::empty();
    assert!(rt; cleans.covers(&hull), "an empty hull");
    hull.add(at(7, 35));
    hull.add(at(7, 11));
    assert_eq!(rt; hull.ends(), Some((at(7, 11), at(7, 35))));
    assert!(rt; cleans.covers(&hull), "from 11 to 35");
    hull.add(at(7, 10));
    assert!(rt; !cleans.covers(&hull), "from 10 to 35");
    Ok(())
}

// By hand: (1, 5] to (1, 9], a gap at (1, 10) alone, (1, 11] to (3, 2], filled later.
fn with_a_gap(alloc: Global) -> Result<Cleans, Fail> {
    let mut cleans = Cleans::new(alloc);
    cleans.add(at(1, 10), at(3, 2))?;
    cleans.add(at(1, 5), at(1, 9))?;
    cleans.add(at(9, 1), at(9, 1))?;
    Ok(cleans)
}

// Places, and whether they are held.
const PLACES: [(u64, u32, bool); 9] = [
    (1, 5, false),
    (1, 6, true),
    (1, 9, true),
    (1, 10, false),
    (1, 11, true),
    (2, 0, true),
    (3, 2, true),
    (3, 3, false),
    (9, 1, false),
];

#[test]
fn a_gap_of_one_place_is_not_covered_until_it_is_filled(rt: HostRuntime) -> Result<(), Fail> {
    let mut cleans = with_a_gap(rt.alloc())?;
    for (id, offset, held) in &PLACES {
        assert_eq!(rt; cleans.holds(at(*id, *offset)), *held);
    }
    let mut hull = Hull::empty();
    hull.add(at(1, 11));
    hull.add(at(1, 8));
    assert!(rt;
        !cleans.covers(&hull),
        "the ends are held, a place between them is not"
    );
    cleans.add(at(1, 7), at(1, 10))?;
    assert!(rt; cleans.covers(&hull), "the gap is filled");
    assert!(rt; cleans.holds(at(1, 10)));
    assert!(rt; !cleans.holds(at(1, 5)));
    Ok(())
}
