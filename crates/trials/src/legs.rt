// The legs of an index and where they may end, worked by hand.
use plan::fault::MoveFault;
use plan::leg::Leg;
use plan::legs::index;
use plan::limits::{Limits, check};
use plan::route::Legs;
use std::test::Fail;

// X, the counter, absolute, backlash, way back, and the legs: out, backlash, way back.
const INDEXES: [(i32, i32, bool, i32, bool, [Option<i64>; 3]); 7] = [
    (100, 0, false, 5, true, [Some(105), Some(-5), Some(-100)]),
    (100, 30, true, 0, false, [Some(70), None, None]),
    (-100, 0, false, -5, false, [Some(-105), Some(5), None]),
    (-100, 0, false, 5, true, [Some(-100), None, Some(100)]),
    (7, 7, true, 5, true, [None; 3]),
    (0, 9, false, 5, true, [None; 3]),
    (
        2_147_483_647,
        -2_147_483_648,
        true,
        1,
        false,
        [Some(4_294_967_296), Some(-1), None],
    ),
];

fn pulses(legs: Option<Legs>) -> [Option<i64>; 3] {
    let legs = legs.map_or(
        [None; 3],
        |legs| [Some(legs.first), legs.second, legs.third],
    );
    legs.map(|leg: Option<Leg>| leg.map(|leg| leg.pulses))
}

#[test]
fn legs_of_an_index(rt: HostRuntime) {
    for (x, counter, absolute, backlash, reverse, want) in INDEXES {
        let legs = pulses(index(x, counter, absolute, backlash, reverse));
        assert_eq!(rt; legs, want);
    }
}

// Distance, the counter, backlash, both limits, and the refusal. A limit of 0 is none.
const CHECKS: [(i32, i32, i32, i32, i32, Option<MoveFault>); 8] = [
    (100, 0, 0, 100, 0, None),
    (101, 0, 0, 100, 0, Some(MoveFault::PastLimit)),
    (100, 0, 1, 100, 0, Some(MoveFault::PastLimit)),
    (-100, 0, 0, 50, -100, None),
    (-101, 0, 0, 50, -100, Some(MoveFault::PastLimit)),
    (1, 999_999_998, 0, 0, 0, None),
    (1, 999_999_999, 0, 0, 0, Some(MoveFault::PastEnd)),
    (1, 999_999_999, 0, 5, 0, Some(MoveFault::PastLimit)),
];

#[test]
fn where_legs_may_end(rt: HostRuntime) -> Result<(), Fail> {
    for (distance, counter, backlash, clockwise, counterclockwise, want) in CHECKS {
        let legs = index(distance, counter, false, backlash, false).ok_or("no legs")?;
        let limits = Limits {
            clockwise,
            counterclockwise,
        };
        assert_eq!(rt; check(legs, counter, limits).err(), want);
    }
    Ok(())
}
