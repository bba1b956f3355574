// Examples worked by hand.
use axis::direction::Direction;
use axis::display::{Drive, Shown};
use axis::interface::Axis;
use phase::drive::PhaseAxis;
use pin::drive::PinAxis;
use pin::example::wrapped_counts;
use std::test::Fail;

struct Wrap {
    before: (u32, u32),
    way: Direction,
    taken: bool,
    after: (u32, u32),
}

const CW: Direction = Direction::Clockwise;

const CCW: Direction = Direction::Counterclockwise;

const LAST: u32 = u32::MAX;

// Around 0 and 2^31 of each count, and at both ends of the travel with counts that wrapped and that did not.
const WRAPS: [Wrap; 11] = [
    Wrap {
        before: (LAST, LAST),
        way: CW,
        taken: true,
        after: (0, LAST),
    },
    Wrap {
        before: (0, LAST),
        way: CCW,
        taken: true,
        after: (0, 0),
    },
    Wrap {
        before: (LAST, 0),
        way: CCW,
        taken: true,
        after: (LAST, 1),
    },
    Wrap {
        before: (2_147_483_647, 2_147_483_648),
        way: CW,
        taken: true,
        after: (2_147_483_648, 2_147_483_648),
    },
    Wrap {
        before: (1_999_999_999, 0),
        way: CW,
        taken: true,
        after: (2_000_000_000, 0),
    },
    Wrap {
        before: (2_000_000_000, 0),
        way: CW,
        taken: false,
        after: (2_000_000_000, 0),
    },
    Wrap {
        before: (1_999_999_998, LAST),
        way: CW,
        taken: true,
        after: (1_999_999_999, LAST),
    },
    Wrap {
        before: (1_999_999_999, LAST),
        way: CW,
        taken: false,
        after: (1_999_999_999, LAST),
    },
    Wrap {
        before: (0, 2_000_000_000),
        way: CCW,
        taken: false,
        after: (0, 2_000_000_000),
    },
    Wrap {
        before: (LAST, 1_999_999_998),
        way: CCW,
        taken: true,
        after: (LAST, 1_999_999_999),
    },
    Wrap {
        before: (LAST, 1_999_999_999),
        way: CCW,
        taken: false,
        after: (LAST, 1_999_999_999),
    },
];

#[test]
fn counts_wrap(rt: HostRuntime) -> Result<(), Fail> {
    for case in WRAPS.iter() {
        let (clockwise, counterclockwise) = case.before;
        let mut axis = PinAxis::counted(clockwise, counterclockwise, true).ok_or("past the ends")?;
        assert_eq!(rt; axis.pulse(case.way), case.taken);
        let (clockwise, counterclockwise) = case.after;
        assert_eq!(rt;
            axis.shown(),
            Shown::Counts {
                clockwise,
                counterclockwise,
            }
        );
    }
    assert!(rt; PinAxis::counted(2_000_000_001, 0, true).is_none());
    assert!(rt; PinAxis::counted(0, 2_000_000_001, true).is_none());
    assert!(rt; wrapped_counts().is_some());
    Ok(())
}

#[test]
fn off_is_refused(rt: HostRuntime) {
    let mut pin = PinAxis::new();
    assert!(rt; !pin.is_on());
    assert!(rt; !pin.pulse(CW));
    assert_eq!(rt;
        pin.shown(),
        Shown::Counts {
            clockwise: 0,
            counterclockwise: 0,
        }
    );
    let mut phase = PhaseAxis::new();
    assert!(rt; !phase.pulse(CCW));
    assert_eq!(rt; phase.shown(), Shown::Coils { bits: 0 });
}

#[test]
fn shown_prints(rt: HostRuntime) -> Result<(), Fail> {
    let counts = Shown::Counts {
        clockwise: 3,
        counterclockwise: LAST,
    };
    let coils = Shown::Coils { bits: 9 };
    assert_eq!(rt;
        format!(in rt.alloc(); "{counts}")?.as_str(),
        "counts 3 4294967295"
    );
    assert_eq!(rt; format!(in rt.alloc(); "{coils}")?.as_str(), "coils 9");
    Ok(())
}

const TWO_TURNS: [u8; 16] = [3, 2, 6, 4, 12, 8, 9, 1, 3, 2, 6, 4, 12, 8, 9, 1];

const TWO_TURNS_BACK: [u8; 16] = [9, 8, 12, 4, 6, 2, 3, 1, 9, 8, 12, 4, 6, 2, 3, 1];

#[test]
fn coils_turn(rt: HostRuntime) {
    let mut axis = PhaseAxis::new();
    axis.set_windings(true);
    assert_eq!(rt; axis.shown(), Shown::Coils { bits: 1 });
    for bits in TWO_TURNS {
        assert!(rt; axis.pulse(CW));
        assert_eq!(rt; axis.shown(), Shown::Coils { bits });
    }
    for bits in TWO_TURNS_BACK {
        assert!(rt; axis.pulse(CCW));
        assert_eq!(rt; axis.shown(), Shown::Coils { bits });
    }
}

#[test]
fn phase_ends(rt: HostRuntime) -> Result<(), Fail> {
    let mut top = PhaseAxis::at(249_999_999, 7, true).ok_or("past the ends")?;
    assert!(rt; !top.pulse(CW));
    assert!(rt; top.pulse(CCW));
    let mut bottom = PhaseAxis::at(-250_000_000, 0, true).ok_or("past the ends")?;
    assert!(rt; !bottom.pulse(CCW));
    assert!(rt; bottom.pulse(CW));
    assert!(rt; PhaseAxis::at(250_000_000, 0, true).is_none());
    assert!(rt; PhaseAxis::at(0, 8, true).is_none());
    Ok(())
}
