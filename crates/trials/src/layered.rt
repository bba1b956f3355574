// Examples worked by hand.
use axis::direction::Direction;
use axis::interface::Axis;
use axis::speeds::{starting_speed, top_speed};
use axis::stroke::stroke;
use layers::allowance::Allowance;
use layers::fence::Fence;
use piles::shipped::{
    FencedPhase, Standard, fenced_phase, phase_resolution, phase_travel, standard,
    standard_resolution, standard_travel,
};
use pin::drive::PinAxis;
use std::test::Fail;

const CW: Direction = Direction::Clockwise;

const CCW: Direction = Direction::Counterclockwise;

// The counts of the pin axis below the fence, the allowance, and how many of 2,000 pulses are taken each way from there.
struct Rail {
    counts: (u32, u32),
    allowance: Allowance,
    clockwise: u32,
    counterclockwise: u32,
}

const RAILS: [Rail; 6] = [
    Rail {
        counts: (0, 0),
        allowance: Allowance { down: 0, up: 0 },
        clockwise: 0,
        counterclockwise: 0,
    },
    Rail {
        counts: (0, 0),
        allowance: Allowance {
            down: 700,
            up: 1_999,
        },
        clockwise: 1_999,
        counterclockwise: 700,
    },
    Rail {
        counts: (0, 0),
        allowance: Allowance {
            down: 1_000_000_000,
            up: 4_294_967_295,
        },
        clockwise: 2_000,
        counterclockwise: 2_000,
    },
    // the end below is nearer: 1,500 pulses up, or down
    Rail {
        counts: (1_999_998_500, 0),
        allowance: Allowance {
            down: 1_000,
            up: 2_000,
        },
        clockwise: 1_500,
        counterclockwise: 1_000,
    },
    Rail {
        counts: (0, 1_999_998_500),
        allowance: Allowance {
            down: 2_000,
            up: 1_000,
        },
        clockwise: 1_000,
        counterclockwise: 1_500,
    },
    // the fence is made where the axis stands, not at 0
    Rail {
        counts: (5_000, 0),
        allowance: Allowance { down: 3, up: 4 },
        clockwise: 4,
        counterclockwise: 3,
    },
];

#[test]
fn fences_hold(rt: HostRuntime) -> Result<(), Fail> {
    for rail in RAILS.iter() {
        let pin = PinAxis::counted(rail.counts.0, rail.counts.1, true).ok_or("past the ends")?;
        let mut axis = Fence::new(pin, rail.allowance);
        assert_eq!(rt; stroke(&mut axis, CW, 2_000), rail.clockwise);
        assert_eq!(rt; stroke(&mut axis, CCW, rail.clockwise), rail.clockwise);
        assert_eq!(rt; stroke(&mut axis, CCW, 2_000), rail.counterclockwise);
    }
    Ok(())
}

// An allowance past 1,000,000,000 counts as that.
#[test]
fn fence_is_capped(rt: HostRuntime) -> Result<(), Fail> {
    let pin = PinAxis::counted(0, 1_000_000_000, true).ok_or("past the ends")?;
    let mut axis = Fence::new(
        pin,
        Allowance {
            down: 0,
            up: 1_000_000_001,
        },
    );
    assert_eq!(rt; stroke(&mut axis, CW, 1_000_000_001), 1_000_000_000);
    Ok(())
}

#[test]
fn piles_turn(rt: HostRuntime) {
    let mut pile = standard(Allowance {
        down: 500,
        up: 1_000,
    });
    assert!(rt; !pile.pulse(CW));
    pile.set_windings(true);
    assert_eq!(rt; standard_travel(&mut pile, CW, 2_000), 500);
    assert_eq!(rt; standard_travel(&mut pile, CCW, 2_000), 1_000);
    let mut phase = fenced_phase(Allowance { down: 20, up: 10 });
    phase.set_windings(true);
    assert_eq!(rt; phase_travel(&mut phase, CW, 2_000), 10);
    assert_eq!(rt; phase_travel(&mut phase, CCW, 2_000), 20);
}

// No contract names a layer's constant: here each is compared with what the contracts say.
#[test]
fn resolutions_pass_through(rt: HostRuntime) {
    assert_eq!(rt; Standard::R, 10);
    assert_eq!(rt; standard_resolution(), 10);
    assert_eq!(rt; FencedPhase::R, 2);
    assert_eq!(rt; phase_resolution(), 2);
    assert_eq!(rt; top_speed::<Standard>(), 115_000);
    assert_eq!(rt; starting_speed::<FencedPhase>(), 2_000);
}
