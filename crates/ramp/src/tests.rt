// Tables by second/ramp.py, which finds the ceiling by trying levels; the short rows by hand.
use crate::cases::worked;
use crate::course::Course;
use crate::mode::SpeedMode;
use crate::motor::Motor;
use crate::root::whole_root;
use crate::shape::Ramp;
use std::process::Abort;
use std::test::Fail;

const HIGH: SpeedMode = SpeedMode::High;

const LOW: SpeedMode = SpeedMode::Low;

const ROOTS: [(u64, u32); 11] = [
    (0, 0),
    (1, 1),
    (3, 1),
    (4, 2),
    (15, 3),
    (16, 4),
    (999_999_999_999, 999_999),
    (1_000_000_000_000, 1_000_000),
    (18_446_744_065_119_617_024, 4_294_967_294),
    (18_446_744_065_119_617_025, 4_294_967_295),
    (18_446_744_073_709_551_615, 4_294_967_295),
];

#[test]
fn roots(rt: HostRuntime) {
    for (n, root) in ROOTS {
        assert_eq!(rt; whole_root(n), root);
    }
}

struct Case {
    ramp: (SpeedMode, u32, u32, u32),
    level: u32,
    rate: u32,
    wait: u32,
}

const RATES: [Case; 16] = [
    Case {
        ramp: (HIGH, 300, 1_000, 1_000),
        level: 0,
        rate: 300,
        wait: 50_000,
    },
    Case {
        ramp: (HIGH, 300, 1_000, 1_000),
        level: 1,
        rate: 303,
        wait: 49_504,
    },
    Case {
        ramp: (HIGH, 300, 1_000, 1_000),
        level: 454,
        rate: 998,
        wait: 15_030,
    },
    Case {
        ramp: (HIGH, 300, 1_000, 1_000),
        level: 455,
        rate: 1_000,
        wait: 15_000,
    },
    Case {
        ramp: (HIGH, 300, 1_000, 1_000),
        level: 4_294_967_295,
        rate: 1_000,
        wait: 15_000,
    },
    Case {
        ramp: (HIGH, 0, 1_000, 1_000),
        level: 0,
        rate: 44,
        wait: 340_909,
    },
    Case {
        ramp: (HIGH, 0, 1, 1_875_000),
        level: 0,
        rate: 1,
        wait: 15_000_000,
    },
    Case {
        ramp: (HIGH, 0, 1, 1_875_000),
        level: 2_000_000_000,
        rate: 63_245,
        wait: 237,
    },
    Case {
        ramp: (HIGH, 0, 99_999_999, 1_875_000),
        level: 0,
        rate: 14_142,
        wait: 1_060,
    },
    Case {
        ramp: (HIGH, 0, 99_999_999, 1_875_000),
        level: 17_578,
        rate: 1_875_000,
        wait: 8,
    },
    Case {
        ramp: (HIGH, 1_000, 1_000, 1_000),
        level: 7,
        rate: 1_000,
        wait: 15_000,
    },
    Case {
        ramp: (HIGH, 2_000, 1_000, 999),
        level: 3,
        rate: 999,
        wait: 15_015,
    },
    Case {
        ramp: (HIGH, 3, 1, 5),
        level: 7,
        rate: 4,
        wait: 3_750_000,
    },
    Case {
        ramp: (HIGH, 3, 1, 5),
        level: 8,
        rate: 5,
        wait: 3_000_000,
    },
    Case {
        ramp: (LOW, 300, 1_000, 1_000),
        level: 5,
        rate: 300,
        wait: 50_000,
    },
    Case {
        ramp: (LOW, 1_875_000, 1, 1),
        level: 0,
        rate: 1_875_000,
        wait: 8,
    },
];

#[test]
fn rates(rt: HostRuntime) -> Result<(), Fail> {
    for case in &RATES {
        let (mode, low, acceleration, speed) = case.ramp;
        let ramp = Ramp::new(mode, low, acceleration, speed).ok_or("out of range")?;
        let rate = ramp.rate(case.level);
        assert_eq!(rt; rate.per_second(), case.rate);
        assert_eq!(rt; rate.wait(), case.wait);
    }
    Ok(())
}

const CEILINGS: [(u32, u32, u32, u64); 9] = [
    (0, 1_000, 1_000, 499),
    (0, 1, 1_875_000, 1_757_812_499_999),
    (0, 99_999_999, 1, 0),
    (1_874_999, 1, 1_875_000, 1_875_000),
    (1_000, 1_000, 1_000, 0),
    (2_000, 1_000, 1_000, 0),
    (300, 99_999_999, 115_000, 67),
    (1, 1, 2, 2),
    (0, 1, 1, 0),
];

#[test]
fn ceilings(rt: HostRuntime) -> Result<(), Fail> {
    for (low, acceleration, speed, ceiling) in CEILINGS {
        let ramp = Ramp::new(HIGH, low, acceleration, speed).ok_or("out of range")?;
        assert_eq!(rt; ramp.ceiling(), ceiling);
    }
    let ramp = worked().ok_or("out of range")?;
    assert_eq!(rt; ramp.ceiling(), 455);
    Ok(())
}

const REFUSED: [(SpeedMode, u32, u32, u32); 7] = [
    (HIGH, 1_875_001, 1, 1),
    (HIGH, 0, 0, 1),
    (HIGH, 0, 100_000_000, 1),
    (HIGH, 0, 1, 0),
    (HIGH, 0, 1, 1_875_001),
    (LOW, 0, 1, 1),
    (LOW, 1_875_001, 1, 1),
];

#[test]
fn ranges(rt: HostRuntime) {
    for (mode, low, acceleration, speed) in REFUSED {
        assert!(rt; Ramp::new(mode, low, acceleration, speed).is_none());
    }
}

// One pulse, two, a triangle, a trapezoid under ceiling 2, and low speed.
const TRIANGLE: [u32; 5] = [0, 1, 2, 1, 0];

const TRAPEZOID: [u32; 7] = [0, 1, 2, 2, 2, 1, 0];

fn takes(
    rt: &impl Abort,
    mode: SpeedMode,
    acceleration: u32,
    speed: u32,
    levels: &[u32],
) -> Result<(), Fail> {
    let ramp = Ramp::new(mode, 300, acceleration, speed).ok_or("out of range")?;
    let count = u32::try_from(levels.len())?;
    let course = Course::new(ramp, count);
    assert!(rt; course.map(|pulse| pulse.level).eq(levels.iter().copied()));
    Ok(())
}

#[test]
fn moves(rt: HostRuntime) -> Result<(), Fail> {
    takes(&rt, HIGH, 1_000, 1_000, &[])?;
    takes(&rt, HIGH, 1_000, 1_000, &[0])?;
    takes(&rt, HIGH, 1_000, 1_000, &[0, 0])?;
    takes(&rt, HIGH, 1_000, 1_000, &TRIANGLE)?;
    takes(&rt, HIGH, 100_000, 700, &TRAPEZOID)?;
    takes(&rt, LOW, 1_000, 1_000, &[0, 0, 0])
}

#[test]
fn slowing(rt: HostRuntime) {
    assert_eq!(rt; Motor::AtRest.slower(), None);
    assert_eq!(rt; Motor::Running { level: 0 }.slower(), None);
    assert_eq!(rt; Motor::Running { level: 7 }.slower(), Some(6));
}
