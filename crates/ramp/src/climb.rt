// A climb: from the low speed, at the acceleration, up to the move's speed. Its arithmetic.
ghost use Rattle.std.specs.Prelude.{◌≡◌, ◌≤◌, false, MatchOption};
ghost use Rattle.ramp.specs.Rates.{climbs, rate_at, ceiling_level, lift};
ghost use Rattle.ramp.specs.declared.mode.SpeedMode.TheVariants.{High};

use crate::rate::Rate;
use crate::root::whole_root;

#[derive(Clone, Copy, PartialEq, Eq, Debug)]
pub(crate) struct Climb {
    pub(crate) low: u32,
    pub(crate) acceleration: u32,
    pub(crate) speed: u32,
    ghost low_most: { low ≤ 1875000 },
    ghost acceleration_some: { 1 ≤ acceleration },
    ghost acceleration_most: { acceleration ≤ 99999999 },
    ghost speed_some: { 1 ≤ speed },
    ghost speed_most: { speed ≤ 1875000 },
}

impl Climb {
    ghost use Rattle.ramp.specs.Courses.{HasNumbers};

    // None where a number is out of its range.
    pub(crate) fn new(low: u32, acceleration: u32, speed: u32) -> Option<Climb>
        ensures { MatchOption result (climbs low acceleration speed ≡ false) (HasNumbers low acceleration speed) }
    {
        if low > 1_875_000
            || !(1..=99_999_999).contains(&acceleration)
            || !(1..=1_875_000).contains(&speed)
        {
            return None;
        }
        Some(Climb {
            low,
            acceleration,
            speed,
        })
    }

    fn lift(self) -> u64
        ensures { result ≡ lift self.low }
    {
        u64::from(self.low == 0)
    }

    // The level at which the speed is reached.
    #[tactic(auto, using(crate::proofs::Climbs::rounded_up))]
    pub(crate) fn ceiling(self) -> u64
        ensures { result ≡ ceiling_level High self.low self.acceleration self.speed }
    {
        if self.low >= self.speed {
            return 0;
        }
        let low = u64::from(self.low);
        let speed = u64::from(self.speed);
        (speed * speed - low * low).div_ceil(2 * u64::from(self.acceleration)) - self.lift()
    }

    // The rate at a level.
    pub(crate) fn rate(self, level: u32) -> Rate
        ensures { result.per_second ≡ rate_at High self.low self.acceleration self.speed level }
    {
        if self.low >= self.speed {
            return Rate {
                per_second: self.speed,
            };
        }
        let low = u64::from(self.low);
        let rise = 2 * u64::from(self.acceleration) * (u64::from(level) + self.lift());
        Rate {
            per_second: self.speed.min(whole_root(low * low + rise)),
        }
    }
}
