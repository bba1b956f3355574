// The rate of a level, the level that a move climbs to, and the level of its next pulse.
ghost use Rattle.std.specs.Prelude.{◌≡◌, false, IfSome, MatchOption};
ghost use Rattle.ramp.specs.Rates.{in_range};
ghost use Rattle.ramp.specs.Levels.{next_level};
ghost use Rattle.ramp.specs.Courses.{HasNumbers, rate_of, ceiling_of, Ceiling};

use super::Ramp;
use crate::climb::Climb;
use crate::mode::SpeedMode;
use crate::motor::Motor;
use crate::rate::Rate;

impl Ramp {
    // None where a number is out of its range, or the low speed is 0 at low speed. Three numbers: out of range there is no Climb to take.
    pub fn new(mode: SpeedMode, low: u32, acceleration: u32, speed: u32) -> Option<Ramp>
        ensures numbers { MatchOption result (in_range mode low acceleration speed ≡ false) (λ a. HasNumbers low acceleration speed a.climb) }
        ensures mode { IfSome result (λ a. a.mode ≡ mode) }
    {
        let climb = Climb::new(low, acceleration, speed)?;
        if !mode.drives(low) {
            return None;
        }
        let ceiling = match mode {
            SpeedMode::Low => 0,
            SpeedMode::High => climb.ceiling(),
        };
        Some(Ramp {
            mode,
            climb,
            ceiling,
        })
    }

    // The level of the highest rate: the least at which it is reached.
    pub fn ceiling(&self) -> u64
        ensures is { result ≡ ceiling_of self.now }
        ensures least { Ceiling self.now result }
    {
        self.ceiling
    }

    pub fn rate(&self, level: u32) -> Rate
        ensures { result.per_second ≡ rate_of self.now level }
    {
        match self.mode {
            SpeedMode::Low => Rate {
                per_second: self.climb.low,
            },
            SpeedMode::High => self.climb.rate(level),
        }
    }

    // The level of the next pulse, with `left` pulses left and that one among them.
    pub fn next(&self, motor: Motor, left: u32) -> u32
        ensures { result ≡ next_level motor (ceiling_of self.now) left }
    {
        match motor {
            Motor::AtRest => 0,
            Motor::Running { level } => {
                let lowest = u64::from(left.saturating_sub(1));
                (u64::from(level) + 1).min(self.ceiling.min(lowest)) as u32
            }
        }
    }
}
