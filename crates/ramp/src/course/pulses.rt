// One pulse after another of a move.
ghost use Rattle.std.specs.Prelude.{◌≡◌};
ghost use Rattle.std.specs.Iterator.{item_count};
ghost use Rattle.ramp.specs.Courses.{ceiling_of, levels_left, GivesPulse};
ghost use Rattle.ramp.specs.Levels.{to_come, FromRestToRest};
ghost use Rattle.ramp.specs.declared.motor.Motor.TheVariants.{AtRest};

use super::{Course, Pulse};
use crate::motor::Motor;
use crate::shape::Ramp;

impl Course {
    // A move of `count` pulses, not yet begun.
    pub fn new(ramp: Ramp, count: u32) -> Course
        ensures ramp { result.ramp ≡ ramp }
        ensures levels { levels_left result ≡ to_come AtRest (ceiling_of ramp) count }
        ensures law { FromRestToRest (ceiling_of ramp) count (levels_left result) }
    {
        Course {
            ramp,
            motor: Motor::AtRest,
            left: count,
        }
    }
}

impl Iterator for Course {
    type Item = Pulse;

    ghost next_gives = { GivesPulse };

    ghost remaining = { item_count levels_left };

    // The next pulse, or none after the last.
    #[tactic(auto, using(crate::proofs::Profiles::one_on))]
    fn next(&mut self) -> Option<Pulse> {
        if self.left == 0 {
            return None;
        }
        let level = self.ramp.next(self.motor, self.left);
        let rate = self.ramp.rate(level);
        self.motor = Motor::Running { level };
        self.left -= 1;
        Some(Pulse {
            level,
            rate,
            wait: rate.wait(),
        })
    }
}
