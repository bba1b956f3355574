// What a move's ramp depends on.
ghost use Rattle.std.specs.Prelude.{◌≡◌, true};
ghost use Rattle.ramp.specs.Rates.{ceiling_level, drives};

use crate::climb::Climb;
use crate::mode::SpeedMode;

pub mod levels;

#[derive(Clone, Copy, PartialEq, Eq, Debug)]
pub struct Ramp {
    mode: SpeedMode,
    climb: Climb,
    // Kept so that no pulse has to divide for it.
    ceiling: u64,
    ghost driven: { drives mode climb.low ≡ true },
    ghost ceiling_is: { ceiling ≡ ceiling_level mode climb.low climb.acceleration climb.speed },
}
