// An axis by four coils, in eight phases to a turn.
ghost use Rattle.std.specs.Prelude.{◌≡◌, ◌<◌, false, ◌&&◌, pos, ◌≤ℤ◌, IfNone, IfSome, nat_lt};
ghost use Rattle.axis.specs.Pulses.{within};
ghost use Rattle.phase.specs.Phases.{turned, low_end, high_end, coil_bits};
ghost use Rattle.axis.specs.declared.display.Shown.TheVariants.{Coils};
ghost use Rattle.std.proofs.Common.{rules};

use axis::direction::Direction;
use axis::display::{Drive, Shown};
use axis::interface::Axis;

const LAST_TURN: i32 = 249_999_999;

const FIRST_TURN: i32 = -250_000_000;

const COILS: [u8; 8] = [1, 3, 2, 6, 4, 12, 8, 9];

#[derive(Drop)]
pub struct PhaseAxis {
    turns: i32,
    phase: u8,
    on: bool,
    ghost small: { phase < 8 },
    ghost least: { low_end ≤ℤ turned turns phase },
    ghost most: { turned turns phase ≤ℤ high_end },
}

impl PhaseAxis {
    // Off, at place 0.
    pub fn new() -> PhaseAxis
        ensures turns { result.turns ≡ pos 0 }
        ensures phase { result.phase ≡ 0 }
        ensures off { result.on ≡ false }
    {
        PhaseAxis {
            turns: 0,
            phase: 0,
            on: false,
        }
    }

    // In this phase of this turn; none where there is no such phase, or it lies past the ends.
    pub fn at(turns: i32, phase: u8, on: bool) -> Option<PhaseAxis>
        ensures none { IfNone result ((nat_lt phase 8 && within low_end high_end (turned turns phase)) ≡ false) }
        ensures turns { IfSome result (λ a. a.turns ≡ turns) }
        ensures phase { IfSome result (λ a. a.phase ≡ phase) }
        ensures on { IfSome result (λ a. a.on ≡ on) }
    {
        if phase > 7 {
            return None;
        }
        if !(FIRST_TURN..=LAST_TURN).contains(&turns) {
            return None;
        }
        Some(PhaseAxis { turns, phase, on })
    }
}

impl Drive for PhaseAxis {
    ghost shows = { λ s. Coils (coil_bits s.on s.phase) };

    fn shown(&self) -> Shown {
        let bits = if self.on {
            COILS[usize::from(self.phase)]
        } else {
            0
        };
        Shown::Coils { bits }
    }
}

impl Axis for PhaseAxis {
    const R: u32 = 2;

    ghost res = { 2 };

    ghost place = { λ s. turned s.turns s.phase };

    ghost low = { λ _. low_end };

    ghost high = { λ _. high_end };

    ghost powered = { λ s. s.on };

    ghost resolved = { Prim.search rules };

    ghost least = { Prim.search rules };

    ghost most = { Prim.search rules };

    // This and the next two are every drive's; the members that differ are more, and no trait of drives would be shorter.
    fn resolution() -> u32 {
        Self::R
    }

    fn is_on(&self) -> bool {
        self.on
    }

    fn set_windings(&mut self, on: bool) {
        self.on = on;
    }

    fn pulse(&mut self, way: Direction) -> bool {
        if !self.on {
            return false;
        }
        match way {
            Direction::Clockwise => {
                if self.phase < 7 {
                    self.phase += 1;
                } else if self.turns < LAST_TURN {
                    self.turns += 1;
                    self.phase = 0;
                } else {
                    return false;
                }
            }
            Direction::Counterclockwise => {
                if self.phase > 0 {
                    self.phase -= 1;
                } else if self.turns > FIRST_TURN {
                    self.turns -= 1;
                    self.phase = 7;
                } else {
                    return false;
                }
            }
        }
        true
    }
}
