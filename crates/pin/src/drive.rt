// An axis by two pins: each pulse is counted on the pin of its direction.
ghost use Rattle.std.specs.Prelude.{◌≡◌, false, ◌+ℤ◌, ◌≤ℤ◌, if◌then◌else◌, IfNone, IfSome};
ghost use Rattle.axis.specs.Pulses.{takes, within};
ghost use Rattle.axis.specs.Steps.{step};
ghost use Rattle.pin.specs.Counts.{apart, low_end, high_end, Telling, clockwise_after, counterclockwise_after};
ghost use Rattle.axis.specs.declared.display.Shown.TheVariants.{Counts};
ghost use Rattle.std.proofs.Common.{rules};

use axis::direction::Direction;
use axis::display::{Drive, Shown};
use axis::interface::Axis;

const HIGH_END: i32 = 2_000_000_000;

const LOW_END: i32 = -2_000_000_000;

// The place that two counts tell.
fn told(clockwise: u32, counterclockwise: u32) -> i32
    ensures { result ≡ apart clockwise counterclockwise }
{
    clockwise.wrapping_sub(counterclockwise).cast_signed()
}

#[derive(Drop)]
pub struct PinAxis {
    clockwise: u32,
    counterclockwise: u32,
    on: bool,
    ghost least: { low_end ≤ℤ apart clockwise counterclockwise },
    ghost most: { apart clockwise counterclockwise ≤ℤ high_end },
}

impl PinAxis {
    // Off, at place 0.
    pub fn new() -> PinAxis
        ensures clockwise { result.clockwise ≡ 0 }
        ensures counterclockwise { result.counterclockwise ≡ 0 }
        ensures off { result.on ≡ false }
    {
        PinAxis {
            clockwise: 0,
            counterclockwise: 0,
            on: false,
        }
    }

    // With these counts; none where they give a place past the ends.
    pub fn counted(clockwise: u32, counterclockwise: u32, on: bool) -> Option<PinAxis>
        ensures none { IfNone result (within low_end high_end (apart clockwise counterclockwise) ≡ false) }
        ensures clockwise { IfSome result (λ a. a.clockwise ≡ clockwise) }
        ensures counterclockwise { IfSome result (λ a. a.counterclockwise ≡ counterclockwise) }
        ensures on { IfSome result (λ a. a.on ≡ on) }
    {
        let place = told(clockwise, counterclockwise);
        if !(LOW_END..=HIGH_END).contains(&place) {
            return None;
        }
        Some(PinAxis {
            clockwise,
            counterclockwise,
            on,
        })
    }
}

impl Drive for PinAxis {
    ghost shows = { λ s. Counts s.clockwise s.counterclockwise };

    // The two counts tell the place, though they wrap.
    fn shown(&self) -> Shown
        ensures is { result ≡ Counts self.now.clockwise self.now.counterclockwise }
        ensures tells { Telling self.now.clockwise self.now.counterclockwise }
    {
        Shown::Counts {
            clockwise: self.clockwise,
            counterclockwise: self.counterclockwise,
        }
    }
}

impl Axis for PinAxis {
    const R: u32 = 10;

    ghost res = { 10 };

    ghost place = { λ s. apart s.clockwise s.counterclockwise };

    ghost low = { λ _. low_end };

    ghost high = { λ _. high_end };

    ghost powered = { λ s. s.on };

    ghost resolved = { Prim.search rules };

    ghost least = { Prim.search rules };

    ghost most = { Prim.search rules };

    // This and the next two are every drive's; the members that differ are more, and no trait of drives would be shorter.
    fn resolution() -> u32 {
        Self::R
    }

    fn is_on(&self) -> bool {
        self.on
    }

    fn set_windings(&mut self, on: bool) {
        self.on = on;
    }

    // Besides what every axis promises: which of the two counts moves.
    fn pulse(&mut self, way: Direction) -> bool
        ensures taken { result ≡ takes self.old.on low_end high_end (apart self.old.clockwise self.old.counterclockwise) way }
        ensures place { apart self.new.clockwise self.new.counterclockwise ≡ (if result then apart self.old.clockwise self.old.counterclockwise +ℤ step way else apart self.old.clockwise self.old.counterclockwise) }
        ensures powered { self.new.on ≡ self.old.on }
        ensures refused { result ≡ false → self.new ≡ self.old }
        ensures clockwise { self.new.clockwise ≡ (if result then clockwise_after way self.old.clockwise else self.old.clockwise) }
        ensures counterclockwise { self.new.counterclockwise ≡ (if result then counterclockwise_after way self.old.counterclockwise else self.old.counterclockwise) }
    {
        if !self.on {
            return false;
        }
        let place = told(self.clockwise, self.counterclockwise);
        match way {
            Direction::Clockwise => {
                if place >= HIGH_END {
                    return false;
                }
                self.clockwise = self.clockwise.wrapping_add(1);
            }
            Direction::Counterclockwise => {
                if place <= LOW_END {
                    return false;
                }
                self.counterclockwise = self.counterclockwise.wrapping_add(1);
            }
        }
        true
    }
}
