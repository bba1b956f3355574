// The one interface that every pulse goes through.
ghost use Rattle.std.specs.Prelude.{◌≡◌, ℕ, Bool, false, ℤ, ◌+ℤ◌, ◌≤ℤ◌, if◌then◌else◌};
ghost use Rattle.axis.specs.Steps.{step};
ghost use Rattle.axis.specs.Pulses.{takes};
ghost use Rattle.axis.specs.Resolutions.{Resolution};

use crate::direction::Direction;

pub trait Axis {
    // The resolution of this kind of axis; a layer has that of the axis below it.
    const R: u32;

    // R, as clauses can cite it.
    ghost res: { ℕ };

    // Where the axis stands.
    ghost place: { Self → ℤ };

    // The ends of its travel.
    ghost low: { Self → ℤ };

    ghost high: { Self → ℤ };

    // Whether the windings are on.
    ghost powered: { Self → Bool };

    fn resolution() -> u32
        ensures { result ≡ res };

    fn is_on(&self) -> bool
        ensures { result ≡ powered self.now };

    fn set_windings(&mut self, on: bool)
        ensures powered { powered self.new ≡ on }
        ensures place { place self.new ≡ place self.old }
        ensures low { low self.new ≡ low self.old }
        ensures high { high self.new ≡ high self.old };

    // True if the pulse was taken; a refused one leaves the whole value as it was.
    fn pulse(&mut self, way: Direction) -> bool
        ensures taken { result ≡ takes (powered self.old) (low self.old) (high self.old) (place self.old) way }
        ensures place { place self.new ≡ (if result then place self.old +ℤ step way else place self.old) }
        ensures low { low self.new ≡ low self.old }
        ensures high { high self.new ≡ high self.old }
        ensures powered { powered self.new ≡ powered self.old }
        ensures refused { result ≡ false → self.new ≡ self.old };

    ghost resolved: { Resolution res };

    ghost least: { (x : Self) → low x ≤ℤ place x };

    ghost most: { (x : Self) → place x ≤ℤ high x };
}
