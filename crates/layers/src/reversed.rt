// A layer that turns an axis round: its place and its ends are those below with the other sign.
ghost use Rattle.std.specs.Prelude.{◌≡◌, neg_ℤ};
ghost use Rattle.std.proofs.Common.{rules};

use axis::direction::Direction;
use axis::display::{Drive, Shown};
use axis::interface::Axis;

#[derive(Drop)]
pub struct Reversed<X> {
    below: X,
}

impl<X: Axis> Reversed<X> {
    pub fn new(below: X) -> Reversed<X>
        ensures { result.below ≡ below }
    {
        Reversed { below }
    }
}

// Written out in each layer: an impl for all at once would need a trait of layers, and half of the members (place, ends, pulse) differ: no plainer.
impl<X: Drive> Drive for Reversed<X> {
    ghost shows = { λ s. X.Drive.shows s.below };

    fn shown(&self) -> Shown {
        self.below.shown()
    }
}

impl<X: Axis> Axis for Reversed<X> {
    const R: u32 = X::R;

    ghost res = { X.Axis.res };

    ghost place = { λ s. neg_ℤ (X.Axis.place s.below) };

    ghost low = { λ s. neg_ℤ (X.Axis.high s.below) };

    ghost high = { λ s. neg_ℤ (X.Axis.low s.below) };

    ghost powered = { λ s. X.Axis.powered s.below };

    ghost resolved = { Prim.search rules };

    ghost least = { Prim.search rules };

    ghost most = { Prim.search rules };

    fn resolution() -> u32 {
        X::resolution()
    }

    fn is_on(&self) -> bool {
        self.below.is_on()
    }

    fn set_windings(&mut self, on: bool) {
        self.below.set_windings(on);
    }

    fn pulse(&mut self, way: Direction) -> bool {
        self.below.pulse(way.reversed())
    }
}
