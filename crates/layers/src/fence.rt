// A layer that keeps an axis near where it stood when the fence was made.
ghost use Rattle.std.specs.Prelude.{◌≡◌, pos};
ghost use Rattle.layers.specs.Allowances.{capped};
ghost use Rattle.layers.specs.Fences.{low_end, high_end};
ghost use Rattle.std.proofs.Common.{rules};

use crate::allowance::Allowance;
use crate::span::Span;
use axis::direction::Direction;
use axis::display::{Drive, Shown};
use axis::interface::Axis;

#[derive(Drop)]
pub struct Fence<X> {
    below: X,
    span: Span,
}

impl<X: Axis> Fence<X> {
    // So far from here, each way capped at 1,000,000,000.
    pub fn new(below: X, allowance: Allowance) -> Fence<X>
        ensures below { result.below ≡ below }
        ensures allowance { result.span.allowance ≡ capped allowance }
        ensures net { result.span.net ≡ pos 0 }
    {
        Fence {
            below,
            span: Span::new(allowance),
        }
    }
}

// Written out, as in `Reversed`, which says why.
impl<X: Drive> Drive for Fence<X> {
    ghost shows = { λ s. X.Drive.shows s.below };

    fn shown(&self) -> Shown {
        self.below.shown()
    }
}

impl<X: Axis> Axis for Fence<X> {
    const R: u32 = X::R;

    ghost res = { X.Axis.res };

    ghost place = { λ s. X.Axis.place s.below };

    ghost low = { λ s. low_end (X.Axis.low s.below) (X.Axis.place s.below) s.span.net s.span.allowance.down };

    ghost high = { λ s. high_end (X.Axis.high s.below) (X.Axis.place s.below) s.span.net s.span.allowance.up };

    ghost powered = { λ s. X.Axis.powered s.below };

    ghost resolved = { Prim.search rules };

    ghost least = { Prim.search rules };

    ghost most = { Prim.search rules };

    fn resolution() -> u32 {
        X::resolution()
    }

    fn is_on(&self) -> bool {
        self.below.is_on()
    }

    fn set_windings(&mut self, on: bool) {
        self.below.set_windings(on);
    }

    fn pulse(&mut self, way: Direction) -> bool {
        let Some(next) = self.span.after(way) else {
            return false;
        };
        if !self.below.pulse(way) {
            return false;
        }
        self.span = next;
        true
    }
}
