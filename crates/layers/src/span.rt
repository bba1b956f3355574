// How far an axis may go from where it stood, and how far it has gone.
ghost use Rattle.std.specs.Prelude.{◌≡◌, ◌≤◌, true, false, pos, ◌+ℤ◌, neg_ℤ, ◌≤ℤ◌, IfNone, IfSome};
ghost use Rattle.axis.specs.Steps.{step};
ghost use Rattle.layers.specs.Allowances.{allows, capped, widest};

use crate::allowance::Allowance;
use axis::direction::Direction;

#[derive(Clone, Copy, PartialEq, Eq, Debug)]
pub struct Span {
    // From where it began.
    allowance: Allowance,
    // Pulses taken since, clockwise less counterclockwise.
    net: i32,
    ghost down_capped: { allowance.down ≤ widest },
    ghost up_capped: { allowance.up ≤ widest },
    ghost least: { neg_ℤ (pos allowance.down) ≤ℤ net },
    ghost most: { net ≤ℤ pos allowance.up },
}

impl Span {
    // An allowance past the widest counts as the widest.
    pub fn new(allowance: Allowance) -> Span
        ensures allowance { result.allowance ≡ capped allowance }
        ensures net { result.net ≡ pos 0 }
    {
        Span {
            allowance: allowance.capped(),
            net: 0,
        }
    }

    // One pulse on; none where that would leave the span.
    pub fn after(self, way: Direction) -> Option<Span>
        ensures none { IfNone result (allows self.allowance (self.net +ℤ step way) ≡ false) }
        ensures some { IfSome result (λ s. allows self.allowance (self.net +ℤ step way) ≡ true) }
        ensures allowance { IfSome result (λ s. s.allowance ≡ self.allowance) }
        ensures net { IfSome result (λ s. s.net ≡ self.net +ℤ step way) }
    {
        let net = self.net + way.step();
        if !self.allowance.allows(net) {
            return None;
        }
        Some(Span {
            allowance: self.allowance,
            net,
        })
    }
}
