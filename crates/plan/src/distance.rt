// How far an index goes.
ghost use Rattle.std.specs.Prelude.{◌≡◌, [], pos, ◌+ℤ◌, neg_ℤ, ◌≤ℤ◌, MatchOption};
ghost use Rattle.plan.specs.Legs.{distance, same_way, back, legs, one, listed};

use crate::leg::Leg;
use crate::route::Legs;

// A signed number of pulses, + clockwise; from one counter to another it is no longer than 2 to the 32.
#[derive(Clone, Copy, PartialEq, Eq, Debug)]
pub(crate) struct Distance {
    pulses: i64,
    ghost least: { neg_ℤ (pos 4294967296) ≤ℤ pulses },
    ghost most: { pulses ≤ℤ pos 4294967296 },
}

impl Distance {
    // X itself, or from the counter to X.
    pub(crate) fn to(x: i32, counter: i32, absolute: bool) -> Distance
        ensures { result.pulses ≡ distance x counter absolute }
    {
        let x = i64::from(x);
        let pulses = if absolute { x - i64::from(counter) } else { x };
        Distance { pulses }
    }

    fn is_same_way(self, backlash: i32) -> bool
        ensures { result ≡ same_way self.pulses backlash }
    {
        if self.pulses > 0 {
            return backlash > 0;
        }
        self.pulses < 0 && backlash < 0
    }

    // Past the goal by the backlash, and what that is taken back by.
    fn overshoot(self, backlash: i32) -> (Leg, Leg)
        ensures past { result.0.pulses ≡ self.pulses +ℤ backlash }
        ensures back { result.1.pulses ≡ neg_ℤ backlash }
    {
        let backlash = i64::from(backlash);
        (
            Leg {
                pulses: self.pulses + backlash,
            },
            Leg { pulses: -backlash },
        )
    }

    fn way_back(self, reverse: bool) -> Option<Leg>
        ensures { one result ≡ back self.pulses reverse }
    {
        reverse.then_some(Leg {
            pulses: -self.pulses,
        })
    }

    // From here to there: the overshoot that takes up the backlash, and the way back where the board is set so.
    pub(crate) fn legs(self, backlash: i32, reverse: bool) -> Option<Legs>
        ensures { MatchOption result (legs self.pulses backlash reverse ≡ []) (λ l. listed l ≡ legs self.pulses backlash reverse) }
    {
        if self.pulses == 0 {
            return None;
        }
        let third = self.way_back(reverse);
        if self.is_same_way(backlash) {
            let (first, back) = self.overshoot(backlash);
            return Some(Legs {
                first,
                second: Some(back),
                third,
            });
        }
        Some(Legs {
            first: Leg {
                pulses: self.pulses,
            },
            second: None,
            third,
        })
    }
}
