// Whether all legs of a move may be made.
ghost use Rattle.std.specs.Prelude.{◌≡◌};
ghost use Rattle.plan.specs.Legs.{listed};
ghost use Rattle.plan.specs.Limits.{enabled, past_limit, any_leg, allowed};

use crate::fault::MoveFault;
use crate::route::Legs;

// Of the counter, as the board is set. `Option<i32>` is no plainer: the parameter is a number of which 0 is none, and each caller would turn it.
#[derive(Clone, Copy, PartialEq, Eq, Debug)]
pub struct Limits {
    pub clockwise: i32,
    pub counterclockwise: i32,
}

// The counter's own, which are always there.
const ENDS: Limits = Limits {
    clockwise: 999_999_999,
    counterclockwise: -999_999_999,
};

fn is_enabled(limit: i32) -> bool
    ensures { result ≡ enabled limit }
{
    limit != 0
}

impl Limits {
    // Whether a leg of so many pulses that ends there ends past the limit of its way.
    fn is_past(self, leg: i64, end: i64) -> bool
        ensures { result ≡ past_limit self.clockwise self.counterclockwise leg end }
    {
        if leg > 0 {
            return is_enabled(self.clockwise) && end > i64::from(self.clockwise);
        }
        leg < 0 && is_enabled(self.counterclockwise) && end < i64::from(self.counterclockwise)
    }

    // Whether any leg is such, one after the other from the counter on.
    fn any_is_past(self, legs: Legs, counter: i32) -> bool
        ensures { result ≡ any_leg (past_limit self.clockwise self.counterclockwise) counter (listed legs) }
    {
        let mut end = i64::from(counter);
        // Of a slice's `iter`, since std has lemmas on what that yields, and none on an array's own.
        for leg in [Some(legs.first), legs.second, legs.third]
            .iter()
            .copied()
            .flatten()
        {
            end += leg.pulses;
            if self.is_past(leg.pulses, end) {
                return true;
            }
        }
        false
    }
}

// Before the first pulse: no leg may end past an enabled limit of its way, nor past the counter's end.
pub fn check(legs: Legs, counter: i32, limits: Limits) -> Result<(), MoveFault>
    ensures { result ≡ allowed limits.clockwise limits.counterclockwise counter (listed legs) }
{
    if limits.any_is_past(legs, counter) {
        return Err(MoveFault::PastLimit);
    }
    if ENDS.any_is_past(legs, counter) {
        return Err(MoveFault::PastEnd);
    }
    Ok(())
}
