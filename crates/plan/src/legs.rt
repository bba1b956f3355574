// The legs of an index.
ghost use Rattle.std.specs.Prelude.{◌≡◌, [], MatchOption};
ghost use Rattle.plan.specs.Legs.{distance, legs, listed};

use crate::distance::Distance;
use crate::route::Legs;

// None where there is nowhere to go.
pub fn index(x: i32, counter: i32, absolute: bool, backlash: i32, reverse: bool) -> Option<Legs>
    ensures { MatchOption result (legs (distance x counter absolute) backlash reverse ≡ []) (λ l. listed l ≡ legs (distance x counter absolute) backlash reverse) }
{
    Distance::to(x, counter, absolute).legs(backlash, reverse)
}
