// A worked case of counts that wrap.
ghost use Rattle.std.specs.Prelude.{◌≡◌, pos, IsSomeAnd};
ghost use Rattle.pin.specs.Counts.{apart};

use crate::drive::PinAxis;

// Counterclockwise one short of wrapping to 0, clockwise 3: the place is 4.
pub fn wrapped_counts() -> Option<PinAxis>
    ensures told { apart 3 4294967295 ≡ pos 4 }
    ensures clockwise { IsSomeAnd result (λ a. a.clockwise ≡ 3) }
    ensures counterclockwise { IsSomeAnd result (λ a. a.counterclockwise ≡ 4294967295) }
    ensures place { IsSomeAnd result (λ a. apart a.clockwise a.counterclockwise ≡ pos 4) }
{
    PinAxis::counted(3, 4_294_967_295, true)
}
