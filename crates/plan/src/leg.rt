// One leg of a move.
ghost use Rattle.std.specs.Prelude.{pos, neg_ℤ, ◌≤ℤ◌};

// A signed number of pulses, + clockwise; no move is longer than 2 to the 33.
#[derive(Clone, Copy, PartialEq, Eq, Debug)]
pub struct Leg {
    pub pulses: i64,
    ghost least: { neg_ℤ (pos 8589934592) ≤ℤ pulses },
    ghost most: { pulses ≤ℤ pos 8589934592 },
}
