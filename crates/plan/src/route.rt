// The legs of a move.
use crate::leg::Leg;

// One after the other.
#[derive(Clone, Copy, PartialEq, Eq, Debug)]
pub struct Legs {
    pub first: Leg,
    pub second: Option<Leg>,
    pub third: Option<Leg>,
}
