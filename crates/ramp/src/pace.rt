// The level of the next pulse.
ghost use Rattle.std.specs.Prelude.{◌≡◌, [], ◌∷◌, MatchOption};
ghost use Rattle.ramp.specs.Levels.{slower, fades, fading};

use crate::motor::Motor;

impl Motor {
    // The level of the next pulse while slowing; none where the motor now rests.
    pub fn slower(self) -> Option<u32>
        ensures is { result ≡ slower self }
        ensures rest { MatchOption result (fades self ≡ []) (λ s. fades self ≡ s ∷ fading s) }
    {
        match self {
            Motor::AtRest => None,
            Motor::Running { level } => level.checked_sub(1),
        }
    }
}
