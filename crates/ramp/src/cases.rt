// What holds of every ramp, and cases worked by hand.
ghost use Rattle.std.specs.Prelude.{MatchOption};
ghost use Rattle.ramp.specs.Courses.{HasNumbers};
ghost use Rattle.ramp.specs.Laws.{RateLaws, LevelLaws, WorkedCases};

use crate::mode::SpeedMode;
use crate::shape::Ramp;

// The ramp of the first worked case.
pub fn worked() -> Option<Ramp>
    ensures cases { WorkedCases }
    ensures rates { RateLaws }
    ensures levels { LevelLaws }
    ensures made { MatchOption result ⊥ (λ a. HasNumbers 300 1000 1000 a.climb) }
{
    Ramp::new(SpeedMode::High, 300, 1_000, 1_000)
}
