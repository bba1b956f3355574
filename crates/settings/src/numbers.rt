// Values that are no numbers, by their numbers.
ghost use Rattle.std.specs.Prelude.{◌≡◌, ◌≢◌, pos, negsuc, if◌then◌else◌, int_lt, MatchResult};
ghost use Rattle.axis.specs.Steps.{step};
ghost use Rattle.settings.specs.Values.{format_number};
ghost use Rattle.settings.specs.declared.parameter.RunFormat.{RunFormat};

use crate::parameter::RunFormat;
use crate::values::OutOfRange;
use axis::direction::Direction;

impl RunFormat {
    pub fn number(self) -> i32
        ensures { result ≡ format_number self }
    {
        self as i32
    }
}

// A match of its own, which for three formats is shorter than a search by their numbers.
impl TryFrom<i32> for RunFormat {
    type Error = OutOfRange;

    ghost try_from_gives = { λ number outcome. MatchResult outcome (λ format. format_number format ≡ number) (λ _. (format : RunFormat) → format_number format ≢ number) };

    fn try_from(number: i32) -> Result<RunFormat, OutOfRange> {
        match number {
            1 => Ok(RunFormat::SingleLine),
            2 => Ok(RunFormat::Counted),
            3 => Ok(RunFormat::Endless),
            _ => Err(OutOfRange),
        }
    }
}

// Clockwise unless the number is below 0. No conversion, since only the sign counts.
pub fn signed_direction(number: i32) -> Direction
    ensures { step result ≡ (if int_lt number (pos 0) then negsuc 0 else pos 1) }
{
    if number < 0 {
        Direction::Counterclockwise
    } else {
        Direction::Clockwise
    }
}
