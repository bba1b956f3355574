// Which way a pulse turns the motor.
ghost use Rattle.std.specs.Prelude.{◌≡◌, pos, negsuc, ◌≤ℤ◌};
ghost use Rattle.axis.specs.Steps.{step, opposite};

// Each by what its pulse adds to the place.
#[derive(Clone, Copy, PartialEq, Eq, Debug)]
pub enum Direction {
    Clockwise = 1,
    Counterclockwise = -1,
}

impl Direction {
    // What a pulse this way adds to the place.
    pub fn step(self) -> i32
        ensures is { result ≡ step self }
        ensures least { negsuc 0 ≤ℤ result }
        ensures most { result ≤ℤ pos 1 }
    {
        self as i32
    }

    pub fn reversed(self) -> Direction
        ensures { result ≡ opposite self }
    {
        match self {
            Direction::Clockwise => Direction::Counterclockwise,
            Direction::Counterclockwise => Direction::Clockwise,
        }
    }
}
