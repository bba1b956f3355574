// Why a move is refused before its first pulse.
ghost use Rattle.std.specs.Prelude.{◌≡◌};
ghost use Rattle.plan.specs.Limits.{number_of};

// Each by its number on the refusal card.
#[derive(Clone, Copy, PartialEq, Eq, Debug)]
pub enum MoveFault {
    WindingsOff = 10,
    // The low speed is 0, and the move needs one.
    NoLowSpeed = 11,
    PastLimit = 12,
    // Of the counter.
    PastEnd = 13,
}

impl MoveFault {
    pub fn number(self) -> u8
        ensures { result ≡ number_of self }
    {
        self as u8
    }
}
