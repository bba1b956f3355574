// The switches of a sample.
ghost use Rattle.std.specs.Prelude.{◌≡◌};
ghost use Rattle.inputs.specs.Switches.{bit};

// Each by its bit.
#[derive(Clone, Copy, PartialEq, Eq, Debug)]
pub enum Switch {
    // This and the next are inputs 3 and 4 where the board is set so.
    ClockwiseLimit = 0,
    CounterclockwiseLimit = 1,
    Home = 2,
    Clear = 3,
    Hold = 4,
    FirstInput = 5,
    SecondInput = 6,
    Stop = 7,
}

impl Switch {
    // By their bits.
    pub(crate) const ALL: [Switch; 8] = [
        Switch::ClockwiseLimit,
        Switch::CounterclockwiseLimit,
        Switch::Home,
        Switch::Clear,
        Switch::Hold,
        Switch::FirstInput,
        Switch::SecondInput,
        Switch::Stop,
    ];

    // Whether it is active in this sample.
    pub fn is_in(self, sample: u8) -> bool
        ensures { result ≡ bit self sample }
    {
        sample >> self as u8 & 1 == 1
    }
}
