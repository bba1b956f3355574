// Low speed keeps one rate; high speed climbs from it and falls back to it.
#[derive(Clone, Copy, PartialEq, Eq, Debug)]
pub enum SpeedMode {
    Low,
    High,
}

impl SpeedMode {
    ghost use Rattle.std.specs.Prelude.{◌≡◌};
    ghost use Rattle.ramp.specs.Rates.{drives};

    // Whether this low speed drives a move.
    pub(crate) fn drives(self, low: u32) -> bool
        ensures { result ≡ drives self low }
    {
        match self {
            SpeedMode::Low => low >= 1,
            SpeedMode::High => true,
        }
    }
}
