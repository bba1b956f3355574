// Pulses a second, at least 1 and at most the fastest top speed.
ghost use Rattle.std.specs.Prelude.{◌≡◌, ◌≤◌};
ghost use Rattle.ramp.specs.Rates.{ticks};

// Ticks of the clock in a second.
const CLOCK: u32 = 15_000_000;

#[derive(Clone, Copy, PartialEq, Eq, Debug)]
pub struct Rate {
    pub(crate) per_second: u32,
    ghost some: { 1 ≤ per_second },
    ghost most: { per_second ≤ 1875000 },
}

impl Rate {
    pub fn per_second(self) -> u32
        ensures { result ≡ self.per_second }
    {
        self.per_second
    }

    // Ticks from a pulse at this rate to the next, rounded down.
    pub fn wait(self) -> u32
        ensures { result ≡ ticks self.per_second }
    {
        CLOCK / self.per_second
    }
}
