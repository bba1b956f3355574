// How far an axis may go.
ghost use Rattle.std.specs.Prelude.{◌≡◌};
ghost use Rattle.layers.specs.Allowances.{allows, capped};

// The widest each way, in pulses.
const WIDEST: u32 = 1_000_000_000;

// Pulses down and up from where it stands.
#[derive(Clone, Copy, PartialEq, Eq, Debug)]
pub struct Allowance {
    pub down: u32,
    pub up: u32,
}

impl Allowance {
    // Past the widest it counts as the widest.
    pub fn capped(self) -> Allowance
        ensures { result ≡ capped self }
    {
        Allowance {
            down: self.down.min(WIDEST),
            up: self.up.min(WIDEST),
        }
    }

    // Whether an axis may stand so many pulses from there, clockwise less counterclockwise.
    pub fn allows(self, net: i32) -> bool
        ensures { result ≡ allows self net }
    {
        // Two comparisons, as wide as the numbers: asked of a range of wider ones, a pulse of the standard pile takes over half as long again.
        let bottom = 0i32.saturating_sub_unsigned(self.down);
        let top = 0i32.saturating_add_unsigned(self.up);
        bottom <= net && net <= top
    }
}
