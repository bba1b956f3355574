// What the drive at the bottom of a pile shows of itself.
ghost use Rattle.std.specs.Prelude.{◌≡◌, Some};
ghost use Rattle.axis.specs.declared.display.Shown.{Shown};
ghost use Rattle.axis.specs.Printed.{printed};

use std::fmt;

#[derive(Clone, Copy, PartialEq, Eq, Debug)]
pub enum Shown {
    // How many pulses each way, as two counts that wrap.
    Counts {
        clockwise: u32,
        counterclockwise: u32,
    },
    // The four coils as bits, those that carry current set.
    Coils {
        bits: u8,
    },
}

impl fmt::Display for Shown {
    ghost output = { λ shown. Some (printed shown) };

    fn fmt<W: fmt::Write>(&self, f: &mut fmt::Formatter<W>) -> fmt::Result {
        match *self {
            Shown::Counts {
                clockwise,
                counterclockwise,
            } => write!(f, "counts {clockwise} {counterclockwise}"),
            Shown::Coils { bits } => write!(f, "coils {bits}"),
        }
    }
}

pub trait Drive {
    ghost shows: { Self → Shown };

    fn shown(&self) -> Shown
        ensures { result ≡ shows self.now };
}
