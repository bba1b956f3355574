// What is wrong with a line that is no order.
ghost use Rattle.std.specs.Prelude.{◌≡◌, Some};
ghost use Rattle.orders.specs.Faults.{number_of, place_of, layer_of, told};
ghost use Rattle.orders.specs.declared.fault.WordFault.TheVariants.{Byte};

use std::fmt;
use words::word::ByteFault;

// The places are those of the words' letters, counted from 1.
#[derive(Clone, Copy, PartialEq, Eq, Debug)]
pub enum WordFault {
    Byte(ByteFault),
    // Digits are missing, or the sign of a home direction.
    Missing { place: usize },
    // A word that stands twice, or beside one that it cannot stand beside, or before N.
    Foreign { place: usize },
    // A code that there is not, or no transfer behind `!`.
    NoCode { place: usize },
    // There is no such program line, or the parameter does not take the number.
    OutOfRange { place: usize },
}

// Where a line was found wrong.
#[derive(Clone, Copy, PartialEq, Eq, Debug)]
pub enum Layer {
    Bytes,
    Words,
    Orders,
}

impl From<ByteFault> for WordFault {
    ghost from_gives = { λ e r. r ≡ Byte e };

    fn from(fault: ByteFault) -> WordFault {
        WordFault::Byte(fault)
    }
}

impl WordFault {
    // Its number on the refusal card.
    pub fn number(self) -> u8
        ensures { result ≡ number_of self }
    {
        match self {
            WordFault::Byte(ByteFault::TooLong) => 1,
            WordFault::Byte(ByteFault::Blank) => 3,
            WordFault::Byte(ByteFault::OpensNone { .. }) => 4,
            WordFault::Missing { .. } => 5,
            WordFault::Foreign { .. } => 6,
            WordFault::NoCode { .. } => 7,
            WordFault::OutOfRange { .. } => 8,
        }
    }

    // The place of the byte or word; 0, as on the card, where the line is wrong as a whole.
    pub fn place(self) -> usize
        ensures { result ≡ place_of self }
    {
        match self {
            WordFault::Byte(ByteFault::TooLong | ByteFault::Blank) => 0,
            WordFault::Byte(ByteFault::OpensNone { place })
            | WordFault::Missing { place }
            | WordFault::Foreign { place }
            | WordFault::NoCode { place }
            | WordFault::OutOfRange { place } => place,
        }
    }

    pub fn layer(self) -> Layer
        ensures { result ≡ layer_of self }
    {
        match self {
            WordFault::Byte(_) => Layer::Bytes,
            _ => Layer::Words,
        }
    }
}

// As clerk's Refusal prints itself: one impl for all that has a number and a place is not allowed.
impl fmt::Display for WordFault {
    ghost output = { λ fault. Some (told fault) };

    fn fmt<W: fmt::Write>(&self, f: &mut fmt::Formatter<W>) -> fmt::Result {
        write!(f, "refused {} at {}", self.number(), self.place())
    }
}
