// Why an order is refused.
ghost use Rattle.std.specs.Prelude.{◌≡◌};
ghost use Rattle.program.specs.Faults.{number_of, place_of, layer_of};
ghost use Rattle.program.specs.declared.fault.OrderFault.TheVariants.{Word};

use orders::fault::{Layer, WordFault};

#[derive(Clone, Copy, PartialEq, Eq, Debug)]
pub enum OrderFault {
    Word(WordFault),
    // The program memory is not 400 lines.
    Memory,
    // A program or a move is in being.
    Busy,
}

impl From<WordFault> for OrderFault {
    ghost from_gives = { λ e r. r ≡ Word e };

    fn from(fault: WordFault) -> OrderFault {
        OrderFault::Word(fault)
    }
}

impl OrderFault {
    // Its number on the refusal card.
    pub fn number(self) -> u8
        ensures { result ≡ number_of self }
    {
        match self {
            OrderFault::Word(fault) => fault.number(),
            OrderFault::Memory => 14,
            OrderFault::Busy => 9,
        }
    }

    // The place of the byte or word; 0, as on the card, where there is none.
    pub fn place(self) -> usize
        ensures { result ≡ place_of self }
    {
        match self {
            OrderFault::Word(fault) => fault.place(),
            OrderFault::Memory | OrderFault::Busy => 0,
        }
    }

    pub fn layer(self) -> Layer
        ensures { result ≡ layer_of self }
    {
        match self {
            OrderFault::Word(fault) => fault.layer(),
            OrderFault::Memory | OrderFault::Busy => Layer::Orders,
        }
    }
}
