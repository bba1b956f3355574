// What a line can be refused for, as the refusal card has it.
ghost use Rattle.std.specs.Prelude.{◌≡◌, ℕ};
ghost use Rattle.orders.specs.Faults as words;
ghost use Rattle.program.specs.Faults.{number_of, place_of};

use orders::fault::WordFault;
use program::fault::OrderFault;

pub trait OnCard: Copy {
    ghost number: { Self → ℕ };

    ghost place: { Self → ℕ };

    // Its number.
    fn number(self) -> u8
        ensures { result ≡ number self };

    // The place of the byte or word; 0 where there is none.
    fn place(self) -> usize
        ensures { result ≡ place self };
}

impl OnCard for OrderFault {
    ghost number = { number_of };

    ghost place = { place_of };

    fn number(self) -> u8 {
        OrderFault::number(self)
    }

    fn place(self) -> usize {
        OrderFault::place(self)
    }
}

impl OnCard for WordFault {
    ghost number = { words.number_of };

    ghost place = { words.place_of };

    fn number(self) -> u8 {
        WordFault::number(self)
    }

    fn place(self) -> usize {
        WordFault::place(self)
    }
}
