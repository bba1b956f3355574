// Why a host hears a refusal.
ghost use Rattle.std.specs.Prelude.{◌≡◌, Some};
ghost use Rattle.clerk.specs.Refusals.{number_of, place_of, printed};
ghost use Rattle.clerk.specs.declared.refusal.Refusal.TheVariants as fault;

use crate::card::OnCard;
use reply::slip::settling::NoRoom;
use std::fmt;

#[derive(Clone, Copy, PartialEq, Eq, Debug)]
pub enum Refusal<F> {
    // What the line was refused for.
    Line(F),
    // The line was accepted, and there is too little memory for its answer.
    NoRoom,
}

impl<F> From<NoRoom> for Refusal<F> {
    ghost from_gives = { λ _ r. r ≡ fault.NoRoom };

    fn from(_short: NoRoom) -> Refusal<F> {
        Refusal::NoRoom
    }
}

impl<F: OnCard> Refusal<F> {
    // Its number on the refusal card.
    pub fn number(self) -> u8
        ensures { result ≡ number_of F.OnCard.number self }
    {
        match self {
            Refusal::Line(fault) => fault.number(),
            Refusal::NoRoom => NoRoom.number(),
        }
    }

    // The place of the byte or word; 0, as on the card, where there is none.
    pub fn place(self) -> usize
        ensures { result ≡ place_of F.OnCard.place self }
    {
        match self {
            Refusal::Line(fault) => fault.place(),
            Refusal::NoRoom => 0,
        }
    }
}

// As a WordFault prints itself: one impl for all that has a number and a place is not allowed.
impl<F: OnCard> fmt::Display for Refusal<F> {
    ghost output = { λ refusal. Some (printed F.OnCard.number F.OnCard.place refusal) };

    fn fmt<W: fmt::Write>(&self, f: &mut fmt::Formatter<W>) -> fmt::Result {
        write!(f, "refused {} at {}", self.number(), self.place())
    }
}
