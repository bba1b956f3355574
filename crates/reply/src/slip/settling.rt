// Making slips and settling them.
ghost use Rattle.std.specs.Prelude.{◌≡◌, ◌↔◌, ◌≤◌, true, false, ◌++◌, length, drop, IsOk, IfOk, OnErr};
ghost use Rattle.reply.specs.Slips.{owed, refused};

use super::Slip;
use crate::answer::Answer;
use crate::writing::write;

// The memory for an answer is less than this; its number on the card is 2.
const ROOM: usize = 64;

#[derive(Clone, Copy, PartialEq, Eq, Debug)]
pub struct NoRoom;

impl NoRoom {
    pub fn number(self) -> u8
        ensures { result ≡ 2 }
    {
        2
    }
}

impl<F: Copy> Slip<F> {
    pub fn new(outcome: Result<Answer, F>) -> Slip<F>
        ensures outcome { result.outcome ≡ outcome }
        ensures open { result.settled ≡ false }
    {
        Slip {
            outcome,
            settled: false,
        }
    }

    // Why the line was refused; none where it was accepted.
    pub fn refusal(&self) -> Option<F>
        ensures { result ≡ refused self.now.outcome }
    {
        self.outcome.err()
    }

    // Writes the answer at the front of `out`: nothing for silence or a refused line. Under 64 bytes nothing is written.
    pub fn settle(&mut self, out: &mut [u8]) -> Result<usize, NoRoom>
        requires { self.old.settled ≡ false }
        ensures settled { self.new.settled ≡ true }
        ensures outcome { self.new.outcome ≡ self.old.outcome }
        ensures room { IsOk result ↔ (64 ≤ length out.old) }
        ensures count { IfOk result (λ n. n ≡ length (owed self.old.outcome)) }
        ensures written { IfOk result (λ n. out.new ≡ owed self.old.outcome ++ drop n out.old) }
        ensures short { OnErr result (out.new ≡ out.old) }
    {
        self.settled = true;
        if out.len() < ROOM {
            return Err(NoRoom);
        }
        match self.outcome {
            Ok(answer) => Ok(write(out, answer)),
            Err(_) => Ok(0),
        }
    }
}
