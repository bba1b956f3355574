// What is owed for a line that was taken: one answer, settled once.
ghost use Rattle.std.specs.Prelude.{◌≡◌, true};

use crate::answer::Answer;

pub mod settling;

// It may be let go only once it is settled.
pub struct Slip<F: Copy> {
    // Of a refused line, why.
    outcome: Result<Answer, F>,
    // A flag: the edits and the clause `settled` speak of it, and a method that takes the slip whole could not leave it settled for `Drop` to check.
    settled: bool,
}

impl<F: Copy> Drop for Slip<F> {
    fn drop(self)
        requires { self.settled ≡ true }
    {
        let Slip {
            outcome: _,
            settled: _,
        } = self;
    }
}
