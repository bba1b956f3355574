// Things that go by a number of their own, and the one that a number names.
ghost use Rattle.std.specs.Prelude.{◌≡◌, ◌≢◌, ◌++◌, ℕ, List, Some, MatchOption, codes};
ghost use Rattle.std.specs.Fmt.{decimal};
ghost use Rattle.codes.specs.Coded.{coded_among};

use std::error::Error;
use std::fmt;

// Each also has its TryFrom<u32>, since Rust allows no impl of that for every Coded type.
pub trait Coded: Copy + 'static {
    ghost code: { Self → ℕ };

    ghost all: { List Self };

    fn all() -> &'static [Self]
        ensures { result.now ≡ all };

    fn code(self) -> u8
        ensures { result ≡ code self };

    // No two have one code, and all leaves none out.
    ghost found: { (it : Self) → coded_among code all (code it) ≡ Some it };

    // The one with the number as its code; None where there is none.
    final fn coded(number: u32) -> Option<Self>
        ensures among { result ≡ coded_among code all number }
        ensures exact { MatchOption result ((it : Self) → code it ≢ number) (λ it. code it ≡ number) }
    {
        Self::all()
            .iter()
            .copied()
            .find(|it| u32::from(it.code()) == number)
    }
}

// A number that is the code of nothing.
#[derive(Clone, Copy, PartialEq, Eq, Debug)]
pub struct UnknownCode(pub u32);

impl fmt::Display for UnknownCode {
    ghost output = { λ unknown. Some (codes "nothing has the code " ++ decimal unknown.0) };

    fn fmt<W: fmt::Write>(&self, f: &mut fmt::Formatter<W>) -> fmt::Result {
        write!(f, "nothing has the code {}", self.0)
    }
}

impl Error for UnknownCode {}
