// Where a word stands.
ghost use Rattle.std.specs.Prelude.{◌≡◌, ◌==◌};
ghost use Rattle.words.specs.Words.{spelled};

use super::Word;

impl<'a> Word<'a> {
    // The place of its letter.
    pub fn place(self) -> usize
        ensures { result ≡ (spelled self.entry).place }
    {
        match self {
            Word::N { place, .. }
            | Word::G { place, .. }
            | Word::X { place, .. }
            | Word::F { place, .. }
            | Word::L { place, .. }
            | Word::H { place, .. } => place,
        }
    }

    // Whether it is N and the number of a program line.
    pub fn is_line(self) -> bool
        ensures { result ≡ ((spelled self.entry).letter == 78) }
    {
        matches!(self, Word::N { .. })
    }
}
