// A row cut at its blanks.
ghost use Rattle.std.specs.Prelude.{◌≡◌, ◌<◌, [], length, MatchOption};
ghost use Rattle.std.specs.Iterator.{at_most};
ghost use Rattle.scan.specs.Cuts.{blank, visible, trimmed, first_word, after_word};

use crate::runs::{Kind, past, split};

// A space, a tab, or the carriage return that some hosts put before the line feed.
pub struct Blank;

impl Kind for Blank {
    ghost includes = { blank };

    fn is(byte: u8) -> bool {
        matches!(byte, b' ' | b'\t' | b'\r')
    }
}

// Any other byte.
pub struct Visible;

impl Kind for Visible {
    ghost includes = { visible };

    fn is(byte: u8) -> bool {
        !Blank::is(byte)
    }
}

#[derive(Drop)]
pub struct Words<'a> {
    rest: &'a [u8],
}

impl<'a> Words<'a> {
    pub fn new(row: &'a [u8]) -> Words<'a>
        ensures { result.rest.now ≡ row.now }
    {
        Words { rest: row }
    }

    // What no word was taken of yet.
    pub fn rest(&self) -> &'a [u8]
        ensures { result.now ≡ self.now.rest.now }
    {
        self.rest
    }
}

// The words one after the other; none where only blanks are left.
impl<'a> Iterator for Words<'a> {
    type Item = &'a [u8];

    ghost next_gives = { λ before word after.
        MatchOption word (trimmed before.rest.now ≡ []) (λ w. (w.now ≡ first_word before.rest.now) × (0 < length w.now))
        × (after.rest.now ≡ after_word before.rest.now) };

    ghost remaining = { λ words. at_most (length words.rest.now) };

    fn next(&mut self) -> Option<&'a [u8]> {
        let trimmed = past::<Blank>(self.rest);
        let (word, rest) = split::<Visible>(trimmed);
        self.rest = rest;
        (!word.is_empty()).then_some(word)
    }
}
