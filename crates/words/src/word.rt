// The words of a host line, and what is wrong with a line's bytes.
use crate::digits::Digits;

pub mod place;

#[derive(Clone, Copy, PartialEq, Eq, Debug)]
pub enum Sign {
    Plus,
    Minus,
}

// A letter, the place of it (bytes count from 1), and the digits behind it.
#[derive(Clone, Copy, PartialEq, Eq, Debug)]
pub enum Word<'a> {
    N {
        place: usize,
        digits: Digits<'a>,
    },
    G {
        place: usize,
        digits: Digits<'a>,
    },
    X {
        place: usize,
        sign: Option<Sign>,
        digits: Digits<'a>,
    },
    F {
        place: usize,
        digits: Digits<'a>,
    },
    // The digits of the code, then the data with its sign.
    L {
        place: usize,
        code: Digits<'a>,
        sign: Option<Sign>,
        digits: Digits<'a>,
    },
    H {
        place: usize,
        digits: Digits<'a>,
    },
}

#[derive(Clone, Copy, PartialEq, Eq, Debug)]
pub enum ByteFault {
    // Over 80 bytes.
    TooLong,
    // Only blanks, or empty.
    Blank,
    // The byte at this place stands where a word has to open, and opens none.
    OpensNone { place: usize },
}
