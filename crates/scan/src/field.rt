// Digits of a field of a host line: too many lose the first.
ghost use Rattle.std.specs.Prelude.{◌≡◌, ◌≤◌};
ghost use Rattle.scan.specs.Fields.{width, kept};
ghost use Rattle.scan.specs.Numbers.{value};

#[derive(Clone, Copy, PartialEq, Eq, Debug)]
pub enum Field {
    // The number of a program line.
    Line,
    // The code of a G, H or L.
    Code,
    // X, and the data of L.
    Number,
    Feed,
}

impl Field {
    // How many digits it keeps.
    pub fn width(self) -> usize
        ensures is { result ≡ width self }
        ensures most { result ≤ 8 }
    {
        match self {
            Field::Line => 3,
            Field::Code => 2,
            Field::Number => 8,
            Field::Feed => 7,
        }
    }

    // The value of the digits that it keeps, the last ones.
    pub fn value(self, digits: &[u8]) -> u32
        ensures { result ≡ value (kept self digits.now) }
    {
        let from = digits.len().saturating_sub(self.width());
        let last = &digits[from..];
        // Tried as a fold: that its closure does not overflow stayed open, since it knows no count of the digits before.
        let mut n = 0u32;
        for digit in last {
            n = n * 10 + u32::from(digit.saturating_sub(b'0'));
        }
        n
    }
}
