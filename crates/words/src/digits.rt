// Digits of a word.
ghost use Rattle.std.specs.Prelude.{◌≡◌, ◌==◌, ◌<◌, ◌^◌, true, length};
ghost use Rattle.scan.specs.Fields.{width, kept};
ghost use Rattle.scan.specs.Numbers.{digits, value};

use scan::field::Field;

// Bytes of the line, all of them digits; empty where a word has no number.
#[derive(Clone, Copy, PartialEq, Eq, Debug)]
pub struct Digits<'a> {
    pub bytes: &'a [u8],
    ghost all: { digits bytes.now ≡ true },
}

impl<'a> Digits<'a> {
    pub fn is_empty(self) -> bool
        ensures { result ≡ (length self.entry.bytes.now == 0) }
    {
        self.bytes.is_empty()
    }

    // The value of those that the field keeps.
    #[tactic(auto, using(scan::proofs::Few::few))]
    pub fn value(self, field: Field) -> u32
        ensures is { result ≡ value (kept field self.entry.bytes.now) }
        ensures within { result < 10 ^ width field }
    {
        field.value(self.bytes)
    }
}
