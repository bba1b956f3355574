// One word after the other.
ghost use Rattle.std.specs.Prelude.{◌≡◌, ◌↔◌, true, IsSome, IfSome};
ghost use Rattle.words.specs.Bytes.{letter};
ghost use Rattle.words.specs.Words.{spelled, word_of, behind};
ghost use Rattle.words.specs.Reading.{Reads};

use crate::runs::{run_of_digits, signed, trimmed};
use crate::word::{ByteFault, Word};

// What is left of a line.
#[derive(Clone, Copy, PartialEq, Eq, Debug)]
pub struct Reader<'a> {
    pub rest: &'a [u8],
    // Of the whole line, so that places count from its first byte.
    pub length: usize,
}

impl<'a> Reader<'a> {
    // Over the last bytes of a line of this length.
    pub fn new(rest: &'a [u8], length: usize) -> Reader<'a>
        ensures rest { result.rest.now ≡ rest.now }
        ensures length { result.length ≡ length }
    {
        Reader { rest, length }
    }

    // The next word; none at the end of the line. A byte that opens no word is not passed.
    pub fn word(&mut self) -> Result<Option<Word<'a>>, ByteFault>
        ensures word { Reads self.old.length self.old.rest.now self.new.rest.now result }
        ensures length { self.new.length ≡ self.old.length }
    {
        let line = trimmed(self.rest);
        let [opening, body @ ..] = line else {
            self.rest = line;
            return Ok(None);
        };
        let place = self.length.saturating_sub(body.len());
        let (word, rest) = opened(*opening, place, body).ok_or(ByteFault::OpensNone { place })?;
        self.rest = rest;
        Ok(Some(word))
    }
}

// The word of this letter and what stands behind it, if it is a letter; of any other byte what stands behind is not looked at.
fn opened(opening: u8, place: usize, body: &[u8]) -> Option<(Word<'_>, &[u8])>
    ensures letter { IsSome result ↔ (letter opening ≡ true) }
    ensures word { IfSome result (λ r. spelled r.0 ≡ word_of place opening body.now) }
    ensures behind { IfSome result (λ r. r.1.now ≡ behind opening body.now) }
{
    let (sign, number) = match char::from(opening) {
        'X' => signed(body),
        'N' | 'G' | 'F' | 'L' | 'H' => (None, body),
        _ => return None,
    };
    let (digits, behind) = run_of_digits(number);
    match char::from(opening) {
        'N' => Some((Word::N { place, digits }, behind)),
        'G' => Some((Word::G { place, digits }, behind)),
        'X' => Some((
            Word::X {
                place,
                sign,
                digits,
            },
            behind,
        )),
        'F' => Some((Word::F { place, digits }, behind)),
        'L' => {
            let (sign, number) = signed(trimmed(behind));
            let (data, behind) = run_of_digits(number);
            Some((
                Word::L {
                    place,
                    code: digits,
                    sign,
                    digits: data,
                },
                behind,
            ))
        }
        'H' => Some((Word::H { place, digits }, behind)),
        _ => None,
    }
}
