// One word more.
ghost use Rattle.std.specs.Prelude.{◌≡◌};
ghost use Rattle.words.specs.Listing.{words};
ghost use Rattle.orders.specs.Lines.{named, Handed};
ghost use Rattle.orders.specs.Hearings.{Hears, Begins};

use super::Hearing;
use crate::fault::WordFault;
use crate::heard::Heard;
use settings::values::Settings;
use words::reader::Reader;
use words::word::Word;

// The next word; none at the end, or before a byte that opens none.
fn next_word<'a>(reader: &mut Reader<'a>) -> Option<Word<'a>>
    ensures word { Handed reader.old.length reader.old.rest.now reader.new.rest.now result }
    ensures length { reader.new.length ≡ reader.old.length }
{
    reader.word().unwrap_or(None)
}

// Whether one of the words is N.
fn names_line(mut reader: Reader<'_>) -> bool
    ensures { result ≡ named (words reader.entry.length reader.entry.rest.now) }
{
    // Tried as `any` over `from_fn`: that the words end stayed open, since std promises no end of a `from_fn`.
    while let Some(word) = next_word(&mut reader) {
        if word.is_line() {
            return true;
        }
    }
    false
}

impl<'a> Hearing<'a> {
    // Of what is left of a line.
    pub fn new(reader: Reader<'a>, bang: bool) -> Hearing<'a>
        ensures { Begins reader.entry.rest.now reader.entry.length bang result }
    {
        Hearing {
            reader,
            named: names_line(reader),
            bang,
            heard: Heard::nothing(),
        }
    }

    // Hears the next word, unless something is wrong with it; false where there is none.
    pub fn word(&mut self, settings: &Settings) -> Result<bool, WordFault>
        ensures { Hears settings.now.resolution self.old self.new result }
    {
        match next_word(&mut self.reader) {
            Some(word) => {
                self.heard = self.heard.with(word, self.named, self.bang, settings)?;
                Ok(true)
            }
            None => Ok(false),
        }
    }

    // What was said so far.
    pub fn heard(&self) -> Heard
        ensures { result ≡ self.now.heard }
    {
        self.heard
    }
}
