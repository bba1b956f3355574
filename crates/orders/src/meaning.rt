// One word after the other, as it is heard.
ghost use Rattle.std.specs.Prelude.{◌≡◌, None};
ghost use Rattle.words.specs.Words.{spelled};
ghost use Rattle.orders.specs.Meanings.{hear, meaning, setting, nothing};

use crate::fault::WordFault;
use crate::heard::{Fields, Heard, Setting};
use crate::numbers::{data, number};
use crate::wrong::{is_foreign, is_missing, is_outside, is_unnamed};
use codes::coded::Coded;
use codes::host::HostCode;
use codes::program::ProgramCode;
use scan::field::Field;
use settings::parameter::Parameter;
use settings::values::Settings;
use words::word::Word;

fn setting(parameter: Option<Parameter>, number: i32) -> Option<Setting>
    ensures { result ≡ setting parameter number }
{
    parameter.map(|parameter| Setting { parameter, number })
}

impl Heard {
    pub fn nothing() -> Heard
        ensures { result ≡ nothing }
    {
        Heard {
            line: None,
            fields: Fields::NONE,
            setting: None,
            host: None,
        }
    }

    // What was heard, with this word.
    fn hear(&mut self, word: Word<'_>)
        ensures { self.new ≡ hear self.old (spelled word.entry) }
    {
        match word {
            Word::N { digits, .. } => self.line = Some(digits.value(Field::Line)),
            Word::G { digits, .. } => self.fields.code = ProgramCode::coded(digits.value(
                Field::Code,
            )),
            Word::X { sign, digits, .. } => self.fields.x = Some(number(sign, digits)),
            Word::F { digits, .. } => self.fields.feed = Some(digits.value(Field::Feed)),
            Word::L {
                code,
                sign,
                digits,
                ..
            } => {
                let number = data(code, sign, digits);
                self.setting = setting(Parameter::coded(code.value(Field::Code)), number);
            }
            Word::H { digits, .. } => self.host = HostCode::coded(digits.value(Field::Code)),
        }
    }

    // With one word more, or what is wrong with that.
    pub(crate) fn with(
        mut self,
        word: Word<'_>,
        named: bool,
        bang: bool,
        settings: &Settings,
    ) -> Result<Heard, WordFault>
        ensures { result ≡ meaning settings.now.resolution named bang self (spelled word.entry) }
    {
        let place = word.place();
        if is_missing(word) {
            return Err(WordFault::Missing { place });
        }
        if is_foreign(named, &self, word) {
            return Err(WordFault::Foreign { place });
        }
        if is_unnamed(bang, word) {
            return Err(WordFault::NoCode { place });
        }
        if is_outside(settings, word) {
            return Err(WordFault::OutOfRange { place });
        }
        self.hear(word);
        Ok(self)
    }
}
